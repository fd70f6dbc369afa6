// The moment factor of a heel joint, in hundredths, from its slope rise/run.
ghost use Rattle.std.specs.Prelude.{◌≡◌, ◌<◌, ◌≤◌};
ghost use Rattle.rules.specs.Heel.{by_table, rounded_up, Reaches, by_formula, heel_factor};

// How a heel sheet has its factor found.
#[derive(Clone, Copy, PartialEq, Eq, Debug)]
pub enum FactorRule {
    Table,
    Formula,
}

// The rule that a sheet means where it says none.
const DEFAULT_RULE: FactorRule = FactorRule::Table;

// By the slope's place in a table; slopes are compared by cross-multiplication.
fn by_table(rise: u32, run: u32) -> u32
    requires rise { rise ≤ 10000 }
    requires run { run ≤ 10000 }
    ensures value { result ≡ by_table rise run }
    ensures bound { result ≤ 100 }
{
    if 4 * rise < run {
        85
    } else if 3 * rise < run {
        80
    } else if 12 * rise < 5 * run {
        75
    } else if 11 * rise <= 5 * run {
        70
    } else {
        65
    }
}

// A quotient rounded up.
fn rounded_up(a: u32, b: u32) -> u32
    requires { 0 < b }
    ensures value { result ≡ rounded_up a b }
    ensures means { Reaches a b result }
{
    a.div_ceil(b)
}

// By 95 − 60 × rise/run, the quotient rounded up, held within 65 to 85.
fn by_formula(rise: u32, run: u32) -> u32
    requires rise { rise ≤ 10000 }
    requires run { 0 < run }
    ensures value { result ≡ by_formula rise run }
    ensures bound { result ≤ 100 }
{
    95u32
        .saturating_sub(rounded_up(60 * rise, run))
        .clamp(65, 85)
}

pub fn heel_factor(choice: Option<FactorRule>, rise: u32, run: u32) -> u32
    requires rise { rise ≤ 10000 }
    requires run_low { 1 ≤ run }
    requires run_high { run ≤ 10000 }
    ensures value { result ≡ heel_factor choice rise run }
    ensures bound { result ≤ 100 }
{
    match choice.unwrap_or(DEFAULT_RULE) {
        FactorRule::Table => by_table(rise, run),
        FactorRule::Formula => by_formula(rise, run),
    }
}
