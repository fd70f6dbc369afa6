// Joints worked by hand: the claim that the definitions give their numbers, and the numbers that
// the code gives.
ghost use Rattle.std.specs.Prelude.{◌≡◌, ◌≤◌, true, false, pos};
ghost use Rattle.rules.specs.Heel.{by_table, by_formula};
ghost use Rattle.clauses.specs.Worked.{WorkedByHand};

use super::asked::{capacity, holds_cross, holds_grip};
use super::splices::{RangedSection, Section, holds_moment};
use rules::{
    Duration, FactorRule, Force, Lateral, Service, Species, at_grain, factored, heel_factor,
    lateral,
};

// The resistance of the teeth for load at 30 degrees to the grain, step by step.
#[derive(Clone, Copy)]
pub struct WorkedTeeth {
    pub along: u32,
    pub across: u32,
    pub n: u32,
    pub resistance: u32,
    pub capacity: u32,
}

// The clauses on both sides of their limit: held at it, missed beyond.
#[derive(Clone, Copy)]
pub struct WorkedLimits {
    pub tension: (bool, bool),
    pub compression: (bool, bool),
    pub cross: (bool, bool),
}

// The factor of a heel by table and by formula.
#[derive(Clone, Copy)]
pub struct WorkedHeels {
    pub quarter: (u32, u32),
    pub five_twelfths: (u32, u32),
    pub steep: (u32, u32),
}

// The neutral axis of a splice in hundredths of a millimetre, and its moment at the limit and beyond.
#[derive(Clone, Copy)]
pub struct WorkedSplice {
    pub axis: i64,
    pub moment: (bool, bool),
}

// p, q = 2000, 1500 and p', q' = 1800, 1400 at 30 degrees to the grain and 45 to the plate axis,
// with every factor 100, over 76 × 50 mm.
#[tactic(auto, using(crate::proofs::ByHand::by_hand))]
pub fn worked_teeth() -> WorkedTeeth
    ensures claim { WorkedByHand }
    ensures values { result ≡ record { along = 1846; across = 1680; n = 1763; resistance = 1586; capacity = 6026 } }
{
    let along = at_grain(2000, 1500, 30);
    let across = at_grain(1800, 1400, 30);
    let n = lateral(
        Lateral {
            p: 2000,
            q: 1500,
            pt: 1800,
            qt: 1400,
        },
        30,
        45,
    );
    let resistance = factored(n, Duration::Standard, Service::SeasonedDry, 100);
    let capacity = capacity(resistance, 76 * 50);
    WorkedTeeth {
        along,
        across,
        n,
        resistance,
        capacity,
    }
}

// 6026 and 6027 in tension, 12,052 and 12,053 in compression, over a capacity of 6026;
// 5,000 across spruce of depth 140, over sides of 61 and 60.
pub fn worked_limits() -> WorkedLimits
    ensures { result ≡ record { tension = (true, false); compression = (true, false); cross = (true, false) } }
{
    let tension = (
        holds_grip(Force::Tension, 0, 6026, 6026),
        holds_grip(Force::Tension, 0, 6027, 6026),
    );
    let compression = (
        holds_grip(Force::Compression, 0, 12_052, 6026),
        holds_grip(Force::Compression, 0, 12_053, 6026),
    );
    let cross = (
        holds_cross(Species::SprucePineFir, 5000, 140, 61),
        holds_cross(Species::SprucePineFir, 5000, 140, 60),
    );
    WorkedLimits {
        tension,
        compression,
        cross,
    }
}

fn both_ways(rise: u32, run: u32) -> (u32, u32)
    requires rise { rise ≤ 10000 }
    requires run_low { 1 ≤ run }
    requires run_high { run ≤ 10000 }
    ensures { result ≡ (by_table rise run, by_formula rise run) }
{
    (
        heel_factor(Some(FactorRule::Table), rise, run),
        heel_factor(Some(FactorRule::Formula), rise, run),
    )
}

// Slopes of 1/4, 5/12 and 47/100.
pub fn worked_heels() -> WorkedHeels
    ensures { result ≡ record { quarter = (80, 80); five_twelfths = (70, 70); steep = (65, 66) } }
{
    let quarter = both_ways(1, 4);
    let five_twelfths = both_ways(5, 12);
    let steep = both_ways(47, 100);
    WorkedHeels {
        quarter,
        five_twelfths,
        steep,
    }
}

// Steel of 200 N/mm over 76 mm, depth 89, wood of 11.5 MPa and 5,000 N of tension, under moments of
// 117,118 and 117,119 N·mm.
#[tactic(auto, using(crate::proofs::ByHand::by_hand))]
pub fn worked_splice() -> WorkedSplice
    ensures { result ≡ record { axis = pos 2717; moment = (true, false) } }
{
    let section = Section {
        depth: 89,
        wood: 115,
        side: 76,
        steel: 200,
        pull: 5000,
    };
    let axis = RangedSection { section }.axis();
    let moment = (
        holds_moment(117_118, &section),
        holds_moment(117_119, &section),
    );
    WorkedSplice { axis, moment }
}
