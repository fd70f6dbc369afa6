// The least bite into chords and webs, in mm, by the member's depth and the truss length.
ghost use Rattle.std.specs.Prelude.{◌≡◌};
ghost use Rattle.rules.specs.Bites.{entries, by_truss, by_depth, bite};

// A row's entries for truss lengths up to 12,500, 18,300, 24,400 and beyond.
#[derive(Clone, Copy)]
pub struct BiteRow {
    pub first: u32,
    pub second: u32,
    pub third: u32,
    pub last: u32,
}

fn by_truss(truss: u32, row: BiteRow) -> u32
    ensures { result ≡ by_truss truss row }
{
    match truss {
        ..=12_500 => row.first,
        ..=18_300 => row.second,
        ..=24_400 => row.third,
        _ => row.last,
    }
}

// A row of these entries.
fn entries(first: u32, second: u32, third: u32, last: u32) -> BiteRow
    ensures { result ≡ entries first second third last }
{
    BiteRow {
        first,
        second,
        third,
        last,
    }
}

fn by_depth(depth: u32) -> BiteRow
    ensures { result ≡ by_depth depth }
{
    match depth {
        ..=114 => entries(38, 45, 51, 57),
        ..=140 => entries(38, 51, 57, 64),
        ..=184 => entries(51, 57, 64, 76),
        ..=235 => entries(64, 70, 76, 83),
        _ => entries(76, 76, 83, 89),
    }
}

#[tactic(auto, unfolding(crate::specs::Bites::bite))]
pub fn bite(depth: u32, truss: u32) -> u32
    ensures { result ≡ bite depth truss }
{
    by_truss(truss, by_depth(depth))
}
