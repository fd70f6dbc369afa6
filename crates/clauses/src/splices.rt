// The moment in the steel of a splice, in signed arithmetic over hundredths of a millimetre.
ghost use Rattle.std.specs.Prelude.{◌≡◌, ◌*◌, ◌<◌, ◌≤◌, pos, negsuc, neg_ℤ, ◌≤ℤ◌};
ghost use Rattle.clauses.specs.Within.{SectionWithin};
ghost use Rattle.clauses.specs.Splice.{floored, Floor, excess, stiffness, axis, square, inside, steel_part, wood_part, pull_part, resists, holds_moment};

// The section of a splice through its first member, which is 38 thick: the member's depth, the wood
// value in tenths of MPa, the plate's full side across the grain, its tensile value in N/mm, and
// the member's tension in N.
#[derive(Clone, Copy)]
pub struct Section {
    pub depth: u32,
    pub wood: u32,
    pub side: u32,
    pub steel: u32,
    pub pull: u32,
}

// A quotient rounded towards minus infinity.
fn floored(z: i64, g: u32) -> i64
    requires { 0 < g }
    ensures value { result ≡ floored z g }
    ensures means { Floor z g result }
{
    z.div_euclid(g as i64)
}

fn square(z: i64) -> u64
    requires low { negsuc 99999 ≤ℤ z }
    requires high { z ≤ℤ pos 100000 }
    ensures value { result ≡ square z }
    ensures bound { result ≤ 10000000000 }
{
    let m = z.unsigned_abs();
    m * m
}

// A section whose numbers lie within their ranges. `Section` does not say so itself, since the
// definitions have the section of any numbers.
#[derive(Clone, Copy)]
pub(crate) struct RangedSection {
    pub(crate) section: Section,
    ghost within: { SectionWithin section },
}

impl RangedSection {
    #[tactic(auto, unfolding(crate::specs::Splice::excess))]
    fn excess(&self) -> i64
        ensures value { result ≡ excess self.now.section }
        ensures low { negsuc 399999999 ≤ℤ result }
        ensures high { result ≤ℤ pos 20000000 }
    {
        let s = self.section;
        let push = 38 * s.depth * s.wood + 74 * s.pull;
        let hold = 20 * s.side * s.steel;
        push as i64 - hold as i64
    }

    #[tactic(auto, unfolding(crate::specs::Splice::stiffness))]
    fn stiffness(&self) -> u32
        ensures value { result ≡ stiffness self.now.section }
        ensures low { 0 < result }
        ensures high { result ≤ 1000000 }
    {
        let s = self.section;
        40 * s.steel + 2 * 38 * s.wood
    }

    // The neutral axis in hundredths of a millimetre from the chord's centre line.
    #[tactic(auto, unfolding(crate::specs::Splice::axis))]
    pub(crate) fn axis(&self) -> i64
        ensures { result ≡ axis self.now.section }
    {
        floored(100 * self.excess(), self.stiffness())
    }

    // The axis lies under the plate.
    fn inside(&self, y: i64) -> bool
        ensures { result ≡ inside self.now.section.side y }
    {
        let reach = (50 * self.section.side) as i64;
        (-reach..=reach).contains(&y)
    }
}

// Such a section with its neutral axis, which lies under the plate.
#[derive(Clone, Copy)]
struct BentSection {
    section: Section,
    y: i64,
    ghost within: { SectionWithin section },
    ghost low: { neg_ℤ (pos (50 * section.side)) ≤ℤ y },
    ghost high: { y ≤ℤ pos (50 * section.side) },
}

impl BentSection {
    #[tactic(auto, unfolding(crate::specs::Splice::steel_part))]
    fn steel_part(&self) -> u64
        ensures value { result ≡ steel_part self.now.section self.now.y }
        ensures bound { result ≤ 54000000000000000 }
    {
        let s = self.section;
        270 * s.steel as u64 * square((50 * s.side) as i64 + self.y)
    }

    #[tactic(auto, unfolding(crate::specs::Splice::wood_part))]
    fn wood_part(&self) -> u64
        ensures value { result ≡ wood_part self.now.section self.now.y }
        ensures bound { result ≤ 2736000000000000 }
    {
        let s = self.section;
        (18 * 38 * s.wood) as u64 * square((50 * s.depth) as i64 - self.y)
    }

    fn pull_part(&self) -> i64
        ensures value { result ≡ pull_part self.now.section self.now.y }
        ensures low { negsuc 999999999999999 ≤ℤ result }
        ensures high { result ≤ℤ pos 1000000000000000 }
    {
        (100_000 * self.section.pull as u64) as i64 * self.y
    }

    fn resists(&self, moment: u32) -> bool
        requires { moment ≤ 20000000 }
        ensures { result ≡ resists moment self.now.section self.now.y }
    {
        let held = self.steel_part() + self.wood_part();
        10_000_000 * moment as i64 <= held as i64 - self.pull_part()
    }
}

// K: there is no moment, or the axis lies under the plate and the section resists the moment.
#[tactic(auto, unfolding(crate::specs::Splice::holds_moment))]
pub fn holds_moment(moment: u32, s: &Section) -> bool
    requires moment { moment ≤ 20000000 }
    requires section { SectionWithin s.now }
    ensures { result ≡ holds_moment moment s.now }
{
    if moment == 0 {
        return true;
    }
    let section = *s;
    let ranged = RangedSection { section };
    let y = ranged.axis();
    ranged.inside(y) && BentSection { section, y }.resists(moment)
}
