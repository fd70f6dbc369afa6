// What the rules say of one plate in one turning.
ghost use Rattle.std.specs.Prelude.{◌≡◌};
ghost use Rattle.plates.specs.Verdicts.{letter, member, passes};

use std::fmt;

// The clauses, in the order in which they are tried; each is known by its letter.
#[derive(Clone, Copy, PartialEq, Eq, Debug)]
pub enum Clause {
    // A: the sheet allows the turning
    Turning,
    // B: the family has a card
    Card,
    // C: the teeth are short enough for the wood
    Teeth,
    // D: the bite
    Bite,
    // E: the bite across the grain
    CrossGrain,
    // F: the resistance of the teeth
    Grip,
    // G: the steel in tension
    Tension,
    // H: the steel in shear
    Shear,
    // I: the slip of the teeth
    Slip,
    // J: the extent of a splice plate
    Extent,
    // K: the moment in the steel of a splice
    Moment,
}

// 'Passes', or the first clause missed with its first member in sheet order, from 1;
// the member is 0 where the clause is the joint's as a whole.
#[derive(Clone, Copy, PartialEq, Eq, Debug)]
pub enum Verdict {
    Passes,
    Misses { clause: Clause, member: usize },
}

impl Clause {
    pub fn letter(self) -> char
        ensures { result ≡ letter self }
    {
        match self {
            Clause::Turning => 'A',
            Clause::Card => 'B',
            Clause::Teeth => 'C',
            Clause::Bite => 'D',
            Clause::CrossGrain => 'E',
            Clause::Grip => 'F',
            Clause::Tension => 'G',
            Clause::Shear => 'H',
            Clause::Slip => 'I',
            Clause::Extent => 'J',
            Clause::Moment => 'K',
        }
    }
}

// What a plate misses that misses the clause.
impl fmt::Display for Clause {
    fn fmt<W: fmt::Write>(&self, f: &mut fmt::Formatter<W>) -> fmt::Result {
        f.write_str(match self {
            Clause::Turning => "the sheet does not allow the turning",
            Clause::Card => "the family has no card",
            Clause::Teeth => "the teeth are too long for the wood",
            Clause::Bite => "the bite",
            Clause::CrossGrain => "the bite across the grain",
            Clause::Grip => "the resistance of the teeth",
            Clause::Tension => "the steel in tension",
            Clause::Shear => "the steel in shear",
            Clause::Slip => "the slip of the teeth",
            Clause::Extent => "the extent of the splice plate",
            Clause::Moment => "the moment in the steel of the splice",
        })
    }
}

impl Verdict {
    pub fn passes(self) -> bool
        ensures { result ≡ passes self }
    {
        matches!(self, Verdict::Passes)
    }

    // The member that the verdict names: 0 for 'passes'.
    pub fn member(self) -> usize
        ensures { result ≡ member self }
    {
        match self {
            Verdict::Passes => 0,
            Verdict::Misses { member, .. } => member,
        }
    }
}

impl fmt::Display for Verdict {
    fn fmt<W: fmt::Write>(&self, f: &mut fmt::Formatter<W>) -> fmt::Result {
        match self {
            Verdict::Passes => f.write_str("passes"),
            Verdict::Misses { clause, member } => write!(
                f,
                "misses {} member {member}: {clause}",
                clause.letter()
            ),
        }
    }
}
