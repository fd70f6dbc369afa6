// A pile and a joint for the tests, and what a yard tells in plain numbers.
ghost use Rattle.std.specs.Prelude.{◌-◌, not, ◌&&◌, if◌then◌else◌, None, Ok, Err, nat_le, nat_lt};
ghost use Rattle.plates.specs.Size.{sized};
ghost use Rattle.plates.specs.declared.refusals.Refusal.TheVariants.{SheetNumber};
ghost use Rattle.plates.specs.declared.turnings.Turning.TheVariants.{Unturned, Turned};
ghost use Rattle.plates.specs.declared.verdicts.Clause.TheVariants.{Bite};
ghost use Rattle.plates.specs.declared.verdicts.Verdict.TheVariants.{Passes, Misses};

use plates::{Clause, Joint, Plate, Refusal, Supply, Turning, Verdict};
use yard::Yard;

// So many places; each plate is shorter than the one before, and past place 980 none is shown.
#[derive(Clone, Copy)]
pub struct Pile(pub u32);

impl Supply for Pile {
    ghost places = { λ s. s.0 };

    ghost shows = { λ s k. (if nat_lt k s.0 then sized 100 (1000 - k) 0 else None) };

    fn places(&self) -> u32 {
        self.0
    }

    fn plate(&self, place: u32) -> Option<Plate> {
        if place < self.0 {
            Plate::new(100, 1000u32.saturating_sub(place), 0)
        } else {
            None
        }
    }
}

// A joint that takes plates of at least some length, in one turning.
#[derive(Clone, Copy)]
pub struct Asks {
    pub lawful: bool,
    pub turned: bool,
    pub length: u32,
}

impl Joint for Asks {
    ghost standing = { λ j. (if j.lawful then Ok tt else Err SheetNumber) };

    ghost verdict = { λ j s t. (if (elim t [ Unturned ↦ not j.turned | Turned ↦ j.turned ] && nat_le j.length s.length) then Passes else Misses Bite 1) };

    fn standing(&self) -> Result<(), Refusal> {
        if self.lawful {
            Ok(())
        } else {
            Err(Refusal::SheetNumber)
        }
    }

    fn verdict(&self, plate: Plate, turning: Turning) -> Verdict {
        let lies = match turning {
            Turning::Unturned => !self.turned,
            Turning::Turned => self.turned,
        };
        if lies && self.length <= plate.length() {
            Verdict::Passes
        } else {
            Verdict::Misses {
                clause: Clause::Bite,
                member: 1,
            }
        }
    }
}

// Takes any plate, unturned.
pub const ANY: Asks = Asks {
    lawful: true,
    turned: false,
    length: 0,
};

// Takes plates of 998 and more, turned.
pub const LONG: Asks = Asks {
    lawful: true,
    turned: true,
    length: 998,
};

// Takes nothing: no plate is so long.
pub const LONGER: Asks = Asks {
    lawful: true,
    turned: false,
    length: 1001,
};

pub const UNLAWFUL: Asks = Asks {
    lawful: false,
    turned: false,
    length: 0,
};

// The number of the refusal, or 0.
pub(crate) fn number<T: Drop>(answer: Result<T, Refusal>) -> u8 {
    match answer {
        Ok(_) => 0,
        Err(refusal) => refusal.number(),
    }
}

// The pairs on hand and out at a place of the yard.
pub(crate) fn told<P: Supply>(yard: &Yard<P>, place: u32) -> Option<(u32, u32)> {
    let bin = yard.tell(place).ok()?;
    Some((bin.on_hand(), bin.out()))
}
