// A row book and explain on small examples.
ghost use Rattle.std.specs.Prelude.{◌≡◌, [], ◌∷◌, if◌then◌else◌, None, Ok, Err, nat_lt};
ghost use Rattle.plates.specs.Size.{sized};
ghost use Rattle.plates.specs.declared.refusals.Refusal.TheVariants.{SheetNumber};
ghost use Rattle.plates.specs.declared.turnings.Turning.TheVariants.{Unturned, Turned};
ghost use Rattle.plates.specs.declared.verdicts.Clause.TheVariants.{Card};
ghost use Rattle.plates.specs.declared.verdicts.Verdict.TheVariants.{Passes, Misses};

use super::*;
use plates::Clause;

// So many places, each with the same plate.
#[derive(Drop)]
struct Alike(u32);

impl Supply for Alike {
    ghost places = { λ s. s.0 };

    ghost shows = { λ s k. (if nat_lt k s.0 then sized 76 100 0 else None) };

    fn places(&self) -> u32 {
        self.0
    }

    fn plate(&self, place: u32) -> Option<Plate> {
        if place < self.0 {
            Plate::new(76, 100, 0)
        } else {
            None
        }
    }
}

// A joint that passes a plate only unturned; unlawful, it is refused.
#[derive(Drop)]
struct Flat {
    lawful: bool,
}

impl Joint for Flat {
    ghost standing = { λ j. (if j.lawful then Ok tt else Err SheetNumber) };

    ghost verdict = { λ _ _ t. elim t [ Unturned ↦ Passes | Turned ↦ Misses Card 0 ] };

    fn standing(&self) -> Result<(), Refusal> {
        if self.lawful {
            Ok(())
        } else {
            Err(Refusal::SheetNumber)
        }
    }

    fn verdict(&self, _plate: Plate, turning: Turning) -> Verdict {
        match turning {
            Turning::Unturned => Verdict::Passes,
            Turning::Turned => Verdict::Misses {
                clause: Clause::Card,
                member: 0,
            },
        }
    }
}

// What a caller learns of its own memory: the earlier row and the rest stay.
fn one_more() -> [u8; 3]
    ensures { result ≡ 1 ∷ 7 ∷ 3 ∷ [] }
{
    let mut rows = [1, 2, 3];
    let mut book = RowBook::new(&mut rows, 1);
    let _ = book.push(7);
    rows
}

#[test]
fn one_row_appended(rt: HostRuntime) {
    assert!(rt; one_more() == [1, 7, 3]);
}

const BLANK: ExplainRow = ExplainRow {
    place: 9,
    turning: Turning::Unturned,
    verdict: Verdict::Passes,
};

// The number of the refusal, or 0.
fn number(answer: Result<(), Refusal>) -> u8 {
    match answer {
        Ok(()) => 0,
        Err(refusal) => refusal.number(),
    }
}

#[test]
fn earlier_rows_and_the_rest_stay(rt: HostRuntime) {
    let mut rows = [BLANK; 7];
    let mut book = RowBook::new(&mut rows, 1);
    assert!(rt; number(explain(&Flat { lawful: true }, &Alike(2), &mut book)) == 0);
    assert!(rt; book.used() == 5);
    assert!(rt; rows[0].place == 9 && rows[1].place == 0 && rows[2].place == 0);
    assert!(rt; rows[3].place == 1 && rows[4].place == 1 && rows[5].place == 9);
    assert!(rt; rows[3].verdict.passes() && !rows[4].verdict.passes());
}

#[test]
fn one_row_short(rt: HostRuntime) {
    let mut rows = [BLANK; 4];
    let mut book = RowBook::new(&mut rows, 1);
    assert!(rt; number(explain(&Flat { lawful: true }, &Alike(2), &mut book)) == 7);
    assert!(rt; book.used() == 1);
    assert!(rt; rows[1].place == 9);
}

#[test]
fn full_book(rt: HostRuntime) {
    let mut rows = [BLANK; 2];
    let mut book = RowBook::new(&mut rows, 3);
    assert!(rt; number(explain(&Flat { lawful: true }, &Alike(0), &mut book)) == 0);
    assert!(rt; number(explain(&Flat { lawful: true }, &Alike(1), &mut book)) == 7);
    assert!(rt; number(explain(&Flat { lawful: false }, &Alike(1), &mut book)) == 1);
    assert!(rt; book.free() == 0);
}
