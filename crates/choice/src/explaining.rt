// What the joint says of every plate shown, row by row.
ghost use Rattle.std.specs.List.{range_with_len};
ghost use Rattle.std.specs.Prelude.{◌≡◌, ◌+◌, ◌*◌, ◌≤◌, count_by, is_some, length, Ok, nat_le};
ghost use Rattle.plates.specs.Size.{size};
ghost use Rattle.choice.specs.Books.{memory, Entered, Grown, OneMemory};
ghost use Rattle.choice.specs.Explaining.{explained, row_of, rows_at, Accounted, Explained, Grounds};

use super::book::RowBook;
use super::survey::Survey;
use plates::{Joint, Plate, Refusal, Supply, Turning, Verdict};

// One row: a place, the turning of its plate, and the verdict, which has the letter or
// 'passes', and the member.
#[derive(Clone, Copy)]
pub struct ExplainRow {
    pub place: u32,
    pub turning: Turning,
    pub verdict: Verdict,
}

// Appends two rows for each plate shown, unturned then turned, in place order. A refusal,
// the joint's own before a full book, leaves every row of the caller's memory as it was.
pub fn explain<J: Joint, S: Supply>(
    joint: &J,
    supply: &S,
    book: &mut RowBook<'_, ExplainRow>,
) -> Result<(), Refusal>
    ensures rows { Explained (J.standing joint.now) (J.verdict joint.now) (S.places supply.now) (S.shows supply.now) book.old book.new result }
    ensures account { Accounted (J.standing joint.now) (J.verdict joint.now) (S.places supply.now) (S.shows supply.now) }
    ensures grounds { Grounds result }
    ensures one_memory { OneMemory book.old book.new }
{
    Survey::of(joint, supply)?.enter_rows(book)
}

// Whether two rows for each plate go into so many free ones.
fn has_room(free: usize, plates: usize) -> bool
    ensures { result ≡ nat_le (2 * plates) free }
{
    plates <= free / 2
}

impl<J: Joint, S: Supply> Survey<'_, J, S> {
    // Appends the rows of all places, or none where the book has no room for them.
    #[tactic(auto, using(crate::proofs::Accounts::account, crate::proofs::Entries::enough, crate::proofs::Entries::too_few))]
    fn enter_rows(&self, book: &mut RowBook<'_, ExplainRow>) -> Result<(), Refusal>
        ensures rows { Entered book.old (explained (J.verdict self.now.joint.now) (S.places self.now.supply.now) (S.shows self.now.supply.now)) book.new result }
        ensures account { Accounted (Ok tt) (J.verdict self.now.joint.now) (S.places self.now.supply.now) (S.shows self.now.supply.now) }
        ensures one_memory { OneMemory book.old book.new }
    {
        let count = self.supply.places();
        if !has_room(book.free(), self.count_shown(count)) {
            return Err(Refusal::BookFull);
        }
        self.write_all(count, book);
        Ok(())
    }

    // How many of the first places show a plate.
    fn count_shown(&self, count: u32) -> usize
        ensures { result ≡ count_by (λ k. is_some (S.shows self.now.supply.now k)) (range_with_len 0 count) }
    {
        (0..count)
            .filter(|place| self.supply.plate(*place).is_some())
            .count()
    }

    // Appends the rows of the first places, for which there is room.
    fn write_all(&self, count: u32, book: &mut RowBook<'_, ExplainRow>)
        requires { book.old.used + length (explained (J.verdict self.now.joint.now) count (S.shows self.now.supply.now)) ≤ length (memory book.old) }
        ensures grown { Grown book.old (explained (J.verdict self.now.joint.now) count (S.shows self.now.supply.now)) book.new }
        ensures one_memory { OneMemory book.old book.new }
    {
        for place in 0..count {
            self.write_place(place, book);
        }
    }

    // Appends the rows of one place, for which there is room.
    fn write_place(&self, place: u32, book: &mut RowBook<'_, ExplainRow>)
        requires { book.old.used + length (rows_at (J.verdict self.now.joint.now) place (S.shows self.now.supply.now place)) ≤ length (memory book.old) }
        ensures grown { Grown book.old (rows_at (J.verdict self.now.joint.now) place (S.shows self.now.supply.now place)) book.new }
        ensures one_memory { OneMemory book.old book.new }
    {
        if let Some(plate) = self.supply.plate(place) {
            book.write(self.row(place, plate, Turning::Unturned));
            book.write(self.row(place, plate, Turning::Turned));
        }
    }

    fn row(&self, place: u32, plate: Plate, turning: Turning) -> ExplainRow
        ensures { result ≡ row_of (J.verdict self.now.joint.now) place (size plate) turning }
    {
        ExplainRow {
            place,
            turning,
            verdict: self.verdict(plate, turning),
        }
    }
}
