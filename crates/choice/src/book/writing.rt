// Making a row book, appending to it and reading it.
ghost use Rattle.std.specs.Prelude.{◌≡◌, ◌-◌, ◌<◌, [], ◌∷◌, length, take};
ghost use Rattle.choice.specs.Books.{memory, Entered, OneMemory, Opened, Stored};

use super::RowBook;
use plates::Refusal;

impl<'a, R> RowBook<'a, R> {
    // A book over these rows, the first `used` of which are in it from the start. A count
    // past the rows is read as all of them: an `Option` of a book would be a value that the
    // prover cannot follow, and its caller would learn nothing of its rows.
    pub fn new(rows: &'a mut [R], used: usize) -> RowBook<'a, R>
        ensures { Opened rows.entry used result }
    {
        let used = used.min(rows.len());
        RowBook { rows, used }
    }

    // How many rows are in the book.
    pub fn used(&self) -> usize
        ensures { result ≡ self.now.used }
    {
        self.used
    }

    // How many more it takes.
    pub fn free(&self) -> usize
        ensures { result ≡ length (memory self.now) - self.now.used }
    {
        self.rows.len() - self.used
    }

    // The rows in the book.
    pub fn rows(&self) -> &[R]
        ensures { result.now ≡ take self.now.used (memory self.now) }
    {
        &self.rows[..self.used]
    }
}

impl<'a, R: Drop> RowBook<'a, R> {
    // Appends one row, or is refused where no row is free, and then nothing changes.
    pub fn push(&mut self, row: R) -> Result<(), Refusal>
        ensures entered { Entered self.old (row ∷ []) self.new result }
        ensures one_memory { OneMemory self.old self.new }
    {
        if self.free() < 1 {
            return Err(Refusal::BookFull);
        }
        self.write(row);
        Ok(())
    }

    // Appends one row, for which there is room.
    pub(crate) fn write(&mut self, row: R)
        requires { self.old.used < length (memory self.old) }
        ensures stored { Stored self.old row self.new }
        ensures one_memory { OneMemory self.old self.new }
    {
        self.rows[self.used] = row;
        self.used += 1;
    }
}
