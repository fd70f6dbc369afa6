// A row book: rows of any one kind, in the caller's memory.
ghost use Rattle.std.specs.Prelude.{◌≤◌, length};

pub mod writing;

// The first `used` rows are in the book; the rest are free.
#[derive(Drop)]
pub struct RowBook<'a, R> {
    rows: &'a mut [R],
    used: usize,
    ghost within: { used ≤ length rows.now },
}
