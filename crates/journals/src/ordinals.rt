// Numbers that count from 1.
ghost use Rattle.journals.specs.Says.{Counted};

use texts::{Expected, Value};

// What a number from 1 counts, by its index from 0.
#[derive(Clone, Copy)]
pub struct Ordinal {
    pub index: usize,
}

impl Value for Ordinal {
    ghost reads = { Counted };

    fn read(word: &str) -> Option<Ordinal> {
        let index = u32::read(word)?.checked_sub(1)? as usize;
        Some(Ordinal { index })
    }

    fn expected() -> Expected {
        Expected::Ordinal
    }
}
