// The one fault of a text that breaks the format: where, what was found and what was expected.
ghost use Rattle.std.specs.Prelude.{◌≡◌};

use std::alloc::{AllocError, AllocFailed};
use std::fmt;

#[derive(Debug, Drop)]
pub enum Found {
    Word(String),
    EndOfLine,
    // a word of the format where it should not stand
    Keyword(&'static str),
    // numbers that make no plate
    Numbers([u32; 3]),
}

#[derive(Clone, Copy, Debug)]
pub enum Expected {
    // the opener of one of these blocks
    Block(&'static str),
    // a key of the block that is open, or the next block
    KeyOf {
        block: &'static str,
        keys: &'static str,
    },
    // this key, which the block lacks
    Lacking(&'static str),
    // this key only once in its block
    Once(&'static str),
    // at most one of these blocks
    OneBlock(&'static str),
    Number,
    // a number that counts from 1
    Ordinal,
    Distance,
    // one of these words
    OneOf(&'static str),
    EndOfLine,
    // a plate that can exist
    Plate,
}

// What was found, and what was expected.
#[derive(Debug, Drop)]
pub struct Mismatch {
    pub found: Found,
    pub expected: Expected,
}

#[derive(Debug, Drop)]
pub enum Fault {
    // lines are counted from 1
    Format { line: usize, mismatch: Mismatch },
    Memory,
}

impl From<AllocError> for Fault {
    ghost use Rattle.texts.specs.declared.faults.Fault.TheVariants.{Memory};

    ghost from_gives = { λ _ f. f ≡ Memory };

    fn from(_e: AllocError) -> Self {
        Fault::Memory
    }
}

impl<T: Drop> From<AllocFailed<T>> for Fault {
    ghost use Rattle.texts.specs.declared.faults.Fault.TheVariants.{Memory};

    ghost from_gives = { λ _ f. f ≡ Memory };

    fn from(_e: AllocFailed<T>) -> Self {
        Fault::Memory
    }
}

impl fmt::Display for Found {
    fn fmt<W: fmt::Write>(&self, f: &mut fmt::Formatter<W>) -> fmt::Result {
        match self {
            Found::Word(word) => write!(f, "`{word}`"),
            Found::EndOfLine => f.write_str("end of line"),
            Found::Keyword(word) => write!(f, "`{word}`"),
            Found::Numbers([a, b, c]) => write!(f, "`{a} {b} {c}`"),
        }
    }
}

impl fmt::Display for Expected {
    fn fmt<W: fmt::Write>(&self, f: &mut fmt::Formatter<W>) -> fmt::Result {
        match *self {
            Expected::Block(blocks) => write!(f, "a block: {blocks}"),
            Expected::KeyOf { block, keys } => write!(f, "a key of a {block}: {keys}"),
            Expected::Lacking(key) => write!(f, "the key {key} before the block ends"),
            Expected::Once(key) => write!(f, "the key {key} only once in its block"),
            Expected::OneBlock(blocks) => write!(f, "one {blocks} at most"),
            Expected::Number => f.write_str("a whole number of 0 to 4294967295"),
            Expected::Ordinal => f.write_str("a whole number of 1 to 4294967295"),
            Expected::Distance => f.write_str("a whole number of -2147483648 to 2147483647"),
            Expected::OneOf(words) => write!(f, "one of {words}"),
            Expected::EndOfLine => f.write_str("the end of the line"),
            Expected::Plate => f.write_str(
                "a plate of width 20 to 300, length 20 to 1000 and family 0 to 15",
            ),
        }
    }
}

impl fmt::Display for Mismatch {
    fn fmt<W: fmt::Write>(&self, f: &mut fmt::Formatter<W>) -> fmt::Result {
        let found = &self.found;
        let expected = self.expected;
        write!(f, "found {found}, expected {expected}")
    }
}

impl fmt::Display for Fault {
    fn fmt<W: fmt::Write>(&self, f: &mut fmt::Formatter<W>) -> fmt::Result {
        match self {
            Fault::Format { line, mismatch } => write!(f, "line {line}: {mismatch}"),
            Fault::Memory => f.write_str("out of memory"),
        }
    }
}
