// A line of the text, word by word.
ghost use Rattle.std.specs.Prelude.{◌≡◌, Some, MatchResult};
ghost use Rattle.std.specs.Option as opt;
ghost use Rattle.supplies.specs.Few.{few};
ghost use Rattle.texts.specs.Faults.{At};
ghost use Rattle.texts.specs.Lines.{rest, Blank, First, Said, Taken, These, UpTo};

use super::faults::{Expected, Fault, Found, Mismatch};
use super::values::Value;
use std::alloc::Global;
use std::str::SplitWhitespace;
use supplies::Few;

// It is passed whole, since a fault takes its number, its heap and a word; what takes words from it says
// that its number stays.
#[derive(Drop)]
pub struct Line<'a> {
    heap: Global,
    number: usize,
    words: SplitWhitespace<'a>,
}

impl<'a> Line<'a> {
    // The words before the comment of line `number`.
    pub fn new(heap: Global, number: usize, text: &'a str) -> Line<'a>
        ensures number { result.number ≡ number }
        ensures said { Said text.now (rest result) }
    {
        // a match, since a proof does not reach what the closure of `map_or` returns
        let said = match text.split_once('#') {
            Some((before, _)) => before,
            None => text,
        };
        Line {
            heap,
            number,
            words: said.split_whitespace(),
        }
    }

    pub fn fault(&self, found: Found, expected: Expected) -> Fault
        ensures { result ≡ Fault.Format self.now.number (record { found = found; expected = expected }) }
    {
        Fault::Format {
            line: self.number,
            mismatch: Mismatch { found, expected },
        }
    }

    // The fault of a word of this line.
    pub fn wrong(&self, word: &str, expected: Expected) -> Fault
        ensures { At self.now.number result }
    {
        // a match, as in `new`
        match String::from_str(self.heap, word) {
            Ok(word) => self.fault(Found::Word(word), expected),
            Err(error) => error.into(),
        }
    }

    pub fn number(&self) -> usize
        ensures { result ≡ self.now.number }
    {
        self.number
    }

    pub fn word(&mut self) -> Option<&'a str>
        ensures number { self.new.number ≡ self.old.number }
        ensures word { opt.MatchOption result (Blank (rest self.old) × (rest self.new ≡ rest self.old)) (λ w. First (rest self.old) w.now (rest self.new)) }
    {
        self.words.next()
    }

    // The value of the next word.
    pub fn value<T: Value>(&mut self) -> Result<T, Fault>
        ensures number { self.new.number ≡ self.old.number }
        ensures value { MatchResult result (λ v. Taken T.Value.reads (rest self.old) v (rest self.new)) (λ f. At self.old.number f) }
    {
        let word = self
            .word()
            .ok_or_else(|| self.fault(Found::EndOfLine, T::expected()))?;
        self.meant(word)
    }

    // The value of a word of this line.
    #[inline(always)]
    pub fn meant<T: Value>(&self, word: &str) -> Result<T, Fault>
        ensures { MatchResult result (λ v. T.Value.reads word.now (Some v)) (λ f. At self.now.number f) }
    {
        T::read(word).ok_or_else(|| self.wrong(word, T::expected()))
    }

    // The next `N` words as numbers.
    pub fn numbers<const N: usize>(&mut self) -> Result<[u32; N], Fault>
        ensures number { self.new.number ≡ self.old.number }
        ensures numbers { MatchResult result (λ ns. These N (rest self.old) ns (rest self.new)) (λ f. At self.old.number f) }
    {
        let mut numbers = [0; N];
        for number in numbers.iter_mut() {
            *number = self.value()?;
        }
        Ok(numbers)
    }

    // The words that are left as numbers, as many as there are and `N` at most.
    pub fn few<const N: usize>(&mut self) -> Result<Few<N>, Fault>
        ensures number { self.new.number ≡ self.old.number }
        ensures few { MatchResult result (λ f. UpTo N (rest self.old) (few f) (rest self.new)) (λ f. At self.old.number f) }
    {
        let mut values = [0; N];
        for (count, value) in values.iter_mut().enumerate() {
            let Some(word) = self.word() else {
                return Ok(Few::new(values, count));
            };
            *value = self.meant(word)?;
        }
        Ok(Few::new(values, N))
    }

    pub fn end(&mut self) -> Result<(), Fault>
        ensures { MatchResult result (λ _. Blank (rest self.old)) (λ f. At self.old.number f) }
    {
        match self.word() {
            None => Ok(()),
            Some(word) => Err(self.wrong(word, Expected::EndOfLine)),
        }
    }
}
