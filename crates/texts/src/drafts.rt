// A block of a text, key by key.
ghost use Rattle.std.specs.Prelude.{◌≡◌, ℕ, Bool, true, false, List, Ok, IfOk, Some, MatchResult, Result};
ghost use Rattle.texts.specs.Faults.{at_line};
ghost use Rattle.texts.specs.Lines.{rest};

use super::faults::{Expected, Fault, Found, Mismatch};
use super::line::Line;
use super::values::Word;

// What the lines of a block have said so far, by key: `has` says which keys have come, `kept` that every
// key but one is as it was, and `takes` that the value of a key is what the next words of its line say.
pub trait Draft: Copy {
    type Key: Word;

    ghost has: { Self.Key → Self → Bool };

    ghost kept: { Self.Key → Self → Self → Type 0 };

    ghost takes: { Self.Key → List ℕ → Self → List ℕ → Type 0 };

    fn has(&self, key: Self::Key) -> bool
        ensures { result ≡ has key self.now };

    // Takes the values of `key` from its line, and leaves the other keys as they are.
    fn set(&mut self, key: Self::Key, line: &mut Line) -> Result<(), Fault>
        ensures kept { kept key self.old self.new }
        ensures cases { MatchResult result (λ _. (has key self.new ≡ true) × takes key (rest line.old) self.new (rest line.new)) (λ _. self.new ≡ self.old) };
}

// A draft that gives a whole: `whole` is what all of its keys give, or the first key that is lacking.
pub trait Finish: Draft {
    type Whole;

    ghost whole: { Self → Result Self.Whole Self.Key };

    fn finish(self) -> Result<Self::Whole, Self::Key>
        ensures { result ≡ whole self };
}

// The draft with one more line, of which `word` is the first: a key of the block, for the first time.
pub fn with_line<D: Draft>(draft: D, word: &str, line: &mut Line) -> Result<D, Fault>
    ensures { IfOk result (λ d. (k : D.Key) × D.Key.Value.reads word.now (Some k) × (D.has k draft ≡ false) × (D.has k d ≡ true) × D.kept k draft d × D.takes k (rest line.old) d (rest line.new)) }
{
    let key: D::Key = line.meant(word)?;
    if draft.has(key) {
        return Err(line.wrong(word, Expected::Once(key.word())));
    }
    let mut more = draft;
    more.set(key, line)?;
    Ok(more)
}

// What a draft gives as a whole. A key that it lacks is a fault of the line that opened its block.
pub fn whole<D: Finish, B: Word>(draft: D, block: B, opened: usize) -> Result<D::Whole, Fault>
    ensures { MatchResult result (λ x. D.whole draft ≡ Ok x) (λ f. at_line f ≡ opened) }
{
    draft.finish().map_err(|key| Fault::Format {
        line: opened,
        mismatch: Mismatch {
            found: Found::Keyword(block.word()),
            expected: Expected::Lacking(key.word()),
        },
    })
}
