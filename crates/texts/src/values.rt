// One word and the value that it stands for.
ghost use Rattle.std.specs.Prelude.{◌≡◌, ℕ, List, Option, ◌==◌, slice_index};
ghost use Rattle.texts.specs.Numbers.{Whole, Signed};

use super::faults::Expected;

// A value that is written as one word. `reads` says which value a word stands for, if any.
pub trait Value: Sized {
    ghost reads: { List ℕ → Option Self → Type 0 };

    fn read(word: &str) -> Option<Self>
        ensures { reads word.now result };

    fn expected() -> Expected;
}

// A value that has a word of its own.
pub trait Word: Value + Copy {
    ghost word: { Self → List ℕ };

    fn word(self) -> &'static str
        ensures { result.now ≡ word self };
}

// Two lines for each kind of number, since `parse` means another thing for each.
impl Value for u32 {
    ghost reads = { Whole };

    fn read(word: &str) -> Option<u32> {
        if plus_first(word.as_bytes()) {
            return None;
        }
        word.parse().ok()
    }

    fn expected() -> Expected {
        Expected::Number
    }
}

impl Value for i32 {
    ghost reads = { Signed };

    fn read(word: &str) -> Option<i32> {
        if plus_first(word.as_bytes()) {
            return None;
        }
        word.parse().ok()
    }

    fn expected() -> Expected {
        Expected::Distance
    }
}

// `parse` takes a `+` in front, which the format has not.
fn plus_first(word: &[u8]) -> bool
    ensures { result ≡ (slice_index word.now 0 == 43) }
{
    word.first() == Some(&b'+')
}
