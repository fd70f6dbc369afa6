// Reading the slips on a rack, and ending them.
ghost use Rattle.std.specs.Prelude.{◌≡◌, IfOk};
ghost use Rattle.yard.specs.Hooks.{hanging, open_slip, open_slips, written};

use super::replays::Hook;
use super::slips::SlipNumbers;
use std::alloc::{AllocError, Global};

// A slip that hangs on a rack: its hook, what is written on it, and whether its pair is tacked.
#[derive(Clone, Copy)]
pub struct OpenSlip {
    pub hook: usize,
    pub numbers: SlipNumbers,
    pub tacked: bool,
}

impl Hook {
    // What is written on the slip, if one hangs here.
    pub fn numbers(&self) -> Option<SlipNumbers>
        ensures { result ≡ written self.now }
    {
        match self {
            Hook::Drawn(slip) => Some(slip.numbers()),
            Hook::Tacked(slip) => Some(slip.numbers()),
            Hook::Empty => None,
        }
    }

    // Ends the slip with no yard, if one hangs here: its pair stays out.
    pub fn void(self) -> Option<SlipNumbers>
        ensures { result ≡ written self }
    {
        match self {
            Hook::Drawn(slip) => Some(slip.void()),
            Hook::Tacked(slip) => Some(slip.void()),
            Hook::Empty => None,
        }
    }

    fn open(&self, hook: usize) -> Option<OpenSlip>
        ensures { result ≡ open_slip hook self.now }
    {
        Some(OpenSlip {
            hook,
            numbers: self.numbers()?,
            tacked: matches!(self, Hook::Tacked(_)),
        })
    }
}

// The slips that hang on a rack, hook by hook. They stay there.
pub fn open_slips(heap: Global, rack: &[Hook]) -> Result<Vec<OpenSlip>, AllocError>
    ensures { IfOk result (λ v. v.items ≡ open_slips 0 rack.now) }
{
    rack.iter()
        .enumerate()
        .filter_map(|(hook, held)| held.open(hook))
        .collect(heap)
}

// Ends every slip of a rack with no yard, and says how many there were: their pairs stay out.
pub fn void_all(mut rack: Vec<Hook>) -> usize
    ensures { result ≡ hanging rack.items }
{
    // A loop: an iterator over slips would be let go at its end, and a slip cannot be.
    let mut ended = 0;
    while let Some(hook) = rack.pop() {
        if hook.void().is_some() {
            ended += 1;
        }
    }
    rack.destroy_empty();
    ended
}
