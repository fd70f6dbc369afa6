// A journal's calls on a new yard, with no slip brought along.
ghost use Rattle.std.specs.Prelude.{map, IfOk};
ghost use Rattle.yard.specs.Counts.{told};
ghost use Rattle.yard.specs.Replays.{means};
ghost use Rattle.plays.specs.Plays.{Plays};

use super::lists::{Done, answered, calls_of};
use journals::Entry;
use plates::{Joint, Supply};
use std::alloc::{AllocError, Global};
use yard::{OpenSlip, Outcome, Yard, open_slips, replay_with_room, void_all};

// The yard after the calls, each entry with its answer, and the slips that are still open: on the
// rack these have been ended, so that the value can be let go.
#[derive(Drop)]
pub struct Played<P> {
    pub yard: Yard<P>,
    pub done: Vec<Done>,
    pub slips: Vec<OpenSlip>,
}

// Does the call of every entry; where memory is short nothing is left of what was done.
pub fn play<P: Supply + Drop, J: Joint>(
    heap: Global,
    pile: P,
    stamp: u32,
    joints: &[J],
    entries: &[Entry],
) -> Result<Played<P>, AllocError>
    ensures { IfOk result (λ p. Plays (map (means J.Joint.standing J.Joint.verdict) joints.now) (P.Supply.places pile) (P.Supply.shows pile) stamp entries.now p.done.items p.slips.items (told p.yard.bins)) }
{
    let calls = calls_of(heap, entries)?;
    let answers = Vec::with_capacity(heap, calls.len())?;
    let rack = Vec::with_capacity(heap, calls.len())?;
    let Outcome {
        yard,
        rack,
        answers,
        complete: _,
    } = replay_with_room(pile, stamp, joints, rack, answers, calls.as_slice());
    let slips = open_slips(heap, rack.as_slice());
    let _ = void_all(rack);
    Ok(Played {
        yard,
        done: answered(heap, entries, answers.as_slice())?,
        slips: slips?,
    })
}
