// The whole of a run: two texts read, the journal replayed, the answers and the lists written.
use super::failures::Failure;
use super::writing::{write_answers, write_bins, write_open, write_presses};
use answers::{Cause, Source, text_of};
use asking::{JobPile, joints_of};
use jobs::{Format, Job};
use journals::Entry;
use plates::{Joint, Supply};
use plays::{Played, play, press_list};

// Where the job and the journal are, and the stamp of the yard.
#[derive(Drop)]
pub struct Order {
    pub job: Source,
    pub journal: Source,
    pub stamp: u32,
}

// Reads both texts and replays the journal, or does nothing where one of them is at fault.
pub fn run(rt: &HostRuntime, order: Order) -> Result<(), Failure> {
    let Order {
        job: source,
        journal,
        stamp,
    } = order;
    let job = job_of(rt, &source).map_err(|cause| Failure::Unread { source, cause })?;
    let entries = entries_of(rt, &journal).map_err(|cause| Failure::Unread {
        source: journal,
        cause,
    })?;
    let joints = joints_of(rt.alloc(), &job).map_err(|_| Failure::Memory { done: 0 })?;
    replay_all(
        rt,
        JobPile::new(&job),
        stamp,
        joints.as_slice(),
        entries.as_slice(),
    )
}

fn job_of(rt: &HostRuntime, source: &Source) -> Result<Job, Cause> {
    let text = text_of(rt, source)?;
    jobs::read(rt.alloc(), Format::Whole, text.as_str()).map_err(Cause::Text)
}

fn entries_of(rt: &HostRuntime, source: &Source) -> Result<Vec<Entry>, Cause> {
    let text = text_of(rt, source)?;
    journals::read(rt.alloc(), text.as_str()).map_err(Cause::Text)
}

// Replays the journal for joints of any kinds over any pile.
fn replay_all<P: Supply + Copy, J: Joint>(
    rt: &HostRuntime,
    pile: P,
    stamp: u32,
    joints: &[J],
    entries: &[Entry],
) -> Result<(), Failure> {
    let played = play(rt.alloc(), pile, stamp, joints, entries).map_err(|_| Failure::Memory {
        done: 0,
    })?;
    write_all(rt, &pile, &played)
}

fn write_all<P: Supply>(rt: &HostRuntime, pile: &P, played: &Played<P>) -> Result<(), Failure> {
    let all = played.done.as_slice();
    let presses = press_list(rt.alloc(), all).map_err(|_| Failure::Memory { done: all.len() })?;
    write_answers(rt, pile, all)?;
    write_bins(rt, pile, &played.yard)?;
    write_presses(rt, pile, presses.as_slice())?;
    write_open(rt, pile, played.slips.as_slice())?;
    Ok(())
}
