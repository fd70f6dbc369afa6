// What a journal comes to: its calls with their answers, and the pairs that were tacked.
ghost use Rattle.std.specs.Prelude.{◌≡◌, map, length, IfOk};
ghost use Rattle.plays.specs.Beside.{Beside};
ghost use Rattle.plays.specs.Lists.{drawn_by, ends, has_ended, press_list, pressing, slips, tacked_by};

use super::fates::{Fate, fate_of, slip_of};
use journals::Entry;
use std::alloc::{AllocError, Global};
use yard::{Answer, Call, SlipNumbers};

// A call of the journal with its answer.
#[derive(Clone, Copy)]
pub struct Done {
    pub line: usize,
    pub call: Call,
    pub answer: Answer,
}

// A pair for the press: its slip, by the index of its drawing, what the slip says, and whether the
// pair is pressed.
#[derive(Clone, Copy)]
pub struct PressLine {
    pub slip: usize,
    pub numbers: SlipNumbers,
    pub pressed: bool,
}

// How a tacked slip ends: the two of the five things that an answer says of a slip.
#[derive(Clone, Copy)]
enum End {
    Pressed,
    Voided,
}

// The calls of the entries.
pub fn calls_of(heap: Global, entries: &[Entry]) -> Result<Vec<Call>, AllocError>
    ensures { IfOk result (λ v. v.items ≡ map (λ e. e.call) entries.now) }
{
    entries.iter().map(|entry| entry.call).collect(heap)
}

// Each entry with the answer of its call.
pub fn answered(
    heap: Global,
    entries: &[Entry],
    answers: &[Answer],
) -> Result<Vec<Done>, AllocError>
    ensures { IfOk result (λ v. length entries.now ≡ length answers.now → Beside entries.now answers.now v.items) }
{
    entries
        .iter()
        .zip(answers.iter())
        .map(|(entry, answer)| Done {
            line: entry.line,
            call: entry.call,
            answer: *answer,
        })
        .collect(heap)
}

// The pairs that were tacked and not voided, in the order of tacking.
pub fn press_list(heap: Global, all: &[Done]) -> Result<Vec<PressLine>, AllocError>
    ensures { IfOk result (λ v. v.items ≡ press_list all.now) }
{
    let drawn = slips(heap, all)?;
    let drawn = drawn.as_slice();
    all.iter()
        .filter_map(|done| pressing(all, drawn, done))
        .collect(heap)
}

// What a call adds to the press list: the slip that it tacked, unless that was voided.
fn pressing(all: &[Done], drawn: &[SlipNumbers], done: &Done) -> Option<PressLine>
    requires { drawn.now ≡ slips all.now }
    ensures { result ≡ pressing all.now (tacked_by done.now) }
{
    let slip = tacked_by(done)?;
    let numbers = *drawn.get(slip)?;
    if has_ended(all, End::Voided, slip) {
        return None;
    }
    Some(PressLine {
        slip,
        numbers,
        pressed: has_ended(all, End::Pressed, slip),
    })
}

// The slips that the drawings gave.
fn slips(heap: Global, all: &[Done]) -> Result<Vec<SlipNumbers>, AllocError>
    ensures { IfOk result (λ v. v.items ≡ slips all.now) }
{
    all.iter().filter_map(drawn_by).collect(heap)
}

fn drawn_by(done: &Done) -> Option<SlipNumbers>
    ensures { result ≡ drawn_by done.now }
{
    match fate_of(done.answer) {
        Fate::Drawn(slip) => Some(slip),
        _ => None,
    }
}

fn tacked_by(done: &Done) -> Option<usize>
    ensures { result ≡ tacked_by done.now }
{
    match fate_of(done.answer) {
        Fate::Tacked => slip_of(done.call),
        _ => None,
    }
}

// One of the calls ended the slip so.
fn has_ended(all: &[Done], way: End, slip: usize) -> bool
    ensures { result ≡ has_ended way slip all.now }
{
    all.iter().any(|done| ends(done, way, slip))
}

fn ends(done: &Done, way: End, slip: usize) -> bool
    ensures { result ≡ ends way slip done.now }
{
    let so = matches!(
        (way, fate_of(done.answer)),
        (End::Pressed, Fate::Pressed) | (End::Voided, Fate::Voided)
    );
    so && slip_of(done.call) == Some(slip)
}
