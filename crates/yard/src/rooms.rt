// The loop of a replay, and replaying with no memory but what the caller brings.
ghost use Rattle.std.specs.Prelude.{◌≡◌, ℕ, ◌+◌, ◌<◌, ◌≤◌, true, false, ◌⊎◌, [], map, length, vec_len, vec_capacity, nat_le};
ghost use Rattle.yard.specs.Replays.{means};
ghost use Rattle.yard.specs.Yards.{IsOutcome};

use super::replays::{Answer, Call, Hook, Outcome, perform};
use super::yards::Yard;
use plates::{Joint, Supply};

// How a replay finds room for one thing more.
pub(crate) trait Room {
    // what is known of the length and the capacity where it finds none
    ghost ends: { ℕ → ℕ → Type 0 };

    fn find<T>(&self, items: &mut Vec<T>) -> bool
        ensures same { items.new.items ≡ items.old.items }
        ensures kept { vec_capacity items.old ≤ vec_capacity items.new }
        ensures room { result ≡ true → vec_len items.new < vec_capacity items.new }
        ensures full { result ≡ false → ends (vec_len items.new) (vec_capacity items.new) };
}

// From the heap, while there is memory.
pub(crate) struct FromHeap;

impl Room for FromHeap {
    ghost ends = { λ _ _. Unit {0} };

    fn find<T>(&self, items: &mut Vec<T>) -> bool {
        items.reserve(1).is_ok()
    }
}

// Only in what the caller brought.
struct Brought;

impl Room for Brought {
    ghost ends = { λ len capacity. capacity ≤ len };

    fn find<T>(&self, items: &mut Vec<T>) -> bool {
        !is_full(items)
    }
}

// Makes a yard over the pile and does the calls on it, one after the other. `rack` holds the
// slips brought along, and `answers` is emptied first. The replay takes no memory of its own:
// with room for every call in both, every call is done; else it ends where one of them is full.
pub fn replay_with_room<P: Supply, J: Joint>(
    pile: P,
    stamp: u32,
    joints: &[J],
    rack: Vec<Hook>,
    mut answers: Vec<Answer>,
    calls: &[Call],
) -> Outcome<P>
    ensures outcome { IsOutcome (map (means J.Joint.standing J.Joint.verdict) joints.now) (P.Supply.places pile) (P.Supply.shows pile) pile stamp rack.items calls.now result }
    ensures all { length calls.now ≤ vec_capacity answers → vec_len rack + length calls.now ≤ vec_capacity rack → result.complete ≡ true }
    ensures stops { result.complete ≡ false → (vec_capacity rack ≤ vec_len result.rack) ⊎ (vec_capacity answers ≤ vec_len result.answers) }
{
    answers.clear();
    play(&Brought, pile, stamp, joints, rack, answers, calls)
}

// Makes the yard, and does the calls while there is room for one slip and one answer more.
pub(crate) fn play<R: Room, P: Supply, J: Joint>(
    room: &R,
    pile: P,
    stamp: u32,
    joints: &[J],
    mut rack: Vec<Hook>,
    mut answers: Vec<Answer>,
    calls: &[Call],
) -> Outcome<P>
    requires { answers.items ≡ [] }
    ensures outcome { IsOutcome (map (means J.Joint.standing J.Joint.verdict) joints.now) (P.Supply.places pile) (P.Supply.shows pile) pile stamp rack.items calls.now result }
    ensures stops { result.complete ≡ false → (R.ends (vec_len result.rack) (vec_capacity result.rack)) ⊎ (R.ends (vec_len result.answers) (vec_capacity result.answers)) }
    ensures rack_room { vec_capacity rack ≤ vec_capacity result.rack }
    ensures answers_room { vec_capacity answers ≤ vec_capacity result.answers }
{
    let mut yard = Yard::new(pile, stamp);
    for call in calls {
        if !room.find(&mut rack) || !room.find(&mut answers) {
            break;
        }
        let answer = perform(&mut yard, joints, &mut rack, *call);
        answers.push_reserved(answer);
    }
    let complete = answers.len() == calls.len();
    Outcome {
        yard,
        rack,
        answers,
        complete,
    }
}

// Whether one more would have to find memory.
fn is_full<T>(items: &Vec<T>) -> bool
    ensures { result ≡ nat_le (vec_capacity items.now) (vec_len items.now) }
{
    items.capacity() <= items.len()
}
