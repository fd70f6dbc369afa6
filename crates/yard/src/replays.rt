// Replaying a list of calls on a new yard, with the slips that it draws and those brought
// from elsewhere on a rack.
ghost use Rattle.std.specs.Prelude.{◌≡◌, ◌<◌, ◌≤◌, List, [], map, length, vec_len, vec_capacity, slice_set, MatchResult};
ghost use Rattle.std.specs.Option.{option_copied, option_map};
ghost use Rattle.yard.specs.Counts.{told};
ghost use Rattle.yard.specs.Runs.{Event};
ghost use Rattle.yard.specs.Replays.{Does, Draws, HandsBack, Presses, Tacks, Voids, hung, means, told_off};
ghost use Rattle.yard.specs.Yards.{IsOutcome, SamePile, state};
ghost use Rattle.yard.specs.Steps.{StepReturns};

use super::bins::Bin;
use super::rooms;
use super::rooms::FromHeap;
use super::slips::{DrawnSlip, Slip, SlipNumbers, TackedSlip, TurnedAway};
use super::yards::Yard;
use plates::{Joint, Refusal, Supply};
use std::alloc::Global;
use std::mem;

// One call. A joint is named by its index in the caller's list, a slip by its hook on the rack:
// the first hooks hold the slips brought, and each drawn slip gets the next hook.
#[derive(Clone, Copy)]
pub enum Call {
    Receive { place: u32, pairs: u32 },
    Draw { joint: usize, number: u32 },
    Tack { slip: usize },
    HandBack { slip: usize },
    Press { slip: usize },
    Void { slip: usize },
    Tell { place: u32 },
}

// A hook of the rack: it is empty once its slip has ended.
pub enum Hook {
    Drawn(DrawnSlip),
    Tacked(TackedSlip),
    Empty,
}

// What a call was answered. `NoSlip` and `NoJoint`: it named none that it could take.
#[derive(Clone, Copy)]
pub enum Answer {
    Received(Result<(), Refusal>),
    Drawn(Result<SlipNumbers, Refusal>),
    Tacked,
    HandedBack(Result<(), Refusal>),
    Pressed(Result<(), Refusal>),
    Voided(SlipNumbers),
    Told(Result<Bin, Refusal>),
    NoSlip,
    NoJoint,
}

// The yard and the rack after the calls that were done, with an answer for each.
pub struct Outcome<P> {
    pub yard: Yard<P>,
    pub rack: Vec<Hook>,
    pub answers: Vec<Answer>,
    // whether all calls were done
    pub complete: bool,
}

// Makes a yard over the pile and does the calls on it, one after the other. `rack` holds the
// slips brought along. Where memory runs out the replay ends with the calls done till then:
// there is an answer for each.
pub fn replay<P: Supply, J: Joint>(
    heap: Global,
    pile: P,
    stamp: u32,
    joints: &[J],
    rack: Vec<Hook>,
    calls: &[Call],
) -> Outcome<P>
    ensures { IsOutcome (map (means J.Joint.standing J.Joint.verdict) joints.now) (P.Supply.places pile) (P.Supply.shows pile) pile stamp rack.items calls.now result }
{
    rooms::play(&FromHeap, pile, stamp, joints, rack, Vec::new(heap), calls)
}

// Does one call, and gives its answer.
pub(crate) fn perform<P: Supply, J: Joint>(
    yard: &mut Yard<P>,
    joints: &[J],
    rack: &mut Vec<Hook>,
    call: Call,
) -> Answer
    requires { vec_len rack.old < vec_capacity rack.old }
    ensures answer { (made : List Event) × Does (map (means J.Joint.standing J.Joint.verdict) joints.now) (P.Supply.places yard.old.pile) (P.Supply.shows yard.old.pile) yard.old.stamp call (state yard.old rack.old.items) result made (state yard.new rack.new.items) }
    ensures same { SamePile yard.old yard.new }
    ensures room { vec_capacity rack.old ≤ vec_capacity rack.new }
{
    match call {
        Call::Receive { place, pairs } => Answer::Received(yard.receive(place, pairs)),
        Call::Draw { joint, number } => draw(yard, joints.get(joint), rack, number),
        Call::Tack { slip } => use_slip(yard, rack, slip, tack),
        Call::HandBack { slip } => use_slip(yard, rack, slip, hand_back),
        Call::Press { slip } => use_slip(yard, rack, slip, press),
        Call::Void { slip } => use_slip(yard, rack, slip, void),
        Call::Tell { place } => Answer::Told(yard.tell(place)),
    }
}

// Draws for a joint, if the call named one, and hangs the slip on a new hook.
fn draw<P: Supply, J: Joint>(
    yard: &mut Yard<P>,
    joint: Option<&J>,
    rack: &mut Vec<Hook>,
    number: u32,
) -> Answer
    requires { vec_len rack.old < vec_capacity rack.old }
    ensures answer { (made : List Event) × Draws (P.Supply.shows yard.old.pile) yard.old.stamp (option_map (means J.Joint.standing J.Joint.verdict) (option_copied joint.entry)) number (state yard.old rack.old.items) result made (state yard.new rack.new.items) }
    ensures same { SamePile yard.old yard.new }
    ensures room { vec_capacity rack.old ≤ vec_capacity rack.new }
{
    let Some(joint) = joint else {
        return Answer::NoJoint;
    };
    match yard.draw(joint, number) {
        Ok(slip) => {
            let numbers = slip.numbers();
            rack.push_reserved(Hook::Drawn(slip));
            Answer::Drawn(Ok(numbers))
        }
        Err(refusal) => Answer::Drawn(Err(refusal)),
    }
}

// Takes down what hangs on a hook, puts it to use, and hangs what is left there again.
fn use_slip<P: Supply, F: FnOnce(&mut Yard<P>, Hook) -> (Hook, Answer)>(
    yard: &mut Yard<P>,
    rack: &mut [Hook],
    hook: usize,
    step: F,
) -> Answer
    requires { F.IsAlwaysCallable step }
    ensures none { length rack.old ≤ hook → (result ≡ Answer.NoSlip) × (yard.new ≡ yard.old) × (rack.new ≡ rack.old) }
    ensures used { hook < length rack.old → (left : Hook) × StepReturns F.FnOnce step yard.old (hung rack.old hook) (left, result) yard.new × (rack.new ≡ slice_set rack.old hook left) }
{
    if hook >= rack.len() {
        return Answer::NoSlip;
    }
    let held = mem::replace(&mut rack[hook], Hook::Empty);
    let (left, answer) = step(yard, held);
    match mem::replace(&mut rack[hook], left) {
        Hook::Empty => answer,
        _ => unreachable(),
    }
}

// The uses of a slip: each is a step on the yard and what hangs on a hook, and gives what is left
// there, and the answer. Tacking and voiding need no yard.
fn tack<P: Supply>(yard: &mut Yard<P>, held: Hook) -> (Hook, Answer)
    ensures answer { Tacks held (told yard.old.bins) result.1 [] result.0 (told yard.new.bins) }
    ensures same { SamePile yard.old yard.new }
{
    match held {
        Hook::Drawn(slip) => (Hook::Tacked(slip.tack()), Answer::Tacked),
        other => (other, Answer::NoSlip),
    }
}

fn hand_back<P: Supply>(yard: &mut Yard<P>, held: Hook) -> (Hook, Answer)
    ensures answer { (made : List Event) × HandsBack yard.old.stamp held (told yard.old.bins) result.1 made result.0 (told yard.new.bins) }
    ensures same { SamePile yard.old yard.new }
{
    match held {
        Hook::Drawn(slip) => settled(yard.hand_back(slip), Hook::Drawn, Answer::HandedBack),
        other => (other, Answer::NoSlip),
    }
}

fn press<P: Supply>(yard: &mut Yard<P>, held: Hook) -> (Hook, Answer)
    ensures answer { (made : List Event) × Presses yard.old.stamp held (told yard.old.bins) result.1 made result.0 (told yard.new.bins) }
    ensures same { SamePile yard.old yard.new }
{
    match held {
        Hook::Tacked(slip) => settled(yard.press(slip), Hook::Tacked, Answer::Pressed),
        other => (other, Answer::NoSlip),
    }
}

fn void<P: Supply>(yard: &mut Yard<P>, held: Hook) -> (Hook, Answer)
    ensures answer { Voids held (told yard.old.bins) result.1 [] result.0 (told yard.new.bins) }
    ensures same { SamePile yard.old yard.new }
{
    (
        Hook::Empty,
        held.void().map_or(Answer::NoSlip, Answer::Voided),
    )
}

// What is left on the hook of a slip that the yard took or turned away, and the answer.
fn settled<S, H, A>(done: Result<(), TurnedAway<Slip<S>>>, hook: H, answer: A) -> (Hook, Answer)
where
    H: FnOnce(Slip<S>) -> Hook + Drop,
    A: FnOnce(Result<(), Refusal>) -> Answer,
    requires hooks { H.IsAlwaysCallable hook }
    requires answers { A.IsAlwaysCallable answer }
    ensures left { MatchResult done (λ _. result.0 ≡ Hook.Empty) (λ t. H.post hook t.slip result.0) }
    ensures answer { A.post answer (told_off done) result.1 }
{
    match done {
        Ok(()) => (Hook::Empty, answer(Ok(()))),
        Err(TurnedAway { refusal, slip }) => (hook(slip), answer(Err(refusal))),
    }
}
