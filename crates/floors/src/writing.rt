// The answers and the lists, a line each.
ghost use Rattle.std.specs.Prelude.{◌≡◌, ◌+◌, ◌^◌, ◌<◌, ℕ, Some, None};
ghost use Rattle.plays.specs.Fates.{slip_of};
ghost use Rattle.plays.specs.Lists.{drawn_by};
ghost use Rattle.yard.specs.declared.slips.SlipNumbers.{SlipNumbers};

use answers::Refused;
use jobs::Format;
use journals::Verb;
use plates::{Plate, Refusal, Supply};
use plays::fates::{Fate, fate_of, slip_of};
use plays::{Done, PressLine};
use std::{fmt, io};
use yard::yards::BINS;
use yard::{Answer, Bin, Call, OpenSlip, SlipNumbers, Yard};

// Each call's answer, in the order of the journal; slips are counted from 1.
pub(crate) fn write_answers<P: Supply>(rt: &HostRuntime, pile: &P, all: &[Done]) -> io::Result<()> {
    let mut slips: usize = 0;
    for done in all.iter() {
        slips = slips_after(slips, done);
        print!(rt; "line {} {}: ", done.line, Verb::of(done.call))?;
        write_answer(rt, pile, done, slips)?;
    }
    Ok(())
}

// One more where the call drew a slip.
fn slips_after(slips: usize, done: &Done) -> usize
    ensures none { drawn_by done.now ≡ None → result ≡ slips }
    ensures one { (s : SlipNumbers) → drawn_by done.now ≡ Some s → slips + 1 < 2 ^ 64 → result ≡ slips + 1 }
{
    match fate_of(done.answer) {
        Fate::Drawn(_) => slips.saturating_add(1),
        _ => slips,
    }
}

fn write_answer<P: Supply>(
    rt: &HostRuntime,
    pile: &P,
    done: &Done,
    slips: usize,
) -> io::Result<()> {
    match done.answer {
        Answer::Received(done_so) => write_over(rt, done.call, done_so),
        Answer::Drawn(drawn) => write_drawn(rt, pile, slips, drawn),
        Answer::Tacked => write_over(rt, done.call, Ok(())),
        Answer::HandedBack(done_so) => write_over(rt, done.call, done_so),
        Answer::Pressed(done_so) => write_over(rt, done.call, done_so),
        Answer::Voided(numbers) => write_voided(rt, done.call, numbers),
        Answer::Told(told) => write_told(rt, told),
        Answer::NoSlip => {
            println!(rt; "no slip: there is none of this number that could be used so")
        }
        Answer::NoJoint => println!(rt; "no sheet: the job has none of this number"),
    }
}

// The floor speaks of whole jobs.
fn refused(refusal: Refusal) -> Refused {
    Refused {
        refusal,
        format: Format::Whole,
    }
}

// What was asked is done, or is refused.
fn write_over(rt: &HostRuntime, call: Call, over: Result<(), Refusal>) -> io::Result<()> {
    if let Err(refusal) = over {
        return println!(rt; "{}", refused(refusal));
    }
    match call {
        Call::Receive { place, pairs } => println!(rt; "place {place} pairs {pairs}"),
        _ => println!(rt; "slip {}", number_of(call)),
    }
}

fn write_drawn<P: Supply>(
    rt: &HostRuntime,
    pile: &P,
    slip: usize,
    drawn: Result<SlipNumbers, Refusal>,
) -> io::Result<()> {
    match drawn {
        Ok(numbers) => println!(rt; "slip {slip} {}", Pair::of(pile, numbers)),
        Err(refusal) => println!(rt; "{}", refused(refusal)),
    }
}

fn write_voided(rt: &HostRuntime, call: Call, numbers: SlipNumbers) -> io::Result<()> {
    println!(rt;
        "slip {} joint {} place {}",
        number_of(call),
        numbers.joint,
        numbers.place
    )
}

fn write_told(rt: &HostRuntime, told: Result<Bin, Refusal>) -> io::Result<()> {
    match told {
        Ok(bin) => println!(rt; "on hand {} out {}", bin.on_hand(), bin.out()),
        Err(refusal) => println!(rt; "{}", refused(refusal)),
    }
}

// The places that have pairs on hand or out.
pub(crate) fn write_bins<P: Supply>(rt: &HostRuntime, pile: &P, yard: &Yard<P>) -> io::Result<()> {
    println!(rt; "bins")?;
    for place in 0..BINS {
        if let Ok(bin) = yard.tell(place) {
            write_bin(rt, place, pile.plate(place), bin)?;
        }
    }
    Ok(())
}

fn write_bin(rt: &HostRuntime, place: u32, plate: Option<Plate>, bin: Bin) -> io::Result<()> {
    let (on_hand, out) = (bin.on_hand(), bin.out());
    if on_hand == 0 && out == 0 {
        return Ok(());
    }
    println!(rt;
        "place {place} {} on hand {on_hand} out {out}",
        Shown(plate)
    )
}

pub(crate) fn write_presses<P: Supply>(
    rt: &HostRuntime,
    pile: &P,
    list: &[PressLine],
) -> io::Result<()> {
    println!(rt; "press list")?;
    for pressing in list.iter() {
        let slip = pressing.slip.saturating_add(1);
        let pair = Pair::of(pile, pressing.numbers);
        let how = if pressing.pressed {
            "pressed"
        } else {
            "tacked"
        };
        println!(rt; "slip {slip} {pair} {how}")?;
    }
    Ok(())
}

pub(crate) fn write_open<P: Supply>(
    rt: &HostRuntime,
    pile: &P,
    open: &[OpenSlip],
) -> io::Result<()> {
    println!(rt; "open slips")?;
    for slip in open.iter() {
        let number = slip.hook.saturating_add(1);
        let pair = Pair::of(pile, slip.numbers);
        let how = if slip.tacked { "tacked" } else { "drawn" };
        println!(rt; "slip {number} {pair} {how} stamp {}", slip.numbers.stamp)?;
    }
    Ok(())
}

// The pair of a slip, and the plate that the pile shows at its place.
#[derive(Clone, Copy)]
struct Pair {
    numbers: SlipNumbers,
    plate: Shown,
}

// A plate, where there is one.
#[derive(Clone, Copy)]
struct Shown(Option<Plate>);

impl Pair {
    fn of<P: Supply>(pile: &P, numbers: SlipNumbers) -> Pair {
        Pair {
            numbers,
            plate: Shown(pile.plate(numbers.place)),
        }
    }
}

impl fmt::Display for Pair {
    fn fmt<W: fmt::Write>(&self, f: &mut fmt::Formatter<W>) -> fmt::Result {
        let SlipNumbers {
            joint,
            place,
            turning,
            ..
        } = self.numbers;
        write!(f, "joint {joint} place {place} {turning} {}", self.plate)
    }
}

impl fmt::Display for Shown {
    fn fmt<W: fmt::Write>(&self, f: &mut fmt::Formatter<W>) -> fmt::Result {
        match self.0 {
            Some(plate) => write!(f, "{plate}"),
            None => f.write_str("no plate"),
        }
    }
}

// The number of the slip that a call names, from 1; 0 where it names none.
fn number_of(call: Call) -> usize
    ensures none { slip_of call ≡ None → result ≡ 0 }
    ensures named { (i : ℕ) → slip_of call ≡ Some i → i + 1 < 2 ^ 64 → result ≡ i + 1 }
{
    match slip_of(call) {
        Some(slip) => slip.saturating_add(1),
        None => 0,
    }
}
