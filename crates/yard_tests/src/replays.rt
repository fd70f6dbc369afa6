// Whole lists of calls, with what each is answered.
use super::stock::{ANY, Asks, LONG, LONGER, Pile, UNLAWFUL, told};
use std::alloc::{AllocError, Global};
use std::fmt;
use std::process::Abort;
use std::test::Fail;
use yard::{Answer, Call, Hook, OpenSlip, Outcome, Yard, open_slips, replay_with_room, void_all};

const JOINTS: [Asks; 4] = [ANY, LONG, LONGER, UNLAWFUL];

// An answer in a few words.
#[derive(Clone, Copy)]
struct Said(Answer);

impl fmt::Display for Said {
    fn fmt<W: fmt::Write>(&self, f: &mut fmt::Formatter<W>) -> fmt::Result {
        match self.0 {
            Answer::Received(Ok(())) => f.write_str("received"),
            Answer::Drawn(Ok(slip)) => write!(f, "place {} for {}", slip.place, slip.joint),
            Answer::Tacked => f.write_str("tacked"),
            Answer::HandedBack(Ok(())) => f.write_str("back"),
            Answer::Pressed(Ok(())) => f.write_str("pressed"),
            Answer::Voided(slip) => write!(f, "voided for {}", slip.joint),
            Answer::Told(Ok(bin)) => write!(f, "{} and {}", bin.on_hand(), bin.out()),
            Answer::NoSlip => f.write_str("no slip"),
            Answer::NoJoint => f.write_str("no joint"),
            Answer::Received(Err(refusal))
            | Answer::Drawn(Err(refusal))
            | Answer::HandedBack(Err(refusal))
            | Answer::Pressed(Err(refusal))
            | Answer::Told(Err(refusal)) => write!(f, "refused {}", refusal.number()),
        }
    }
}

// What a replay came to: every slip has ended.
#[derive(Drop)]
struct Report {
    yard: Yard<Pile>,
    answers: Vec<Answer>,
    open: Vec<OpenSlip>,
    ended: usize,
    complete: bool,
}

// Replays on a yard of four places, with these slips on the rack and room for so many calls.
fn played(heap: Global, rack: Vec<Hook>, room: usize, calls: &[Call]) -> Result<Report, Fail> {
    let mut rack = rack;
    let Ok(answers) = Vec::with_capacity(heap, room) else {
        let _ = void_all(rack);
        return Err(Fail::new("no memory"));
    };
    if rack.reserve(room).is_err() {
        let _ = void_all(rack);
        return Err(Fail::new("no memory"));
    }
    let Outcome {
        yard,
        rack,
        answers,
        complete,
    } = replay_with_room(Pile(4), 31, &JOINTS, rack, answers, calls);
    let open = open_slips(heap, rack.as_slice());
    let ended = void_all(rack);
    Ok(Report {
        yard,
        answers,
        open: open?,
        ended,
        complete,
    })
}

// Replays the calls of a table, and holds each answer to what stands beside its call.
fn played_as(
    rt: &impl Abort,
    heap: Global,
    rack: Vec<Hook>,
    table: &[(Call, &str)],
) -> Result<Report, Fail> {
    let Ok(calls) = calls_of(heap, table) else {
        let _ = void_all(rack);
        return Err(Fail::new("no memory"));
    };
    let report = played(heap, rack, calls.len(), calls.as_slice())?;
    assert_eq!(rt; report.complete, true);
    assert_eq!(rt; report.answers.len(), table.len());
    for (answer, (_, words)) in report.answers.iter().zip(table.iter()) {
        assert_eq!(rt; format!(in heap; "{}", Said(*answer))?.as_str(), *words);
    }
    Ok(report)
}

fn calls_of(heap: Global, table: &[(Call, &str)]) -> Result<Vec<Call>, AllocError> {
    table.iter().map(|(call, _)| *call).collect(heap)
}

const MIXED: [(Call, &str); 25] = [
    (Call::Tell { place: 0 }, "0 and 0"),
    (
        Call::Draw {
            joint: 0,
            number: 7,
        },
        "refused 8",
    ),
    (Call::Receive { place: 1, pairs: 2 }, "received"),
    (Call::Receive { place: 4, pairs: 2 }, "refused 5"),
    (Call::Receive { place: 2, pairs: 0 }, "refused 6"),
    (Call::Receive { place: 2, pairs: 1 }, "received"),
    (
        Call::Draw {
            joint: 0,
            number: 70,
        },
        "place 2 for 70",
    ),
    (
        Call::Draw {
            joint: 1,
            number: 71,
        },
        "place 1 for 71",
    ),
    (
        Call::Draw {
            joint: 2,
            number: 72,
        },
        "refused 8",
    ),
    (
        Call::Draw {
            joint: 3,
            number: 73,
        },
        "refused 1",
    ),
    (
        Call::Draw {
            joint: 4,
            number: 74,
        },
        "no joint",
    ),
    (Call::Tell { place: 1 }, "1 and 1"),
    (Call::Press { slip: 0 }, "no slip"),
    (Call::Tack { slip: 0 }, "tacked"),
    (Call::Tack { slip: 0 }, "no slip"),
    (Call::HandBack { slip: 0 }, "no slip"),
    (Call::Press { slip: 0 }, "pressed"),
    (Call::Press { slip: 0 }, "no slip"),
    (Call::HandBack { slip: 1 }, "back"),
    (Call::HandBack { slip: 2 }, "no slip"),
    (
        Call::Draw {
            joint: 1,
            number: 75,
        },
        "place 1 for 75",
    ),
    (
        Call::Draw {
            joint: 0,
            number: 76,
        },
        "place 1 for 76",
    ),
    (Call::Tack { slip: 3 }, "tacked"),
    (Call::Void { slip: 0 }, "no slip"),
    (Call::Tell { place: 1 }, "0 and 2"),
];

#[test]
fn each_call_is_answered(rt: HostRuntime) -> Result<(), Fail> {
    let heap = rt.alloc();
    let report = played_as(&rt, heap, Vec::new(heap), &MIXED)?;
    assert_eq!(rt; told(&report.yard, 1), Some((0, 2)));
    assert_eq!(rt; told(&report.yard, 2), Some((0, 0)));
    assert!(rt; report.open.len() == 2);
    let drawn = report.open[0];
    assert_eq!(rt;
        (drawn.hook, drawn.tacked, drawn.numbers.joint),
        (2, false, 75)
    );
    let tacked = report.open[1];
    assert_eq!(rt;
        (tacked.hook, tacked.tacked, tacked.numbers.joint),
        (3, true, 76)
    );
    assert_eq!(rt; report.ended, 2);
    Ok(())
}

const VOIDS: [(Call, &str); 7] = [
    (Call::Receive { place: 0, pairs: 1 }, "received"),
    (
        Call::Draw {
            joint: 0,
            number: 7,
        },
        "place 0 for 7",
    ),
    (Call::Void { slip: 0 }, "voided for 7"),
    (Call::Void { slip: 0 }, "no slip"),
    (Call::Tell { place: 0 }, "0 and 1"),
    (
        Call::Receive {
            place: 0,
            pairs: 60_000,
        },
        "refused 6",
    ),
    (Call::Tell { place: 0 }, "0 and 1"),
];

#[test]
fn a_voided_pair_stays_out(rt: HostRuntime) -> Result<(), Fail> {
    let heap = rt.alloc();
    let report = played_as(&rt, heap, Vec::new(heap), &VOIDS)?;
    assert_eq!(rt; report.open.len(), 0);
    assert_eq!(rt; report.ended, 0);
    Ok(())
}

// A rack with one slip, of place 0 of a yard with this stamp.
fn brought(heap: Global, stamp: u32) -> Vec<Hook> {
    let mut rack = Vec::new(heap);
    let mut yard = Yard::new(Pile(1), stamp);
    let _ = yard.receive(0, 1);
    if let Ok(slip) = yard.draw(&ANY, 99) {
        if let Err(refused) = rack.push(Hook::Drawn(slip)) {
            let _ = refused.value.void();
        }
    }
    rack
}

const FOREIGN: [(Call, &str); 8] = [
    (Call::Receive { place: 0, pairs: 1 }, "received"),
    (
        Call::Draw {
            joint: 0,
            number: 7,
        },
        "place 0 for 7",
    ),
    (Call::HandBack { slip: 0 }, "refused 9"),
    (Call::Tell { place: 0 }, "0 and 1"),
    (Call::Tack { slip: 0 }, "tacked"),
    (Call::Press { slip: 0 }, "refused 9"),
    (Call::Tell { place: 0 }, "0 and 1"),
    (Call::HandBack { slip: 1 }, "back"),
];

const ALIKE: [(Call, &str); 7] = [
    (Call::Receive { place: 0, pairs: 1 }, "received"),
    (Call::HandBack { slip: 0 }, "refused 10"),
    (Call::Tell { place: 0 }, "1 and 0"),
    (
        Call::Draw {
            joint: 0,
            number: 7,
        },
        "place 0 for 7",
    ),
    (Call::HandBack { slip: 0 }, "back"),
    (Call::HandBack { slip: 1 }, "refused 10"),
    (Call::Tell { place: 0 }, "1 and 0"),
];

#[test]
fn slips_brought_from_elsewhere(rt: HostRuntime) -> Result<(), Fail> {
    let heap = rt.alloc();
    let report = played_as(&rt, heap, brought(heap, 30), &FOREIGN)?;
    assert!(rt; report.open.len() == 1);
    assert_eq!(rt; (report.open[0].hook, report.open[0].tacked), (0, true));
    let report = played_as(&rt, heap, brought(heap, 31), &ALIKE)?;
    assert!(rt; report.open.len() == 1);
    assert_eq!(rt; (report.open[0].hook, report.open[0].tacked), (1, false));
    Ok(())
}

#[test]
fn with_no_room_nothing_is_done(rt: HostRuntime) -> Result<(), Fail> {
    let heap = rt.alloc();
    let calls = [Call::Receive { place: 0, pairs: 1 }];
    let report = played(heap, Vec::new(heap), 0, &calls)?;
    assert_eq!(rt; report.complete, false);
    assert_eq!(rt; report.answers.len(), 0);
    assert_eq!(rt; told(&report.yard, 0), Some((0, 0)));
    Ok(())
}
