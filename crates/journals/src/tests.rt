// Journals in their format, and journals that break it.
use super::read;
use std::test::Fail;
use yard::Call;

const JOURNAL: &str =
    "# the yard of May\nreceive 3 40\n\n  draw 1 501   # the first truss\ntack 1\r\npress 1\n\tback 2\nvoid 4294967295\ntell 0";

#[test]
fn calls_in_their_order(rt: HostRuntime) -> Result<(), Fail> {
    let entries = read(rt.alloc(), JOURNAL)?;
    assert!(rt; entries.len() == 7);
    let lines = [2, 4, 5, 6, 7, 8, 9];
    for (entry, line) in entries.iter().zip(lines.iter()) {
        assert_eq!(rt; entry.line, *line);
    }
    assert!(rt;
        matches!(
            entries[0].call,
            Call::Receive {
                place: 3,
                pairs: 40
            }
        )
    );
    assert!(rt;
        matches!(
            entries[1].call,
            Call::Draw {
                joint: 0,
                number: 501
            }
        )
    );
    assert!(rt; matches!(entries[2].call, Call::Tack { slip: 0 }));
    assert!(rt; matches!(entries[3].call, Call::Press { slip: 0 }));
    assert!(rt; matches!(entries[4].call, Call::HandBack { slip: 1 }));
    assert!(rt;
        matches!(
            entries[5].call,
            Call::Void {
                slip: 4_294_967_294
            }
        )
    );
    assert!(rt; matches!(entries[6].call, Call::Tell { place: 0 }));
    Ok(())
}

const FAULTS: [(&str, &str); 9] = [
    (
        "tell 0\nhand 1",
        "line 2: found `hand`, expected one of receive, draw, tack, back, press, void, tell",
    ),
    (
        "Tell 0",
        "line 1: found `Tell`, expected one of receive, draw, tack, back, press, void, tell",
    ),
    (
        "draw 0 501",
        "line 1: found `0`, expected a whole number of 1 to 4294967295",
    ),
    (
        "\n\npress 0",
        "line 3: found `0`, expected a whole number of 1 to 4294967295",
    ),
    (
        "tack +1",
        "line 1: found `+1`, expected a whole number of 1 to 4294967295",
    ),
    (
        "receive 3",
        "line 1: found end of line, expected a whole number of 0 to 4294967295",
    ),
    (
        "receive 3 4294967296",
        "line 1: found `4294967296`, expected a whole number of 0 to 4294967295",
    ),
    (
        "tell # 0",
        "line 1: found end of line, expected a whole number of 0 to 4294967295",
    ),
    (
        "tell 0 1",
        "line 1: found `1`, expected the end of the line",
    ),
];

#[test]
fn faults_with_their_lines(rt: HostRuntime) -> Result<(), Fail> {
    let heap = rt.alloc();
    for (text, told) in FAULTS.iter() {
        match read(heap, text) {
            Ok(_) => return Err(Fail::new(text)),
            Err(fault) => assert_eq!(rt; fault.to_string(heap)?.as_str(), *told),
        }
    }
    Ok(())
}
