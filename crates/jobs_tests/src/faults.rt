// A text that breaks the format, and its fault.
use jobs::{Format, read};
use std::test::Fail;

const CARD: &str = "card\n teeth 1 2 3 4\n slip 5 6 7 8\n tension 9 10\n shear 11 12 13 14 15 16\n";

const FAULTS: [(&str, &str); 26] = [
    (
        "# nothing\n\n  tooth 9",
        "line 3: found `tooth`, expected a block: card, member, web or list",
    ),
    (
        "Card",
        "line 1: found `Card`, expected a block: card, member, web or list",
    ),
    ("card 0", "line 1: found `0`, expected the end of the line"),
    (
        "card\n depth 89",
        "line 2: found `depth`, expected a key of a card: teeth, slip, tension, shear or tooth",
    ),
    (
        "card\n tooth",
        "line 2: found end of line, expected a whole number of 0 to 4294967295",
    ),
    (
        "card\n tooth # 9",
        "line 2: found end of line, expected a whole number of 0 to 4294967295",
    ),
    (
        "card\n tooth -9",
        "line 2: found `-9`, expected a whole number of 0 to 4294967295",
    ),
    (
        "card\n tooth +9",
        "line 2: found `+9`, expected a whole number of 0 to 4294967295",
    ),
    (
        "card\n tooth 4294967296",
        "line 2: found `4294967296`, expected a whole number of 0 to 4294967295",
    ),
    (
        "card\n tooth 9mm",
        "line 2: found `9mm`, expected a whole number of 0 to 4294967295",
    ),
    (
        "card\n tooth 9 9",
        "line 2: found `9`, expected the end of the line",
    ),
    (
        "card\n teeth 1 2 3",
        "line 2: found end of line, expected a whole number of 0 to 4294967295",
    ),
    (
        "card\n tooth 9\n\ttooth 9",
        "line 3: found `tooth`, expected the key tooth only once in its block",
    ),
    (
        "\ncard\n tooth 9",
        "line 2: found `card`, expected the key teeth before the block ends",
    ),
    (
        "member\n force pull",
        "line 2: found `pull`, expected one of tension, compression",
    ),
    (
        "member\n species oak",
        "line 2: found `oak`, expected one of spruce, douglas",
    ),
    (
        "member\n grain z",
        "line 2: found `z`, expected one of x, y",
    ),
    (
        "member\n marks plain edge end",
        "line 2: found end of line, expected one of plain, edge, end",
    ),
    (
        "member\n field 0 2147483648",
        "line 2: found `2147483648`, expected a whole number of -2147483648 to 2147483647",
    ),
    (
        "web\n duration long",
        "line 2: found `long`, expected one of permanent, standard, short",
    ),
    (
        "web\n service damp",
        "line 2: found `damp`, expected one of dry, unseasoned, wet",
    ),
    (
        "web\n turnings none",
        "line 2: found `none`, expected one of unturned, turned, either",
    ),
    (
        "web\n try 76 100 0 either",
        "line 2: found `either`, expected one of unturned, turned",
    ),
    (
        "web\n try 19 100 0 turned",
        "line 2: found `19 100 0`, expected a plate of width 20 to 300, length 20 to 1000 and family 0 to 15",
    ),
    (
        "list\n plate 1 2 3\n row 1 2 3",
        "line 3: found `row`, expected a key of a list: plate",
    ),
    (
        "list\nlist",
        "line 2: found `list`, expected one list at most",
    ),
];

#[test]
fn told(rt: HostRuntime) -> Result<(), Fail> {
    let heap = rt.alloc();
    for (text, told) in FAULTS.iter() {
        match read(heap, Format::Webs, text) {
            Ok(_) => return Err(Fail::new(text)),
            Err(fault) => assert_eq!(rt; fault.to_string(heap)?.as_str(), *told),
        }
    }
    Ok(())
}

// The block ends at the next opener; the line named is that of its own opener.
#[test]
fn lacking(rt: HostRuntime) -> Result<(), Fail> {
    let heap = rt.alloc();
    let text = format!(in heap; "# a card\n{CARD}web\n members 0 1\n")?;
    match read(heap, Format::Webs, text.as_str()) {
        Ok(_) => Err(Fail::new("no fault")),
        Err(fault) => {
            assert_eq!(rt;
                fault.to_string(heap)?.as_str(),
                "line 2: found `card`, expected the key tooth before the block ends"
            );
            Ok(())
        }
    }
}
