// The one refusal of the whole engine: it passes up through every caller unaltered.
ghost use Rattle.std.specs.Prelude.{◌≡◌};
ghost use Rattle.plates.specs.Refusals.{refusal_number, refusal_thing, refusal_position};

use std::fmt;

// Why a call was turned away. The index of a member or a card is the one in the caller's list.
#[derive(Clone, Copy, PartialEq, Eq, Debug)]
pub enum Refusal {
    // 1: a number of the sheet's own lies outside its range
    SheetNumber,
    // 2: the sheet's members run past the list, or number none or too many
    MemberSpan,
    // 3: a number of a member lies outside its range
    MemberNumber { index: usize },
    // 3: a number of a family card lies outside its range
    CardNumber { index: usize },
    // 4: a member's field is empty
    EmptyField { index: usize },
    // 5: there is no such place, or the pile shows nothing there
    NoPlace { place: u32 },
    // 6: a receipt of no pairs, or of more than the bin takes
    BadReceipt { place: u32 },
    // 7: the row book has too few free rows
    BookFull,
    // 8: no plate shown passes the joint
    NothingFits,
    // 9: the slip bears another yard's stamp
    OtherStamp,
    // 10: no pair is out at the slip's place
    NoneOut,
}

// What is at fault.
#[derive(Clone, Copy, PartialEq, Eq, Debug)]
pub enum Thing {
    Sheet,
    Member,
    Family,
    Place,
    Book,
    Slip,
}

impl fmt::Display for Thing {
    fn fmt<W: fmt::Write>(&self, f: &mut fmt::Formatter<W>) -> fmt::Result {
        f.write_str(match self {
            Thing::Sheet => "sheet",
            Thing::Member => "member",
            Thing::Family => "family",
            Thing::Place => "place",
            Thing::Book => "book",
            Thing::Slip => "slip",
        })
    }
}

impl Refusal {
    pub fn number(self) -> u8
        ensures { result ≡ refusal_number self }
    {
        match self {
            Refusal::SheetNumber => 1,
            Refusal::MemberSpan => 2,
            Refusal::MemberNumber { .. } => 3,
            Refusal::CardNumber { .. } => 3,
            Refusal::EmptyField { .. } => 4,
            Refusal::NoPlace { .. } => 5,
            Refusal::BadReceipt { .. } => 6,
            Refusal::BookFull => 7,
            Refusal::NothingFits => 8,
            Refusal::OtherStamp => 9,
            Refusal::NoneOut => 10,
        }
    }

    pub fn thing(self) -> Thing
        ensures { result ≡ refusal_thing self }
    {
        match self {
            Refusal::SheetNumber => Thing::Sheet,
            Refusal::MemberSpan => Thing::Sheet,
            Refusal::MemberNumber { .. } => Thing::Member,
            Refusal::CardNumber { .. } => Thing::Family,
            Refusal::EmptyField { .. } => Thing::Member,
            Refusal::NoPlace { .. } => Thing::Place,
            Refusal::BadReceipt { .. } => Thing::Place,
            Refusal::BookFull => Thing::Book,
            Refusal::NothingFits => Thing::Sheet,
            Refusal::OtherStamp => Thing::Slip,
            Refusal::NoneOut => Thing::Slip,
        }
    }

    // Where it stands in the caller's list; 0 for the sheet, the book and the slip.
    pub fn position(self) -> usize
        ensures { result ≡ refusal_position self }
    {
        match self {
            Refusal::MemberNumber { index } => index,
            Refusal::CardNumber { index } => index,
            Refusal::EmptyField { index } => index,
            Refusal::NoPlace { place } => place as usize,
            Refusal::BadReceipt { place } => place as usize,
            _ => 0,
        }
    }
}
