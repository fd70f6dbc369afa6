// A refusal in words.
use jobs::Format;
use plates::Refusal;
use std::fmt;

// The words speak of what a text of the format can have.
#[derive(Clone, Copy)]
pub struct Refused {
    pub refusal: Refusal,
    pub format: Format,
}

impl fmt::Display for Refused {
    fn fmt<W: fmt::Write>(&self, f: &mut fmt::Formatter<W>) -> fmt::Result {
        let refusal = self.refusal;
        write!(
            f,
            "refused {} {} {}: ",
            refusal.number(),
            refusal.thing(),
            refusal.position()
        )?;
        f.write_str(reason(refusal, self.format))
    }
}

fn reason(refusal: Refusal, format: Format) -> &'static str {
    match (refusal, format) {
        (Refusal::SheetNumber, _) => "a number of the sheet lies outside its range",
        (Refusal::MemberSpan, Format::Webs) =>
            "the members run past the list, or number none or over six",
        (Refusal::MemberSpan, Format::Whole) =>
            "the members run past the list, or number none, over six, or in a splice not two",
        (Refusal::MemberNumber { .. }, _) => "a number of the member lies outside its range",
        (Refusal::CardNumber { .. }, _) => "a number of the card lies outside its range",
        (Refusal::EmptyField { .. }, _) => "the field of the member is empty",
        (Refusal::NoPlace { .. }, _) => "there is no such place, or nothing is shown there",
        (Refusal::BadReceipt { .. }, _) => "a receipt of no pairs, or of more than the place takes",
        (Refusal::BookFull, _) => "the row book has too few free rows",
        (Refusal::NothingFits, Format::Webs) =>
            "nothing fits, no plate of the list passes in either turning",
        (Refusal::NothingFits, Format::Whole) =>
            "nothing fits, no plate shown passes in either turning",
        (Refusal::OtherStamp, _) => "the slip bears another yard's stamp",
        (Refusal::NoneOut, _) => "no pair is out at the slip's place",
    }
}
