// The sheets, and the lists that they are drawn over.
use rules::{Card, Conditions, FactorRule, Member};

// What a sheet of any kind says: its members are `count` of the caller's list from `first` on.
#[derive(Clone, Copy)]
pub struct Sheet {
    pub first: usize,
    pub count: usize,
    pub conditions: Conditions,
}

// A heel sheet has a slope, and may name the rule by which its moment factor is found.
#[derive(Clone, Copy)]
pub struct HeelSheet {
    pub sheet: Sheet,
    pub rise: u32,
    pub run: u32,
    pub rule: Option<FactorRule>,
}

// A splice sheet has a moment in N·mm and a wood value in tenths of MPa.
#[derive(Clone, Copy)]
pub struct SpliceSheet {
    pub sheet: Sheet,
    pub moment: u32,
    pub wood: u32,
}

// The caller's members and cards.
#[derive(Clone, Copy)]
pub struct Lists<'a> {
    pub members: &'a [Member],
    pub cards: &'a [Card],
}
