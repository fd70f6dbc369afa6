// A bin of the yard: on hand and out together it never has more than 60,000 pairs.
ghost use Rattle.std.specs.Prelude.{◌≡◌, ◌+◌, ◌≤◌};

mod changes;

pub const MOST_PAIRS: u32 = 60_000;

// The pairs of one place: on hand, and out on slips.
#[derive(Clone, Copy, PartialEq, Eq, Debug)]
pub struct Bin {
    on_hand: u32,
    out: u32,
    ghost within: { on_hand + out ≤ 60000 },
}

impl Bin {
    ghost use Rattle.yard.specs.Counts.{counted, room_for};

    pub(crate) const EMPTY: Bin = Bin { on_hand: 0, out: 0 };

    pub fn on_hand(&self) -> u32
        ensures { result ≡ (counted self.now).on_hand }
    {
        self.on_hand
    }

    pub fn out(&self) -> u32
        ensures { result ≡ (counted self.now).out }
    {
        self.out
    }

    // Whether so many pairs more may be received: some, and no more than the bin takes.
    pub(crate) fn takes(&self, pairs: u32) -> bool
        ensures { result ≡ room_for pairs (counted self.now) }
    {
        (1..=MOST_PAIRS - (self.on_hand + self.out)).contains(&pairs)
    }
}
