// The four changes that a bin is lent for.
ghost use Rattle.std.specs.Prelude.{◌≡◌, ◌+◌, ◌<◌, ◌≤◌};
ghost use Rattle.yard.specs.Counts.{counted, moved_back, moved_out, pressed_off, with_more};

use super::Bin;

impl Bin {
    pub(crate) fn receive(&mut self, pairs: u32)
        requires { (counted self.old).on_hand + (counted self.old).out + pairs ≤ 60000 }
        ensures { counted self.new ≡ with_more pairs (counted self.old) }
    {
        self.on_hand += pairs;
    }

    // One pair goes out.
    pub(crate) fn draw(&mut self)
        requires { 0 < (counted self.old).on_hand }
        ensures { counted self.new ≡ moved_out (counted self.old) }
    {
        *self = Bin {
            on_hand: self.on_hand - 1,
            out: self.out + 1,
        };
    }

    // One pair that was out comes back.
    pub(crate) fn hand_back(&mut self)
        requires { 0 < (counted self.old).out }
        ensures { counted self.new ≡ moved_back (counted self.old) }
    {
        *self = Bin {
            on_hand: self.on_hand + 1,
            out: self.out - 1,
        };
    }

    // One pair that was out is pressed into a joint.
    pub(crate) fn press(&mut self)
        requires { 0 < (counted self.old).out }
        ensures { counted self.new ≡ pressed_off (counted self.old) }
    {
        self.out -= 1;
    }
}
