// Making a plate, and reading it.
ghost use Rattle.std.specs.Prelude.{◌≡◌, ◌*◌};
ghost use Rattle.std.specs.Option.{option_map};
ghost use Rattle.plates.specs.Size.{size, sized, area};

use super::{MAX_FAMILY, MAX_LENGTH, MAX_WIDTH, MIN_SIDE, Plate};
use std::fmt;

impl Plate {
    // The plate of these numbers, or nothing where no such plate exists.
    pub fn new(width: u32, length: u32, family: u32) -> Option<Plate>
        ensures { option_map size result ≡ sized width length family }
    {
        if width < MIN_SIDE || width > MAX_WIDTH {
            return None;
        }
        if length < MIN_SIDE || length > MAX_LENGTH {
            return None;
        }
        if family > MAX_FAMILY {
            return None;
        }
        Some(Plate {
            width,
            length,
            family,
        })
    }

    pub fn width(&self) -> u32
        ensures { result ≡ (size self.now).width }
    {
        self.width
    }

    pub fn length(&self) -> u32
        ensures { result ≡ (size self.now).length }
    {
        self.length
    }

    pub fn family(&self) -> u32
        ensures { result ≡ (size self.now).family }
    {
        self.family
    }

    // The area of one face in mm².
    pub fn area(&self) -> u32
        ensures { result ≡ area (size self.now) }
    {
        self.width * self.length
    }
}

impl fmt::Display for Plate {
    fn fmt<W: fmt::Write>(&self, f: &mut fmt::Formatter<W>) -> fmt::Result {
        write!(f, "{} x {} family {}", self.width, self.length, self.family)
    }
}
