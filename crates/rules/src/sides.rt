// The sides on which a plate and a field lie over each other, in signed distances from the mark.
ghost use Rattle.std.specs.Prelude.{◌≡◌, ◌≤◌, max, pos, negsuc, ◌-ℤ◌, ◌*ℤ◌, neg_ℤ, ◌≤ℤ◌};
ghost use Rattle.std.specs.Int.{int_min, int_max};
ghost use Rattle.plates.specs.Size.{size};
ghost use Rattle.rules.specs.Ranges.{SpanWithin};
ghost use Rattle.rules.specs.Sides.{extent, halved, contact, setback, along, full_side, net_side};

use super::terms::{Axis, Field, Mark, Span};
use plates::{Plate, Turning};

// How far the plate reaches along the axis, from one of its ends to the other.
pub fn extent(plate: &Plate, turning: Turning, axis: Axis) -> u32
    ensures value { result ≡ extent (size plate.now) turning axis }
    ensures bound { result ≤ 1000 }
{
    match (turning, axis) {
        (Turning::Unturned, Axis::X) => plate.length(),
        (Turning::Unturned, Axis::Y) => plate.width(),
        (Turning::Turned, Axis::X) => plate.width(),
        (Turning::Turned, Axis::Y) => plate.length(),
    }
}

// The contact side of a field from `low` to `high` and a plate centred on the mark. Both are
// doubled, so that half the plate's extent is a whole number.
fn contact(low: i32, high: i32, extent: u32) -> u32
    requires low_low { negsuc 1999 ≤ℤ low }
    requires low_high { low ≤ℤ pos 2000 }
    requires high_low { negsuc 1999 ≤ℤ high }
    requires high_high { high ≤ℤ pos 2000 }
    requires extent { extent ≤ 1000 }
    ensures value { result ≡ contact low high extent }
    ensures bound { result ≤ 1000 }
{
    let reach = extent as i32;
    let top = (2 * high).min(reach);
    let bottom = (2 * low).max(-reach);
    (top - bottom).max(0) as u32 / 2
}

// How far a net field is drawn in at a side of that mark; fractions of a tooth are rounded up.
fn setback(mark: Mark, tooth: u32) -> u32
    requires { tooth ≤ 40 }
    ensures value { result ≡ setback mark tooth }
    ensures bound { result ≤ 20 }
{
    match mark {
        Mark::Plain => 0,
        Mark::Edge => tooth.div_ceil(4).max(6),
        Mark::End => tooth.div_ceil(2).max(12),
    }
}

pub fn along(field: &Field, axis: Axis) -> Span
    requires x { SpanWithin field.now.x }
    requires y { SpanWithin field.now.y }
    ensures value { result ≡ along field.now axis }
    ensures bounds { SpanWithin result }
{
    match axis {
        Axis::X => field.x,
        Axis::Y => field.y,
    }
}

// The side over the field as drawn.
pub fn full_side(span: &Span, extent: u32) -> u32
    requires span { SpanWithin span.now }
    requires extent { extent ≤ 1000 }
    ensures value { result ≡ full_side span.now extent }
    ensures bound { result ≤ 1000 }
{
    contact(span.low, span.high, extent)
}

// The side over the field drawn in at its marks.
pub fn net_side(span: &Span, tooth: u32, extent: u32) -> u32
    requires span { SpanWithin span.now }
    requires tooth { tooth ≤ 40 }
    requires extent { extent ≤ 1000 }
    ensures value { result ≡ net_side span.now tooth extent }
    ensures bound { result ≤ 1000 }
{
    let low = span.low + setback(span.low_mark, tooth) as i32;
    let high = span.high - setback(span.high_mark, tooth) as i32;
    contact(low, high, extent)
}
