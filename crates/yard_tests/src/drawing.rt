// Drawings, and slips that end in every way.
use super::stock::{ANY, Asks, LONG, LONGER, Pile, UNLAWFUL, number, told};
use plates::{Refusal, Turning};
use std::process::Abort;
use std::test::Fail;
use yard::{SlipNumbers, Yard};

// Draws for a joint, and voids the slip: its pair stays out.
fn drawn(yard: &mut Yard<Pile>, joint: &Asks, number: u32) -> Result<SlipNumbers, Refusal> {
    let slip = yard.draw(joint, number)?;
    Ok(slip.void())
}

// A yard of four places with some pairs at the last three.
fn stocked(rt: &impl Abort) -> Yard<Pile> {
    let mut yard = Yard::new(Pile(4), 31);
    assert_eq!(rt; yard.receive(1, 1), Ok(()));
    assert_eq!(rt; yard.receive(2, 2), Ok(()));
    assert_eq!(rt; yard.receive(3, 1), Ok(()));
    yard
}

#[test]
fn the_least_pair_on_hand_is_drawn(rt: HostRuntime) {
    let mut yard = stocked(&rt);
    let least = SlipNumbers {
        stamp: 31,
        place: 3,
        turning: Turning::Unturned,
        joint: 80,
    };
    assert_eq!(rt; drawn(&mut yard, &ANY, 80), Ok(least));
    assert_eq!(rt; told(&yard, 3), Some((0, 1)));
    let next = SlipNumbers {
        stamp: 31,
        place: 2,
        turning: Turning::Turned,
        joint: u32::MAX,
    };
    assert_eq!(rt; drawn(&mut yard, &LONG, u32::MAX), Ok(next));
    assert_eq!(rt; told(&yard, 2), Some((1, 1)));
    assert_eq!(rt; told(&yard, 1), Some((1, 0)));
}

#[test]
fn a_pair_out_is_not_drawn(rt: HostRuntime) -> Result<(), Fail> {
    let mut yard = stocked(&rt);
    for place in [3, 2, 2, 1] {
        let Ok(slip) = drawn(&mut yard, &ANY, 5) else {
            return Err(Fail::new("nothing fits"));
        };
        assert_eq!(rt; slip.place, place);
    }
    assert_eq!(rt; drawn(&mut yard, &ANY, 5), Err(Refusal::NothingFits));
    assert_eq!(rt; told(&yard, 2), Some((0, 2)));
    Ok(())
}

#[test]
fn refused_drawings_move_nothing(rt: HostRuntime) {
    let mut yard = stocked(&rt);
    for (joint, refusal) in [(LONGER, 8), (UNLAWFUL, 1)] {
        assert_eq!(rt; number(drawn(&mut yard, &joint, 1)), refusal);
        assert_eq!(rt; told(&yard, 0), Some((0, 0)));
        assert_eq!(rt; told(&yard, 1), Some((1, 0)));
        assert_eq!(rt; told(&yard, 2), Some((2, 0)));
        assert_eq!(rt; told(&yard, 3), Some((1, 0)));
    }
}

#[test]
fn a_pair_out_counts_against_a_receipt(rt: HostRuntime) {
    let mut yard = Yard::new(Pile(1), 31);
    assert_eq!(rt; yard.receive(0, 60_000), Ok(()));
    assert_eq!(rt; number(drawn(&mut yard, &ANY, 1)), 0);
    assert_eq!(rt; told(&yard, 0), Some((59_999, 1)));
    assert_eq!(rt; number(yard.receive(0, 1)), 6);
    assert_eq!(rt; told(&yard, 0), Some((59_999, 1)));
}
