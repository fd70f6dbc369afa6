// Receipts and tellings at the limits of a yard, each followed by what it tells then.
use super::stock::{Pile, number, told};
use std::process::Abort;
use yard::Yard;

// Pairs received at a place, the number of the refusal or 0, and what is told there then.
type Receipt = (u32, u32, u8, Option<(u32, u32)>);

fn receive_all(rt: &impl Abort, places: u32, receipts: &[Receipt]) {
    let mut yard = Yard::new(Pile(places), 1);
    for (place, pairs, refusal, then) in receipts {
        assert_eq!(rt; number(yard.receive(*place, *pairs)), *refusal);
        assert_eq!(rt; told(&yard, *place), *then);
    }
}

#[test]
fn a_place_takes_sixty_thousand(rt: HostRuntime) {
    let receipts = [
        (0, 0, 6, Some((0, 0))),
        (0, 60_000, 0, Some((60_000, 0))),
        (0, 1, 6, Some((60_000, 0))),
        (0, 0, 6, Some((60_000, 0))),
        (1, 60_001, 6, Some((0, 0))),
        (1, u32::MAX, 6, Some((0, 0))),
        (1, 59_999, 0, Some((59_999, 0))),
        (1, 2, 6, Some((59_999, 0))),
        (1, 1, 0, Some((60_000, 0))),
        (1, 1, 6, Some((60_000, 0))),
        (2, 1, 0, Some((1, 0))),
    ];
    receive_all(&rt, 3, &receipts);
}

#[test]
fn a_long_pile_has_256_places(rt: HostRuntime) {
    let receipts = [
        (255, 7, 0, Some((7, 0))),
        (256, 7, 5, None),
        (299, 7, 5, None),
        (300, 7, 5, None),
        (u32::MAX, 7, 5, None),
        (255, 1, 0, Some((8, 0))),
    ];
    receive_all(&rt, 300, &receipts);
}

#[test]
fn a_short_pile_has_its_own(rt: HostRuntime) {
    let receipts = [
        (99, 7, 0, Some((7, 0))),
        (100, 7, 5, None),
        (255, 7, 5, None),
        (256, 7, 5, None),
        (99, 0, 6, Some((7, 0))),
    ];
    receive_all(&rt, 100, &receipts);
    receive_all(&rt, 0, &[(0, 7, 5, None), (0, 0, 5, None)]);
}
