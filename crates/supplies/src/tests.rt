// The supplies on examples: the place count, and width and length at some places.
use super::strike::Strikes;
use super::{
    CoilCutter, Covered, Few, Hide, Layer, Layered, MakersList, PressLimit, Row, StrikeList,
    Through,
};
use plates::{Plate, Supply};
use std::cell::Cell;
use std::process::Abort;

// A place, with the width and the length that it shows.
type Shown = (u32, Option<(u32, u32)>);

// Nine widths.
const NINE: [u32; 9] = [20, 30, 40, 50, 60, 70, 80, 90, 100];

const MOST: u32 = u32::MAX;

const ROWS: [Row; 3] = [
    Row {
        width: 100,
        length: 200,
        family: 1,
    },
    Row {
        width: 120,
        length: 150,
        family: 1,
    },
    Row {
        width: 19,
        length: 150,
        family: 1,
    },
];

fn sides<S: Supply>(supply: &S, place: u32) -> Option<(u32, u32)> {
    let plate = supply.plate(place)?;
    Some((plate.width(), plate.length()))
}

fn expect<S: Supply>(rt: &impl Abort, supply: &S, places: u32, table: &[Shown]) {
    assert_eq!(rt; supply.places(), places);
    for (place, shown) in table {
        assert_eq!(rt; sides(supply, *place), *shown);
    }
}

#[test]
fn coils_cut_width_by_width(rt: HostRuntime) {
    expect(&rt, &CoilCutter::new(1, &NINE, 200, 10, 0), 0, &[(0, None)]);
    expect(&rt, &CoilCutter::new(1, &[], 200, 10, 3), 0, &[(0, None)]);
    let one = [(0, Some((20, 200))), (2, Some((20, 220))), (3, None)];
    expect(&rt, &CoilCutter::new(1, &[20], 200, 10, 3), 3, &one);
    let eight = [(2, Some((30, 200))), (15, Some((90, 210))), (16, None)];
    expect(&rt, &CoilCutter::new(1, &NINE, 200, 10, 2), 16, &eight);
    let steps = [(63, Some((20, 163))), (64, Some((30, 100))), (128, None)];
    expect(&rt, &CoilCutter::new(1, &[20, 30], 100, 1, 65), 128, &steps);
}

#[test]
fn lengths_do_not_wrap(rt: HostRuntime) {
    let first = [(0, Some((50, 100))), (1, None), (2, None)];
    expect(&rt, &CoilCutter::new(1, &[50], 100, MOST, 3), 3, &first);
    let none = [(0, None), (1, None)];
    expect(&rt, &CoilCutter::new(1, &[50], MOST, 101, 2), 2, &none);
    expect(
        &rt,
        &CoilCutter::new(1, &[MOST], 100, 0, 1),
        1,
        &[(0, None)],
    );
    expect(
        &rt,
        &CoilCutter::new(MOST, &[50], 100, 0, 1),
        1,
        &[(0, None)],
    );
}

#[test]
fn strikes_hide_places(rt: HostRuntime) {
    let list = MakersList::new(&ROWS);
    let all = [(0, Some((100, 200))), (1, Some((120, 150))), (2, None)];
    expect(&rt, &StrikeList::new(list, &[]), 3, &all);
    expect(&rt, &StrikeList::new(list, &[3, MOST]), 3, &all);
    let second = [(0, Some((100, 200))), (1, None)];
    expect(&rt, &StrikeList::new(list, &[1, 1]), 3, &second);
}

#[test]
fn thirty_two_strikes_count(rt: HostRuntime) {
    let mut struck = [0; 33];
    struck[32] = 1;
    let layer = StrikeList::new(MakersList::new(&ROWS), &struck);
    expect(&rt, &layer, 3, &[(0, None), (1, Some((120, 150)))]);
}

#[test]
fn limits_hide_plates(rt: HostRuntime) {
    let list = MakersList::new(&ROWS);
    let first = (0, Some((100, 200)));
    let second = (1, Some((120, 150)));
    expect(&rt, &PressLimit::new(list, 120, 200), 3, &[first, second]);
    expect(
        &rt,
        &PressLimit::new(list, 119, 200),
        3,
        &[first, (1, None)],
    );
    expect(
        &rt,
        &PressLimit::new(list, 120, 199),
        3,
        &[(0, None), second],
    );
    expect(&rt, &PressLimit::new(list, MOST, MOST), 3, &[first, second]);
    expect(
        &rt,
        &PressLimit::new(list, 0, 0),
        3,
        &[(0, None), (1, None)],
    );
}

#[test]
fn layers_stack(rt: HostRuntime) {
    let list = MakersList::new(&ROWS);
    let struck = StrikeList::new(PressLimit::new(list, 300, 150), &[2]);
    expect(
        &rt,
        &struck,
        3,
        &[(0, None), (1, Some((120, 150))), (2, None)],
    );
    let coil = CoilCutter::new(1, &[50, 60], 100, 10, 2);
    let twice = PressLimit::new(PressLimit::new(coil, 60, 100), 50, 110);
    expect(
        &rt,
        &twice,
        4,
        &[(0, Some((50, 100))), (1, None), (2, None)],
    );
    let both = StrikeList::new(StrikeList::new(coil, &[0]), &[3]);
    let low = PressLimit::new(both, 60, 100);
    let shown = [(0, None), (1, None), (2, Some((60, 100))), (3, None)];
    expect(&rt, &low, 4, &shown);
}

#[test]
fn layers_of_a_list_stack(rt: HostRuntime) {
    let list = MakersList::new(&ROWS);
    let all = [(0, Some((100, 200))), (1, Some((120, 150))), (2, None)];
    expect(&rt, &Layered::new(list, &[]), 3, &all);
    let mut places = [2; 32];
    places[31] = 0;
    let none = [Layer::Strike(Few::new(places, 0))];
    expect(&rt, &Layered::new(list, &none), 3, &all);
    let press = Layer::Press {
        width: 120,
        length: 200,
    };
    let both = [press, Layer::Strike(Few::new(places, 40))];
    let second = [(0, None), (1, Some((120, 150))), (2, None)];
    expect(&rt, &Layered::new(list, &both), 3, &second);
}

// A layer of the caller's, which hides all or nothing and holds a function.
#[derive(Clone, Copy)]
struct Shutter {
    shut: bool,
    turned: fn(bool) -> bool,
}

impl Hide for Shutter {
    ghost hides = { λ s k p. s.shut };

    fn hides(&self, _place: u32, _plate: Plate) -> bool {
        self.shut
    }
}

fn not(shut: bool) -> bool {
    !shut
}

// What is seen through the layer of the rows.
fn expect_seen<L: Hide>(rt: &impl Abort, layer: &L, table: &[Shown]) {
    let list = MakersList::new(&ROWS);
    for (place, shown) in table {
        let plate = layer.through(&list, *place);
        assert_eq!(rt; plate.map(|plate| (plate.width(), plate.length())), *shown);
    }
}

// The layer hides the plate of a row.
fn hidden(layer: &dyn Hide, place: u32) -> bool {
    let plate = MakersList::new(&ROWS).plate(place);
    plate.is_some_and(|plate| layer.hides(place, plate))
}

#[test]
fn layers_of_a_caller_hide(rt: HostRuntime) {
    let turned: fn(bool) -> bool = not;
    let open = Shutter {
        shut: false,
        turned,
    };
    expect_seen(&rt, &open, &[(0, Some((100, 200))), (2, None)]);
    let shut = Shutter { shut: true, turned };
    expect_seen(&rt, &shut, &[(0, None), (2, None)]);
    let covered = Covered {
        supply: MakersList::new(&ROWS),
        layer: shut,
    };
    expect(&rt, &covered, 3, &[(0, None)]);
}

// A supply, and how often it was asked for a plate.
#[derive(Drop)]
struct Counted<S> {
    supply: S,
    asked: Cell<u32>,
}

impl<S: Supply> Supply for Counted<S> {
    ghost places = { λ c. S.places c.supply };

    ghost shows = { λ c. S.shows c.supply };

    fn places(&self) -> u32 {
        self.supply.places()
    }

    fn plate(&self, place: u32) -> Option<Plate> {
        self.asked.set(self.asked.get().saturating_add(1));
        self.supply.plate(place)
    }
}

#[test]
fn a_struck_place_is_not_asked_for(rt: HostRuntime) {
    let below = Counted {
        supply: MakersList::new(&ROWS),
        asked: Cell::new(0),
    };
    let strike = Strikes(&[0]);
    assert!(rt; strike.through(&below, 0).is_none());
    assert_eq!(rt; below.asked.get(), 0);
    assert!(rt; strike.through(&below, 1).is_some());
    assert_eq!(rt; below.asked.get(), 1);
}

#[test]
fn layers_are_lent_as_one_of_any_type(rt: HostRuntime) {
    let press = Layer::Press {
        width: 119,
        length: 200,
    };
    expect_seen(&rt, &press, &[(0, Some((100, 200))), (1, None)]);
    assert!(rt; !hidden(&press, 0));
    assert!(rt; hidden(&press, 1));
    let strike = Layer::Strike(Few::new([0; 32], 1));
    expect_seen(&rt, &strike, &[(0, None), (1, Some((120, 150)))]);
    assert!(rt; hidden(&strike, 0));
    assert!(rt; !hidden(&strike, 1));
}
