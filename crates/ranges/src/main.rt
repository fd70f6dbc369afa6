// Tries each number of a card at the ends of its range and one beyond, and prints the standing of
// a joint over that card; tools/oracle.py made the expected lines.
#![tactic(auto)]

use joints::{Sheet, WebJoint};
use plates::Joint;
use rules::{
    Area, Axis, Card, Conditions, Duration, Field, Force, Lateral, Mark, Member, Service, Span,
    Species, Turnings,
};
use std::io;

// The eight tooth and slip values, the two tensile and six shear values, and the tooth.
const NUMBERS: usize = 17;

const VALUES: Lateral = Lateral {
    p: 2000,
    q: 1500,
    pt: 1800,
    qt: 1400,
};

const CARD: Card = Card {
    teeth: VALUES,
    slip: VALUES,
    t0: 200,
    t90: 150,
    shear: [100, 110, 120, 130, 120, 110],
    tooth: 9,
};

const SPAN: Span = Span {
    low: -50,
    high: 50,
    low_mark: Mark::Plain,
    high_mark: Mark::Plain,
};

const MEMBER: Member = Member {
    force: Force::Tension,
    normal: 1000,
    parallel: 0,
    specified: 500,
    cross: 0,
    theta: 30,
    rho: 45,
    sigma: 0,
    depth: 89,
    species: Species::SprucePineFir,
    grain: Axis::X,
    interface: Axis::X,
    field: Field { x: SPAN, y: SPAN },
};

const SHEET: Sheet = Sheet {
    first: 0,
    count: 1,
    conditions: Conditions {
        truss: 12_000,
        duration: Duration::Standard,
        service: Service::SeasonedDry,
        area: Area::Net,
        turnings: Turnings::Either,
    },
};

// The four values with the one of that number altered.
fn with_lateral(v: Lateral, number: usize, value: u32) -> Lateral {
    match number {
        0 => Lateral { p: value, ..v },
        1 => Lateral { q: value, ..v },
        2 => Lateral { pt: value, ..v },
        _ => Lateral { qt: value, ..v },
    }
}

fn with_shear(mut shear: [u32; 6], number: usize, value: u32) -> [u32; 6] {
    shear[number % 6] = value;
    shear
}

// The card with the number altered.
fn with_number(card: Card, number: usize, value: u32) -> Card {
    match number {
        0..=3 => Card {
            teeth: with_lateral(card.teeth, number, value),
            ..card
        },
        4..=7 => Card {
            slip: with_lateral(card.slip, number - 4, value),
            ..card
        },
        8 => Card { t0: value, ..card },
        9 => Card { t90: value, ..card },
        10..=15 => Card {
            shear: with_shear(card.shear, number - 10, value),
            ..card
        },
        _ => Card {
            tooth: value,
            ..card
        },
    }
}

// One below the range, its ends, and one beyond.
fn ends(number: usize) -> [u32; 4] {
    match number {
        0..=7 => [9, 10, 20_000, 20_001],
        8..=15 => [0, 1, 2000, 2001],
        _ => [0, 1, 40, 41],
    }
}

fn print_standing(rt: &HostRuntime, number: usize, value: u32) -> io::Result<()> {
    let members = [MEMBER];
    let cards = [CARD, with_number(CARD, number, value)];
    let joint = WebJoint::new(SHEET, &members, &cards);
    match joint.standing() {
        Ok(()) => println!(rt; "number {number} at {value}: lawful"),
        Err(refusal) => println!(rt;
            "number {number} at {value}: refused {} at card {}",
            refusal.number(),
            refusal.position()
        ),
    }
}

fn print_ends(rt: &HostRuntime, number: usize) -> io::Result<()> {
    for value in ends(number) {
        print_standing(rt, number, value)?;
    }
    Ok(())
}

fn main(rt: HostRuntime) -> io::Result<()> {
    for number in 0..NUMBERS {
        print_ends(&rt, number)?;
    }
    Ok(())
}
