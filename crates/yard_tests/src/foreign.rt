// Slips that are brought to another yard.
use super::stock::{ANY, Pile, told};
use std::test::Fail;
use yard::{DrawnSlip, Slip, TurnedAway, Yard};

// A yard of three places with one pair at place 1.
fn stocked(stamp: u32) -> Yard<Pile> {
    let mut yard = Yard::new(Pile(3), stamp);
    let _ = yard.receive(1, 1);
    yard
}

// Takes the least pair at place 1 out on a slip.
fn drawn(yard: &mut Yard<Pile>, number: u32) -> Result<DrawnSlip, Fail> {
    yard.draw(&ANY, number)
        .map_err(|_| Fail::new("nothing fits"))
}

// Brings a slip here, or where it is turned away there: what each says, 0 where it was taken.
fn here_or_there<S, F>(
    call: F,
    here: &mut Yard<Pile>,
    there: &mut Yard<Pile>,
    slip: Slip<S>,
) -> [u8; 2]
where
    F: Fn(&mut Yard<Pile>, Slip<S>) -> Result<(), TurnedAway<Slip<S>>>,
    requires { F.IsAlwaysCallable call }
{
    match call(here, slip) {
        Ok(()) => [0, 0],
        Err(TurnedAway { refusal, slip }) => [refusal.number(), brought(&call, there, slip)],
    }
}

// Brings a slip to a yard, and voids it where it is turned away.
fn brought<S, F>(call: &F, yard: &mut Yard<Pile>, slip: Slip<S>) -> u8
where
    F: Fn(&mut Yard<Pile>, Slip<S>) -> Result<(), TurnedAway<Slip<S>>>,
    requires { F.IsAlwaysCallable call.now }
{
    match call(yard, slip) {
        Ok(()) => 0,
        Err(TurnedAway { refusal, slip }) => {
            let _ = slip.void();
            refusal.number()
        }
    }
}

#[test]
fn another_stamp_is_refused_and_the_slip_comes_back(rt: HostRuntime) -> Result<(), Fail> {
    let mut own = stocked(1);
    let mut other = stocked(2);
    let slip = drawn(&mut own, 4)?;
    assert_eq!(rt;
        here_or_there(Yard::hand_back, &mut other, &mut own, slip),
        [9, 0]
    );
    assert_eq!(rt; told(&own, 1), Some((1, 0)));
    assert_eq!(rt; told(&other, 1), Some((1, 0)));
    let slip = drawn(&mut own, 4)?;
    assert_eq!(rt;
        here_or_there(Yard::press, &mut other, &mut own, slip.tack()),
        [9, 0]
    );
    assert_eq!(rt; told(&own, 1), Some((0, 0)));
    assert_eq!(rt; told(&other, 1), Some((1, 0)));
    Ok(())
}

// The stamp is compared first: a slip of another stamp is refused as such with none out, too.
#[test]
fn the_stamp_is_compared_before_the_pairs_out(rt: HostRuntime) -> Result<(), Fail> {
    for (stamp, refusal) in [(2, 9), (1, 10)] {
        let mut own = stocked(1);
        let mut other = stocked(stamp);
        let slip = drawn(&mut own, 4)?;
        assert_eq!(rt;
            here_or_there(Yard::hand_back, &mut other, &mut own, slip),
            [refusal, 0]
        );
        assert_eq!(rt; told(&other, 1), Some((1, 0)));
        let slip = drawn(&mut own, 4)?;
        assert_eq!(rt; brought(&Yard::press, &mut other, slip.tack()), refusal);
        assert_eq!(rt; told(&other, 1), Some((1, 0)));
        assert_eq!(rt; told(&own, 1), Some((0, 1)));
    }
    Ok(())
}

// Of two yards of one stamp, either takes the slip of the other while a pair is out there.
#[test]
fn one_stamp_one_word(rt: HostRuntime) -> Result<(), Fail> {
    let mut here = stocked(7);
    let mut there = stocked(7);
    let slip = drawn(&mut here, 1)?;
    let first = brought(&Yard::hand_back, &mut there, slip);
    assert_eq!(rt; first, 10);
    assert_eq!(rt; told(&there, 1), Some((1, 0)));
    let slip = drawn(&mut there, 2)?;
    assert_eq!(rt; brought(&Yard::hand_back, &mut here, slip), 0);
    assert_eq!(rt; told(&here, 1), Some((1, 0)));
    assert_eq!(rt; told(&there, 1), Some((0, 1)));
    Ok(())
}

#[test]
fn a_void_leaves_the_pair_out(rt: HostRuntime) -> Result<(), Fail> {
    let mut yard = stocked(1);
    let slip = drawn(&mut yard, 4)?;
    let numbers = slip.tack().void();
    assert_eq!(rt; (numbers.stamp, numbers.place, numbers.joint), (1, 1, 4));
    assert_eq!(rt; told(&yard, 1), Some((0, 1)));
    Ok(())
}
