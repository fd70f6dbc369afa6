// The tests of `yard`: the calls at their limits, slips of other yards, and replays.
#![tactic(auto)]

#[cfg(test)]
mod bounds;
#[cfg(test)]
mod drawing;
#[cfg(test)]
mod foreign;
#[cfg(test)]
mod replays;
#[cfg(test)]
mod stock;
