// The tests of `jobs` in the format of web joints: what a text gives, and what a text that breaks the format is told.
#![tactic(auto)]

#[cfg(test)]
mod faults;
#[cfg(test)]
mod values;
