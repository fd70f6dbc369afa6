// Answers many random joints; tools/oracle.py made the text and the expected answers.
#![tactic(auto)]

use answers::{Command, checked};
use jobs::Format;
use std::process::ExitCode;

fn main(rt: HostRuntime) -> ExitCode {
    checked(&rt, Format::Whole, Command::Choose)
}
