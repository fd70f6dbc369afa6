// Chooses or judges plates for the sheets of a job text.
#![tactic(auto)]

use answers::{Bench, Command, answered};
use jobs::Format;
use std::process::ExitCode;

const BENCH: Bench = Bench {
    name: "bench",
    usage: "bench choose [FILE], or bench judge [FILE]",
    format: Format::Webs,
};

fn main(rt: HostRuntime) -> ExitCode {
    answered(&rt, BENCH, |word| match word {
        "choose" => Some(Command::Choose),
        "judge" => Some(Command::Judge),
        _ => None,
    })
}
