// Chooses, judges or explains plates for the sheets of a job text.
#![tactic(auto)]

use answers::{Bench, Command, Form, answered};
use jobs::Format;
use std::process::ExitCode;

const BENCH: Bench = Bench {
    name: "bench_next",
    usage: "bench_next choose|judge|explain|explain-csv [FILE]",
    format: Format::Whole,
};

fn main(rt: HostRuntime) -> ExitCode {
    answered(&rt, BENCH, |word| match word {
        "choose" => Some(Command::Choose),
        "judge" => Some(Command::Judge),
        "explain" => Some(Command::Explain(Form::Words)),
        "explain-csv" => Some(Command::Explain(Form::Csv)),
        _ => None,
    })
}
