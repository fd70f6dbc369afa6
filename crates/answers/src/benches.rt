// A bench as a program: its arguments, and what it says where there are no answers.
use super::commands::{Command, answer};
use super::failures::{Cause, Source, Told};
use jobs::Format;
use std::env;
use std::process::ExitCode;

// Its name, how it is called, and the format of its texts.
#[derive(Clone, Copy)]
pub struct Bench {
    pub name: &'static str,
    pub usage: &'static str,
    pub format: Format,
}

// The answers to the command of the arguments: the first is its word, the second the file; without it
// standard input is read.
pub fn answered<F: FnOnce(&str) -> Option<Command>>(
    rt: &HostRuntime,
    bench: Bench,
    command_of: F,
) -> ExitCode
    requires { F.IsAlwaysCallable command_of }
{
    match order(rt, command_of) {
        Ok(Some((command, source))) => match answer(rt, bench.format, command, &source) {
            Ok(()) => ExitCode::SUCCESS,
            Err(cause) => failed(rt, bench, &source, &cause),
        },
        Ok(None) => {
            let _ = eprintln!(rt; "usage: {}", bench.usage);
            ExitCode::FAILURE
        }
        Err(cause) => failed(rt, bench, &Source::StandardInput, &cause),
    }
}

// The command and where its text is, or nothing where the arguments are not those of a command.
fn order<F: FnOnce(&str) -> Option<Command>>(
    rt: &HostRuntime,
    command_of: F,
) -> Result<Option<(Command, Source)>, Cause>
    requires { F.IsAlwaysCallable command_of }
{
    let mut args = env::args(rt)?.skip(1);
    let command = args.next().and_then(|word| command_of(word.as_str()));
    let source = args.next().map_or(Source::StandardInput, Source::File);
    if args.next().is_some() {
        return Ok(None);
    }
    Ok(command.map(|command| (command, source)))
}

fn failed(rt: &HostRuntime, bench: Bench, source: &Source, cause: &Cause) -> ExitCode {
    let told = Told {
        program: bench.name,
        source,
        cause,
    };
    let _ = eprintln!(rt; "{told}");
    ExitCode::FAILURE
}

// The answers for the text of standard input: of a fault only the exit status tells, which has no
// `From` for a result.
pub fn checked(rt: &HostRuntime, format: Format, command: Command) -> ExitCode {
    match answer(rt, format, command, &Source::StandardInput) {
        Ok(()) => ExitCode::SUCCESS,
        Err(_) => ExitCode::FAILURE,
    }
}
