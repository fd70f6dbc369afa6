// Replays the journal of a yard over the pile of a job.
#![tactic(auto)]

use answers::Source;
use floors::{Failure, Order, run};
use std::env;
use std::process::ExitCode;
use texts::Value;

// The stamp of a yard for which none is given.
const STAMP: u32 = 1;

fn main(rt: HostRuntime) -> ExitCode {
    match start(&rt) {
        Ok(()) => ExitCode::SUCCESS,
        Err(failure) => {
            let _ = eprintln!(rt; "{failure}");
            ExitCode::FAILURE
        }
    }
}

// The arguments are the job, the journal and, if it is not 1, the stamp.
fn start(rt: &HostRuntime) -> Result<(), Failure> {
    let mut args = env::args(rt)?.skip(1);
    let (Some(job), Some(journal)) = (args.next(), args.next()) else {
        return Err(Failure::Usage);
    };
    let stamp = args
        .next()
        .map_or(Some(STAMP), |word| u32::read(word.as_str()));
    let (Some(stamp), None) = (stamp, args.next()) else {
        return Err(Failure::Usage);
    };
    run(
        rt,
        Order {
            job: Source::File(job),
            journal: Source::File(journal),
            stamp,
        },
    )
}
