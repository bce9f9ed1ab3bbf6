//! The program: it hands its arguments and the standard streams to `run` of `mi_serving`, and knows nothing else.
#![tactic(auto)]

use mi_hub::Watched;
use mi_program::refuse_arguments;
use mi_serving::run;
use std::process::ExitCode;
use std::{env, io};

/// The program's arguments, the first of which is its name.
fn arguments(rt: &HostRuntime) -> io::Result<Vec<String>> {
    let words = env::args(rt)?;
    Ok(words.collect(rt.alloc())?)
}

fn main(rt: HostRuntime) -> ExitCode {
    let status = match arguments(&rt) {
        Ok(words) => run(&rt, words.as_slice(), rt.stdout(), rt.stderr()),
        Err(error) => refuse_arguments(&error, &mut Watched::new(rt.stderr())),
    };
    ExitCode::from(status)
}
