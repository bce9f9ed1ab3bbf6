//! The program: it hands its arguments and the standard streams, the output buffered, to `run` of `mi_program`, and knows nothing else.
#![tactic(auto)]

use mi_hub::Watched;
use mi_program::{Buffered, refuse_arguments, run};
use std::process::ExitCode;
use std::{env, io};

/// The program's arguments, the first of which is its name.
fn arguments(rt: &HostRuntime) -> io::Result<Vec<String>> {
    let words = env::args(rt)?;
    Ok(words.collect(rt.alloc())?)
}

fn main(rt: HostRuntime) -> ExitCode {
    let mut input = Watched::new(rt.stdin());
    let mut output = Watched::new(Buffered::new(rt.alloc(), rt.stdout()));
    let mut errors = Watched::new(rt.stderr());
    let status = match arguments(&rt) {
        Ok(words) => run(&rt, words.as_slice(), &mut input, &mut output, &mut errors),
        Err(error) => refuse_arguments(&error, &mut errors),
    };
    ExitCode::from(status)
}
