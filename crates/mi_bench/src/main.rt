//! The calls of the container in loops, which `bench/container.py` measures. Each line of its input is a workload and a number of calls.
//! Each line that it prints says how many of them did what they were asked to. It also has a sum, by which another container's work is seen
//! to be the same. The workload `clock` prints the nanoseconds that the one before it was on a processor.
#![tactic(auto)]

mod accounts;
mod bench;
mod workload;

use bench::Bench;
use std::io;

/// Runs the workloads that the lines of the input name. It is lent the container: so no way out of it has that one's drop.
fn run_lines(rt: &HostRuntime, bench: &mut Bench) -> io::Result<()> {
    for line in rt.lines(rt.alloc()) {
        let done = bench.run(rt, line?.as_str())?;
        println!(rt; "{} {}", done.count, done.sum)?;
    }
    println!(rt; "{} records", bench.size())
}

fn main(rt: HostRuntime) -> io::Result<()> {
    let mut bench = Bench::new(rt.alloc())?;
    run_lines(&rt, &mut bench)
}
