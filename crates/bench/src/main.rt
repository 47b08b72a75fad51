// Workloads for measuring the calls: `bench KIND L W N ROUNDS SEED` prints the same checksum as the reference program's.
#![tactic(auto)]

mod pages;
mod plan;
mod rounds;
mod setup;
mod texts;
mod workloads;

use plan::Plan;
use std::io;
use std::rt::Env;
use workloads::{Bench, Workload};

// The argument at `i` as a number.
fn argument<R: Env>(rt: &R, i: usize) -> Option<u64> {
    let mut text = [0u8; 4096];
    let n = rt.arg(i, &mut text).ok()?;
    script::decimal(&text[..n])
}

// The checksum of the workload on the command line; none where a kind or a size is not allowed.
fn checksum<R: Env>(rt: &R) -> Option<u64> {
    let kind = Workload::numbered(argument(rt, 1)?)?;
    let plan = Plan::new(
        argument(rt, 2)?,
        argument(rt, 3)?,
        argument(rt, 4)?,
        argument(rt, 6)?,
    )?;
    // ROUNDS that are no number are 0.
    let rounds = u32::try_from(argument(rt, 5).unwrap_or(0)).ok()?;
    if kind.fits(plan) {
        Some(Bench::new(plan).run(kind, rounds))
    } else {
        None
    }
}

fn main(rt: HostRuntime) -> io::Result<()> {
    match checksum(&rt) {
        Some(sum) => rt.println(sum),
        None => Ok(()),
    }
}
