//! The jobs that users wait for, over texts that it makes: JOB SEED COUNT.
//!
//! A job prints a digest of all that its calls answered and wrote. COUNT is how much work it is;
//! each seed gives other texts of the same kinds and sizes.
#![tactic(auto)]

mod awkward;
mod chance;
mod files;
mod history;
mod large;
mod results;
mod templates;
mod text;

use anyhow::{Result, bail};
use results::Results;
use std::env;

fn main(rt: HostRuntime) -> Result<()> {
    let words: Vec<String> = env::args(&rt)?.skip(1).collect(rt.alloc())?;
    let [job, seed, count] = words.as_slice() else {
        bail!("usage: bench_jobs JOB SEED COUNT");
    };
    let seed = seed.as_str().parse::<u32>()?;
    let count = count.as_str().parse::<u32>()?;
    run(&rt, job.as_str(), seed, count)
}

/// Does a job, or each of them, and prints its result.
fn run(rt: &HostRuntime, job: &str, seed: u32, count: u32) -> Result<()> {
    for name in ["check", "adopt", "large", "undo", "awkward"] {
        if job == name || job == "all" {
            let mut results = Results::new(rt.alloc(), seed);
            run_job(name, count, &mut results);
            print_results(rt, name, &results)?;
        }
    }
    Ok(())
}

fn run_job(name: &str, count: u32, results: &mut Results) {
    match name {
        "check" => files::check(count, results),
        "adopt" => files::adopt(count, results),
        "large" => large::run(count, results),
        "undo" => history::run(count, results),
        _ => awkward::run(count, results),
    }
}

fn print_results(rt: &HostRuntime, name: &str, results: &Results) -> Result<()> {
    let digest = results.digest();
    let refused = results.refused();
    println!(rt; "{name} {digest:016x} {refused} refused")?;
    Ok(())
}
