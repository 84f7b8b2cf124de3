//! Texts of Terraform: what is done to each, and to damaged ones.
//!
//! The arguments name the texts that are damaged.
#![tactic(auto)]

mod corpus;
mod corruption;
mod report;
mod state;

use anyhow::Result;
use std::env;

fn main(rt: HostRuntime) -> Result<()> {
    let words: Vec<String> = env::args(&rt)?.skip(1).collect(rt.alloc())?;
    corpus::run(&rt)?;
    corruption::run(&rt, words.as_slice())
}
