//! Replays generated traffic against a generated site, or tells what it holds, and prints digests of all that is
//! written: a workload for measuring how fast Haboob is.
//!
//! The words are the traffic (`short`, `browser`, `pieces`), what is wanted (`staged`, `plain`, `table`, `inspect`), the
//! settings (`open`, `tight`), how many files the site has, how many requests come, and a number from which all are
//! made: each number gives other files and requests of the same kind and size. Traffic is made while it is read.
#![tactic(auto)]

mod digest;
mod heads;
mod random;
mod site;
mod traffic;
mod words;

use anyhow::{Result, bail};
use command_line::Engine;
use digest::{Digest, Sum};
use program::{Fault, Wanted, inspect_files, run_files};
use settings::read_settings;
use site::site_text;
use std::env;
use std::sync::Wait;
use std::thread::Threads;
use traffic::Traffic;
use words::{Work, read_work};

/// Settings by which each request is let in.
const OPEN: &str =
    "policy.depth = 1000000\npolicy.rate = 1000000000\npolicy.rate_max = 1000000000\n";

/// Settings by which a good part of the requests is turned away: the server works off some 3,500 in a second, and the
/// traffic has about as many. Each tier has a policy of its own.
const TIGHT: &str =
    "policy.depth = 20\npolicy.rate = 1500000\npolicy.rate_max = 3000000\npolicy.target = 20000\n\
    tier1.rate = 800000\ntier1.target = 10000\ntier2.rate = 400000\ntier2.window = 1000\ntier3.rate = 200000\n\
    tier3.every = 20\ntier3.depth = 5\n";

/// What was wanted, done, with the sums of what it wrote to its two outputs.
fn run<T: Threads + Wait + Sync>(rt: &HostRuntime, threads: &T, work: &Work) -> Result<(Sum, Sum)> {
    let alloc = rt.alloc();
    let (mut first, mut second) = (Sum::new(), Sum::new());
    let traffic = Traffic::new(alloc, work)?;
    let ran = match work.wanted {
        Some(wanted) => {
            let site = site_text(alloc, work)?;
            let document = if work.tight { TIGHT } else { OPEN };
            let settings = read_settings(alloc, document.as_bytes())?;
            let (written, report) = (Digest::new(&mut first), Digest::new(&mut second));
            run_files(
                threads,
                alloc,
                &settings,
                wanted,
                site.as_slice(),
                traffic,
                written,
                report,
            )
            .0
        }
        None => inspect_files(alloc, traffic, Digest::new(&mut first)).0,
    };
    match ran {
        Ok(()) => Ok((first, second)),
        Err(fault) => bail!("status {}", fault.status()),
    }
}

fn main(rt: HostRuntime) -> Result<()> {
    let words: Vec<String> = env::args(&rt)?.skip(1).collect(rt.alloc())?;
    let work = read_work(rt.alloc(), &words)?;
    let (first, second) = run(&rt, &rt, &work)?;
    println!(rt; "{} bytes {:016x}", first.bytes(), first.value())?;
    println!(rt; "{} bytes {:016x}", second.bytes(), second.value())?;
    Ok(())
}
