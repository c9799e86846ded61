//! The everyday work of hosts, on targets in memory, so that it can be timed.
//!
//! `initiator_jobs JOB SEED ROUNDS` runs a job for ROUNDS rounds, on data that the seed decides. It prints its name, a
//! digest of all bytes that the target answered, and the number of answers: the same in each run.
//!
//! ```text
//! machines   READs and WRITEs of 4 KiB at random places, served by the loop
//! copies     WRITEs, READs and VERIFYs of 256 KiB and 1 MiB, one after the other; WRITE SAME
//! crowds     both on 64 connections and four targets, served by the loop
//! clusters   64 hosts that start and share a disk: discovery, logins, questions, reservations
//! tapes      backups on a tape, read back, and places looked for
//! awkward    single bytes, small segments, commands out of order, aborted tasks, long texts
//! hosts      64 hosts that log in as libiscsi and open-iscsi do, most of them with one ISID; tar's archives on a tape
//! all        each of them
//! ```
//!
//! A fault of the target, or of the program, ends it with status 1. If an allocation fails, it ends with status 3.
#![tactic(auto)]

mod answers;
mod archives;
mod awkward;
mod clusters;
mod copies;
mod devices;
mod digest;
mod exchange;
mod fault;
mod host;
mod hosts;
mod line;
mod logins;
mod outcome;
mod peer;
mod peers;
mod random;
mod requests;
mod served;
mod tapes;
mod wire;

use crate::awkward::awkward;
use crate::clusters::clusters;
use crate::copies::copies;
use crate::fault::Fault;
use crate::hosts::hosts;
use crate::outcome::Outcome;
use crate::served::{crowds, machines};
use crate::tapes::tapes;
use std::env;
use std::process::ExitCode;

/// The names of the jobs.
const JOBS: [&str; 7] = [
    "machines", "copies", "crowds", "clusters", "tapes", "awkward", "hosts",
];

/// Runs a job for `rounds` rounds, and prints its digest.
fn run_job(rt: &HostRuntime, job: &str, seed: u64, rounds: usize) -> Result<(), Fault> {
    let alloc = rt.alloc();
    let outcome = match job {
        "machines" => machines(alloc, seed, rounds),
        "copies" => copies(alloc, seed, rounds),
        "crowds" => crowds(alloc, seed, rounds),
        "clusters" => clusters(alloc, seed, rounds),
        "tapes" => tapes(alloc, seed, rounds),
        "awkward" => awkward(alloc, seed, rounds),
        "hosts" => hosts(alloc, seed, rounds),
        _ => Err(Fault::Usage),
    };
    let Outcome {
        digest,
        answers,
        good,
    } = outcome?;
    println!(rt; "{job} {digest:016x}, {answers} answers, {good} GOOD")?;
    Ok(())
}

/// Runs the job that these words name, or all jobs.
fn run_words(rt: &HostRuntime, words: &[String]) -> Result<(), Fault> {
    let [_, job, seed, rounds] = words else {
        return Err(Fault::Usage);
    };
    let Ok(seed) = seed.as_str().parse::<u64>() else {
        return Err(Fault::Usage);
    };
    let Ok(rounds) = rounds.as_str().parse::<usize>() else {
        return Err(Fault::Usage);
    };
    if job.as_str() != "all" {
        return run_job(rt, job.as_str(), seed, rounds);
    }
    for job in JOBS.iter() {
        run_job(rt, *job, seed, rounds)?;
    }
    Ok(())
}

/// Runs what the words of the command line name.
fn run(rt: &HostRuntime) -> Result<(), Fault> {
    let mut words = Vec::new(rt.alloc());
    for word in env::args(rt)? {
        words.push(word)?;
    }
    run_words(rt, words.as_slice())
}

fn main(rt: HostRuntime) -> ExitCode {
    match run(&rt) {
        Ok(()) => ExitCode::from(0),
        Err(Fault::OutOfMemory) => ExitCode::from(3),
        Err(_) => ExitCode::from(1),
    }
}
