//! The program `jffs_jobs`: the jobs that users of this file system wait for, on inputs that a
//! number makes.
//!
//! `jffs_jobs JOB NUMBER` does one job in full and prints a digest of all that it gave; with `all`
//! for the job and a third word it does each of them in small. No times are printed. `bench/run`
//! takes those, beside an older build.
#![tactic(auto)]

mod awkward;
mod carrying;
mod device;
mod digest;
mod fault;
mod household;
mod looks;
mod mounts;
mod random;
mod refusals;
mod service;
mod threads;
mod volume;

use crate::digest::Digest;
use crate::fault::Fault;
use std::alloc::Global;
use std::env;
use std::process::ExitCode;
use std::rt::{Files, Runtime};
use std::sync::Wait;
use std::thread::Threads;

/// How much of a job is done.
#[derive(Clone, Copy, Debug, PartialEq, Eq)]
pub(crate) enum Scale {
    Full,
    /// About a hundredth of it.
    Small,
}

impl Scale {
    /// How often something is done that is done `full` times in full; at least once.
    pub(crate) fn times(self, full: u32) -> u32 {
        match self {
            Scale::Full => full,
            Scale::Small => full / 100 + 1,
        }
    }
}

/// The jobs, in the order in which `all` does them.
const JOBS: [&str; 6] = [
    "device", "mounts", "threads", "carrying", "looks", "awkward",
];

fn main(rt: HostRuntime) -> ExitCode {
    match run_called(&rt) {
        Ok(()) => ExitCode::SUCCESS,
        Err(fault) => {
            let _ = eprintln!(rt; "jffs_jobs: {fault}");
            ExitCode::FAILURE
        }
    }
}

/// Does what the words of the call ask for.
fn run_called<R: Runtime<A = Global> + Files<File: Send> + Threads + Wait + Sync>(
    rt: &R,
) -> Result<(), Fault> {
    let words = env::args(rt)?.collect::<Vec<String>>(rt.alloc())?;
    match words.as_slice() {
        [_, job, seed] => run_jobs(rt, job.as_str(), seed.as_str(), Scale::Full),
        [_, job, seed, _] => run_jobs(rt, job.as_str(), seed.as_str(), Scale::Small),
        _ => Err(Fault::Call),
    }
}

/// Does the job of that name, or all.
fn run_jobs<R: Runtime<A = Global> + Files<File: Send> + Threads + Wait + Sync>(
    rt: &R,
    job: &str,
    seed: &str,
    scale: Scale,
) -> Result<(), Fault> {
    let Ok(seed) = seed.parse::<u32>() else {
        return Err(Fault::Call);
    };
    if job != "all" {
        return run_job(rt, job, u64::from(seed), scale);
    }
    for job in JOBS {
        run_job(rt, job, u64::from(seed), scale)?;
    }
    Ok(())
}

/// Does one job, and prints its digest.
fn run_job<R: Runtime<A = Global> + Files<File: Send> + Threads + Wait + Sync>(
    rt: &R,
    job: &str,
    seed: u64,
    scale: Scale,
) -> Result<(), Fault> {
    let alloc = rt.alloc();
    let digest = match job {
        "device" => device::work(alloc, seed, scale)?,
        "mounts" => mounts::mount_all(alloc, seed, scale)?,
        "threads" => threads::run_scripts(rt, seed, scale)?,
        "carrying" => carrying::carry(rt, seed, scale)?,
        "looks" => looks::look(rt, seed, scale)?,
        "awkward" => awkward::try_all(alloc, seed, scale)?,
        _ => return Err(Fault::Call),
    };
    print_digest(rt, job, &digest)
}

fn print_digest<R: Runtime<A = Global>>(rt: &R, job: &str, digest: &Digest) -> Result<(), Fault> {
    let number = digest.number();
    println!(rt; "{job} {number:016x}")?;
    Ok(())
}
