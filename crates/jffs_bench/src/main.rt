//! The program `jffs_bench`: how long the parts of a script's run, lines and looks take.
//!
//! With a number it reads a script from standard input, and runs it so often. Without a word it
//! measures lines and looks. With the name of a call of the library for C and a number it makes that
//! call so often, and prints nothing. With the word `check` it does all of it in small, the script
//! and each call once, and prints no times.
#![tactic(auto)]

mod calls;
mod fault;
mod handed;
mod lines;
mod looks;
mod measure;
mod parts;
mod volume;

use crate::calls::{Call, make_each, make_often};
use crate::fault::Fault;
use crate::measure::{Measure, Scale};
use crate::parts::measure_parts;
use std::alloc::Global;
use std::io::{BufWriter, Read, Write};
use std::process::ExitCode;
use std::rt::Runtime;
use std::sync::Wait;
use std::thread::Threads;
use std::{env, io};

fn main(rt: HostRuntime) -> ExitCode {
    let mut input = rt.reader();
    match measure_all(&rt, &mut input) {
        Ok(()) => ExitCode::SUCCESS,
        Err(_) => ExitCode::FAILURE,
    }
}

/// What is measured.
#[derive(Clone, Copy, Debug, PartialEq, Eq)]
enum Work {
    LinesAndLooks,
    /// A script, so often.
    Script(u32),
    /// A call, so often.
    Calls(Call, usize),
    /// All in small.
    Check,
}

fn measure_all<R: Runtime<A = Global> + Threads + Wait + Sync, I: Read>(
    rt: &R,
    input: &mut I,
) -> Result<(), Fault> {
    let work = work_of(rt)?;
    let out = BufWriter::new(rt.alloc(), io::writer(rt))?;
    let mut measure = Measure::new(out, scale_of(work));
    match work {
        Work::LinesAndLooks => measure_lines_and_looks(rt, &mut measure)?,
        Work::Script(times) => measure_script(rt, input, times, &mut measure)?,
        Work::Calls(call, count) => make_often(rt.alloc(), call, count)?,
        Work::Check => {
            measure_lines_and_looks(rt, &mut measure)?;
            measure_script(rt, input, 1, &mut measure)?;
            make_each(rt.alloc())?;
        }
    }
    measure.finish()
}

fn scale_of(work: Work) -> Scale {
    if work == Work::Check {
        Scale::Check
    } else {
        Scale::Full
    }
}

fn measure_lines_and_looks<R: Runtime<A = Global> + Threads + Wait + Sync, W: Write + Drop>(
    rt: &R,
    measure: &mut Measure<W>,
) -> Result<(), Fault> {
    lines::measure_lines(rt, rt.alloc(), measure)?;
    looks::measure_looks(rt, rt.alloc(), measure)
}

/// Reads a script, and measures the parts of its run so often.
fn measure_script<R: Runtime<A = Global> + Threads + Wait + Sync, I: Read, W: Write + Drop>(
    rt: &R,
    input: &mut I,
    times: u32,
    measure: &mut Measure<W>,
) -> Result<(), Fault> {
    let text = read_whole(rt.alloc(), input)?;
    for _ in 0..times {
        measure_parts(rt, rt.alloc(), text.as_slice(), measure)?;
    }
    Ok(())
}

/// What the program's words ask for.
fn work_of(rt: &impl Runtime<A = Global>) -> Result<Work, Fault> {
    let words: Vec<String> = env::args(rt)?.collect(rt.alloc())?;
    match (words.get(1), words.get(2)) {
        (None, _) => Ok(Work::LinesAndLooks),
        (Some(word), None) if word.as_str() == "check" => Ok(Work::Check),
        (Some(word), None) => Ok(Work::Script(number_in(word)?)),
        (Some(name), Some(count)) => {
            let call = Call::of_name(name.as_str()).ok_or(Fault::Words)?;
            Ok(Work::Calls(call, number_in(count)? as usize))
        }
    }
}

fn number_in(word: &String) -> Result<u32, Fault> {
    word.as_str().parse().map_err(|_| Fault::Words)
}

/// All bytes of standard input.
fn read_whole<R: Read>(alloc: Global, input: &mut R) -> Result<Vec<u8>, Fault> {
    let mut text = Vec::new(alloc);
    input.read_to_end(&mut text)?;
    Ok(text)
}
