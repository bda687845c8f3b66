//! Whole scripts, each run in threads by the program that users call.

use crate::Scale;
use crate::digest::Digest;
use crate::fault::Fault;
use crate::random::{Random, noise, noisy};
use jffs_program::run_program;
use jffs_text::write_hex;
use std::alloc::Global;
use std::io::Write;
use std::sync::Wait;
use std::thread::Threads;

/// How many commands each writer has.
const COMMANDS: u32 = 4096;

/// How many files each writer has.
const FILES: u32 = 6;

/// The length at which a file is cut or made anew, in bytes.
const FILE_LEN: u32 = 5000;

/// Who takes part in a script, and over which line.
#[derive(Clone, Copy, Debug)]
struct Cast {
    line: &'static str,
    writers: u32,
    has_cleaner: bool,
    readers: u32,
}

/// The casts of the scripts.
const CASTS: [Cast; 6] = [
    Cast {
        line: "rings 16",
        writers: 8,
        has_cleaner: false,
        readers: 0,
    },
    Cast {
        line: "shared 16",
        writers: 8,
        has_cleaner: false,
        readers: 0,
    },
    Cast {
        line: "rings 64",
        writers: 8,
        has_cleaner: true,
        readers: 0,
    },
    Cast {
        line: "shared 64",
        writers: 8,
        has_cleaner: false,
        readers: 8,
    },
    Cast {
        line: "rings 16",
        writers: 2,
        has_cleaner: true,
        readers: 2,
    },
    Cast {
        line: "shared 16",
        writers: 1,
        has_cleaner: false,
        readers: 0,
    },
];

/// Runs three scripts of each cast, and says what they printed. What is printed doesn't depend on
/// the schedule: each writer keeps to a directory of its own, there is always room, and a reader
/// waits for the last answer to the writer whose file it reads.
pub(crate) fn run_scripts<R: AllocGlobal + Threads + Wait + Sync>(
    rt: &R,
    seed: u64,
    scale: Scale,
) -> Result<Digest, Fault> {
    let mut digest = Digest::new();
    for turn in 0..3u64 {
        for (part, cast) in CASTS.iter().enumerate() {
            let mut random = Random::new(seed, turn * 100 + part as u64);
            run_script(rt, &mut random, *cast, scale.times(COMMANDS), &mut digest)?;
        }
    }
    Ok(digest)
}

fn run_script<R: AllocGlobal + Threads + Wait + Sync>(
    rt: &R,
    random: &mut Random,
    cast: Cast,
    commands: u32,
    digest: &mut Digest,
) -> Result<(), Fault> {
    let mut text = Vec::new(rt.alloc());
    write_head(cast, commands, &mut text)?;
    write_commands(rt.alloc(), random, cast.writers, commands, &mut text)?;
    let mut out = Vec::new(rt.alloc());
    let status = run_program(rt, &mut text.as_slice(), &mut out);
    digest.add(u64::from(status));
    digest.add_bytes(&out);
    Ok(())
}

/// What stands before the writers.
fn write_head(cast: Cast, commands: u32, text: &mut Vec<u8>) -> Result<(), Fault> {
    let line = cast.line;
    writeln!(text, "volume 64 16384\nline {line}")?;
    if cast.has_cleaner {
        text.write_all(b"cleaner 1000000\n")?;
    }
    for reader in 0..cast.readers {
        let writer = reader % cast.writers.max(1) + 1;
        let file = reader % FILES;
        writeln!(text, "reader {writer} {commands} /w{writer}/f{file}")?;
    }
    Ok(())
}

/// The commands of all writers.
fn write_commands(
    alloc: Global,
    random: &mut Random,
    writers: u32,
    commands: u32,
    text: &mut Vec<u8>,
) -> Result<(), Fault> {
    let noise = noise(alloc, random)?;
    for number in 1..=writers {
        writeln!(text, "writer\nmkdir /w{number}")?;
        for file in 0..FILES {
            writeln!(text, "create /w{number}/f{file}")?;
        }
        let mut writer = Writer {
            number,
            sizes: [0; FILES as usize],
        };
        for _ in FILES + 1..commands {
            writer.add_command(random, &noise, text)?;
        }
    }
    Ok(())
}

/// A writer, with how long its files are about.
#[derive(Clone, Copy, Debug)]
struct Writer {
    number: u32,
    sizes: [u32; FILES as usize],
}

impl Writer {
    /// A command after those that make the files: mostly a line at the end of a file.
    fn add_command(
        &mut self,
        random: &mut Random,
        noise: &[u8],
        text: &mut Vec<u8>,
    ) -> Result<(), Fault> {
        let number = self.number;
        let file = random.below(FILES);
        let size = self.sizes[file as usize];
        if size > FILE_LEN {
            self.sizes[file as usize] = 0;
            writeln!(text, "truncate /w{number}/f{file} 0")?;
            return Ok(());
        }
        match random.below(40) {
            0..=4 => add_other(random, number, file, text),
            5..=12 => add_write(number, file, 0, noisy(noise, random, 64), text),
            _ => {
                let len = random.from(20, 120);
                self.sizes[file as usize] = size.saturating_add(len);
                add_write(number, file, size, noisy(noise, random, len), text)
            }
        }
    }
}

/// A command that is no write.
fn add_other(random: &mut Random, number: u32, file: u32, text: &mut Vec<u8>) -> Result<(), Fault> {
    match random.below(5) {
        0 => writeln!(text, "remove /w{number}/nothing")?,
        1 => writeln!(text, "create /w{number}/f{file}")?,
        2 => writeln!(text, "rename /w{number}/f{file} /w{number}/f{file}")?,
        3 => writeln!(text, "rename /w{number}/f{file} /w{number}/g")?,
        _ => writeln!(text, "rename /w{number}/g /w{number}/f{file}")?,
    }
    Ok(())
}

/// The command of a write.
fn add_write(
    number: u32,
    file: u32,
    offset: u32,
    data: &[u8],
    text: &mut Vec<u8>,
) -> Result<(), Fault> {
    write!(text, "write /w{number}/f{file} {offset} ")?;
    write_hex(data, text)?;
    text.write_all(b"\n")?;
    Ok(())
}
