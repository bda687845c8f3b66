//! The two programs.

use crate::did::Answered;
use crate::fault::{DONE, REFUSED, ToolFault};
use crate::image::{Seen, show};
use crate::operation::Operation;
use crate::reading::{read_image, read_line};
use crate::replay::{Replay, image_of};
use crate::texts::answered_text;
use jffs_flash::is_geometry;
use jffs_text::{Mistake, Quote, Usage, Words, line_text};
use std::alloc::Global;
use std::fs;
use std::io::{BufRead, BufReader, Read, Write};
use std::rt::Files;

const IMAGE: Usage = Usage {
    program: "jffs_image",
    help: "jffs_image SECTORS SECTOR_SIZE < IMAGE

Shows what is on the image of a volume, which it reads from standard input. A volume has 6 to 64
sectors of 1024, 2048, 4096, 8192 or 16384 bytes.

  mounted clean|unclean      whether it was unmounted, and nothing was programmed after that
  next VERSION INODE         the numbers that come next, or none
  sectors N N ..             the sectors that hold the log, the oldest first
  record SECTOR POSITION LENGTH VERSION live|dead
                             each record of the log: where it stands, its bytes, its node's version
  d PATH, f PATH SIZE HEX    the tree: directories, and files with their bytes
  refused WHY                in place of all these: no volume is there

  jffs_image 6 1024 < notes.image

Status: 0; 3 where no volume is there; 2 after a wrong call, or where the image has another length;
1 after a fault of memory or a stream. docs/TOOLS.md has more.
",
    option: None,
    options: "--help and --version",
    most: 3,
};

const REPLAY: Usage = Usage {
    program: "jffs_replay",
    help: "jffs_replay < OPERATIONS

Drives a core operation by operation, and writes one line for each:
  flash S Z | image FILE S Z | fuse CALLS Writes|All Nothing|Half | mount
  request WRITER SEQ COMMAND | clean_oldest | erase_dead | image
COMMAND is one of a script, or another that only a request has:
  mkdir PATH | create PATH | write PATH OFFSET HEX | fill PATH OFFSET COUNT HH
  truncate PATH SIZE | rename PATH PATH | remove PATH
  copy SOURCE PARENT NAME OFFSET HEX | unmount
A volume has 6 to 64 sectors S of 1024, 2048, 4096, 8192 or 16384 bytes Z.

  printf '%s\\n' 'flash 6 1024' mount 'request 1 1 create /f' | jffs_replay

Status: 0; 2 after a wrong call, or a line that is no operation or can't be done; 1 after a fault of
memory or a stream. docs/SCRIPT.md has more.
",
    option: None,
    options: "--help and --version",
    most: 0,
};

/// Shows what is on the image that `input` gives, of the sizes that two words say, and reads no
/// more than the image and one byte. `words` is how the program was called, with its own name
/// first.
///
/// Returns the exit status: 0, also after `--help` and `--version`; 3 where the scan refuses the
/// image; 2 after a wrong call; 1 if it can't read, write or allocate. For the last two one line
/// goes to `errors`.
pub fn run_image<R: Read, W: Write, E: Write>(
    alloc: Global,
    words: &[String],
    input: &mut R,
    out: &mut W,
    errors: &mut E,
) -> u8 {
    match IMAGE.work(alloc, words, out, errors) {
        Ok(work) => match show_image(alloc, &work.words, input, out, errors) {
            Ok(status) => status,
            Err(fault) => {
                let _ = writeln!(errors, "jffs_image: {fault}");
                fault.status()
            }
        },
        Err(status) => status,
    }
}

fn show_image<R: Read, W: Write, E: Write>(
    alloc: Global,
    words: &[&str],
    input: &mut R,
    out: &mut W,
    errors: &mut E,
) -> Result<u8, ToolFault> {
    let (sectors, sector_size) = image_sizes(words)?;
    let bytes = read_image(alloc, sectors, sector_size, input).map_err(ToolFault::of_input)?;
    let seen = show(alloc, image_of(sectors, sector_size, bytes)?, out)?;
    out.flush()?;
    if is_geometry(sector_size, sectors) {
        let _ = errors.write_all(TURNED.as_bytes());
    }
    Ok(match seen {
        Seen::Mounted => DONE,
        Seen::Refused => REFUSED,
    })
}

/// What people are told where the two numbers would be those of a volume the other way round.
const TURNED: &str = "jffs_image: SECTORS comes first, and SECTOR_SIZE after it\n";

/// The two numbers that a call has. `Few`, `Extra` or `Word` where it has none such.
fn image_sizes(words: &[&str]) -> Result<(u32, u32), ToolFault> {
    match words {
        [sectors, size] => Ok((number_of(*sectors)?, number_of(*size)?)),
        [_, _, extra, ..] => Err(ToolFault::Extra(Quote::of(*extra))),
        _ => Err(ToolFault::Few),
    }
}

fn number_of(word: &str) -> Result<u32, ToolFault> {
    let mut words = Words::of(word);
    match words.take_number(0, u32::MAX) {
        Ok(number) if words.count() == 0 => Ok(number),
        _ => Err(ToolFault::Word(Quote::of(word))),
    }
}

/// Runs the operations that `input` gives, each before the next line is read, and writes one line
/// for each to `out`, which is flushed at once. `words` is how the program was called, with its own
/// name first.
///
/// Returns the exit status: 0, also after `--help` and `--version`; 2 after a wrong call, or a line
/// that is no operation or can't be done; 1 if it can't read, write or allocate. For the last two
/// one line goes to `errors`, with the number of the line where there is one.
pub fn run_replay<Rt: Files + AllocGlobal, R: Read, W: Write, E: Write>(
    rt: &Rt,
    words: &[String],
    input: &mut R,
    out: &mut W,
    errors: &mut E,
) -> u8 {
    match REPLAY.work(rt.alloc(), words, out, errors) {
        Ok(_) => replay_lines(rt, input, out, errors),
        Err(status) => status,
    }
}

fn replay_lines<Rt: Files + AllocGlobal, R: Read, W: Write, E: Write>(
    rt: &Rt,
    input: &mut R,
    out: &mut W,
    errors: &mut E,
) -> u8 {
    match replay_all(rt, input, out) {
        Ok(()) => DONE,
        Err(Stopped { line, fault }) => {
            let _ = writeln!(errors, "jffs_replay: line {line}: {fault}");
            fault.status()
        }
    }
}

/// The line at which a replay stopped, and why.
#[derive(Clone, Copy, Debug, PartialEq, Eq)]
pub struct Stopped {
    /// The line of the text, counted from 1.
    pub line: u64,
    /// What is wrong with it, or what failed there.
    pub fault: ToolFault,
}

fn replay_all<Rt: Files + AllocGlobal, R: Read, W: Write>(
    rt: &Rt,
    input: &mut R,
    out: &mut W,
) -> Result<(), Stopped> {
    match BufReader::new(rt.alloc(), input) {
        Ok(mut lines) => run_lines(rt, &mut Replay::new(rt.alloc()), &mut lines, out),
        Err(error) => Err(Stopped {
            line: 1,
            fault: ToolFault::of_input(error),
        }),
    }
}

/// Runs the operations of a text on a replay, and writes one line for each to `out`, which is
/// flushed at once; an empty line and a comment are none.
///
/// `Stopped` at the first line that is no operation or can't be done, or at which reading, writing
/// or allocation fails: the replay stands as the operations before it left it, or as that one did
/// whose line could not be written.
pub fn run_lines<Rt: Files + AllocGlobal, B: BufRead, W: Write>(
    rt: &Rt,
    replay: &mut Replay,
    input: &mut B,
    out: &mut W,
) -> Result<(), Stopped> {
    let mut line = Vec::new(rt.alloc());
    for before in 0..u64::MAX {
        match run_next(rt, replay, input, &mut line, out) {
            Ok(true) => {}
            Ok(false) => return Ok(()),
            Err(fault) => {
                return Err(Stopped {
                    line: before + 1,
                    fault,
                });
            }
        }
    }
    Ok(())
}

/// Reads the next line into `line` and runs its operation. False at the end of the input.
fn run_next<Rt: Files + AllocGlobal, B: BufRead, W: Write>(
    rt: &Rt,
    replay: &mut Replay,
    input: &mut B,
    line: &mut Vec<u8>,
    out: &mut W,
) -> Result<bool, ToolFault> {
    let more = read_line(input, line).map_err(ToolFault::of_input)?;
    if more {
        run_line(rt, replay, line, out)?;
    }
    Ok(more)
}

/// Runs the operation of one line; an empty line and a comment are none.
fn run_line<Rt: Files + AllocGlobal, W: Write>(
    rt: &Rt,
    replay: &mut Replay,
    line: &[u8],
    out: &mut W,
) -> Result<(), ToolFault> {
    let line = line_text(line).map_err(ToolFault::Operation)?;
    if line.len() == 0 || line.starts_with('#') {
        return Ok(());
    }
    match Operation::parse(rt.alloc(), Words::of(line)) {
        Ok(operation) => run_operation(rt, replay, operation, out)?,
        Err(Mistake::Memory) => return Err(ToolFault::Memory),
        Err(mistake) => return Err(ToolFault::Operation(mistake)),
    }
    out.write_all(b"\n")?;
    out.flush()?;
    Ok(())
}

fn run_operation<Rt: Files + AllocGlobal, W: Write>(
    rt: &Rt,
    replay: &mut Replay,
    operation: Operation<'_>,
    out: &mut W,
) -> Result<(), ToolFault> {
    match operation {
        Operation::Flash {
            sectors,
            sector_size,
        } => {
            replay.begin_erased(sectors, sector_size)?;
            out.write_all(b"ready")?;
        }
        Operation::Open {
            file,
            sectors,
            sector_size,
        } => {
            let bytes = read_file(rt, file, sectors, sector_size)?;
            replay.begin(sectors, sector_size, bytes)?;
            out.write_all(b"ready")?;
        }
        Operation::Fuse(fuse) => {
            replay.fuse(fuse);
            out.write_all(b"ready")?;
        }
        Operation::Mount => replay.mount(out)?,
        Operation::Request(request) => write_answered(rt, &replay.request(request)?, out)?,
        Operation::CleanOldest => write_answered(rt, &replay.clean_oldest()?, out)?,
        Operation::EraseDead => write_answered(rt, &replay.erase_dead()?, out)?,
        Operation::Digest => replay.digest(out)?,
    }
    Ok(())
}

/// The image that stands in a file, for a device of these sizes. `Missing` or `File` with the name
/// of a file that isn't there or can't be read, `Memory`.
fn read_file<Rt: Files + AllocGlobal>(
    rt: &Rt,
    file: &str,
    sectors: u32,
    sector_size: u32,
) -> Result<Vec<u8>, ToolFault> {
    let mut opened = match fs::open(rt, file) {
        Ok(opened) => opened,
        Err(error) => return Err(ToolFault::of_file(file, error)),
    };
    match read_image(rt.alloc(), sectors, sector_size, &mut opened) {
        Ok(bytes) => Ok(bytes),
        Err(error) => Err(ToolFault::of_file(file, error)),
    }
}

fn write_answered<Rt: AllocGlobal, W: Write>(
    rt: &Rt,
    answered: &Answered,
    out: &mut W,
) -> Result<(), ToolFault> {
    out.write_all(answered_text(rt.alloc(), answered)?.as_bytes())?;
    Ok(())
}
