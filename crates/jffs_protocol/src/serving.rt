//! Requests served one after another.

ghost use Rattle.std.specs.Prelude.{◌≡◌, ◌≤◌, [], IfOk, OnOk, length, vec_len, take};
ghost use Rattle.std.specs.Io.Buffered.{reader_remaining as left_in};
ghost use Rattle.std.specs.Io.KnownBytes.{Appends};
ghost use Rattle.jffs_protocol.specs.Asks.{body_len};
ghost use Rattle.jffs_protocol.specs.Serving.{Manner, ServesNext, ServesAll, said_text, greeting};
ghost use Rattle.jffs_protocol.specs.Serving.{Responds, is_last, malformed_text, next_of};

use crate::asking::Ask;
use crate::hearing::{Heard, Room, hear};
use std::io;
use std::io::{BufReader, ErrorKind, Read, Write};

/// What is said to a request.
#[derive(Clone, Copy, Debug, PartialEq, Eq)]
pub enum Said {
    /// What was written.
    Answered,
    /// It is done.
    Done,
    /// It is done, and no request follows.
    Last,
    /// It isn't understood.
    Malformed,
    /// Memory was lacking, and nothing was changed.
    Memory,
    /// The server failed, and no request follows.
    Failed(Failure),
}

/// Why a server fails.
#[derive(Clone, Copy, Debug, PartialEq, Eq)]
pub enum Failure {
    /// The device failed.
    Device,
    /// What was written can't be brought to its medium.
    Medium,
    /// Memory for the unmount was lacking.
    Memory,
}

/// Which stream failed.
#[derive(Clone, Copy, Debug, PartialEq, Eq)]
pub enum StreamFault {
    /// The input can't be read.
    Input,
    /// The output can't be written.
    Output,
    /// Memory was lacking for what is read and written.
    Memory,
}

impl StreamFault {
    fn of_input(error: io::Error) -> StreamFault {
        match error.kind() {
            ErrorKind::OutOfMemory => StreamFault::Memory,
            _ => StreamFault::Input,
        }
    }
}

/// What answers requests.
pub trait Server {
    // That it answers so.
    ghost manner: { Manner Self };

    /// Answers a request with the bytes after its line: what is said to it, for which the answer's
    /// bytes may be written to `out`, which is empty.
    fn answer(&mut self, ask: Ask, body: &[u8], out: &mut Vec<u8>) -> Said
        requires counted { length body.now ≡ body_len ask }
        requires empty { out.old.items ≡ [] }
        ensures { manner self.old ask body.now self.new result out.new.items };
}

/// What comes next.
#[derive(Clone, Copy, PartialEq, Eq)]
enum Next {
    /// Another request.
    More,
    /// Nothing, after an answer.
    Last,
    /// Nothing, since the input ended.
    End,
}

/// Serves requests up to the last, or to the end of the input; one within a request drops that.
/// Each answer is written and flushed before the next request is taken.
///
/// The input is read by blocks, so that bytes after the last request may be gone from it. A stream
/// that fails ends it; so does a want of memory for the room that requests take.
pub fn serve<S: Server, R: Read, W: Write>(
    server: &mut S,
    room: &mut Room,
    input: &mut R,
    out: &mut W,
) -> Result<(), StreamFault>
    ensures { OnOk result (ServesAll S.manner server.old server.new (R.remaining input.old)
        (W.contents out.old) (W.contents out.new)) }
{
    match BufReader::new(room.alloc, input) {
        Ok(mut blocks) => serve_all(server, room, &mut blocks, out),
        Err(_) => Err(StreamFault::Memory),
    }
}

/// Serves requests as [`serve`] does, and takes from the input nothing after the last.
fn serve_all<S: Server, R: Read, W: Write>(
    server: &mut S,
    room: &mut Room,
    input: &mut BufReader<R>,
    out: &mut W,
) -> Result<(), StreamFault>
    ensures { OnOk result (ServesAll S.manner server.old server.new
        (left_in R.remaining input.old) (W.contents out.old) (W.contents out.new)) }
{
    greet(out)?;
    for _ in 0..u64::MAX {
        match serve_one(server, room, input, out)? {
            Next::More => {}
            Next::Last => return Ok(()),
            Next::End => return Ok(()),
        }
    }
    Err(StreamFault::Input)
}

/// Takes one request and answers it.
fn serve_one<S: Server, R: Read, W: Write>(
    server: &mut S,
    room: &mut Room,
    input: &mut BufReader<R>,
    out: &mut W,
) -> Result<Next, StreamFault>
    ensures served { IfOk result (λ next. ServesNext S.manner next server.old server.new
        (left_in R.remaining input.old) (left_in R.remaining input.new) (W.contents out.old)
        (W.contents out.new)) }
{
    match hear(input, room) {
        Ok(Heard::End) => Ok(Next::End),
        Ok(Heard::Malformed) => deny(out),
        Ok(Heard::Asked(ask)) => respond(server, ask, room, out),
        Err(error) => Err(StreamFault::of_input(error)),
    }
}

/// Answers what is no request.
fn deny<W: Write>(out: &mut W) -> Result<Next, StreamFault>
    ensures { IfOk result (λ next. (next ≡ Next.More)
        × Appends (W.contents out.old) (W.contents out.new) malformed_text) }
{
    give(Said::Malformed, b"", out)?;
    Ok(Next::More)
}

/// Answers a request whose bytes stand in the room's body.
fn respond<S: Server, W: Write>(
    server: &mut S,
    ask: Ask,
    room: &mut Room,
    out: &mut W,
) -> Result<Next, StreamFault>
    requires fits { body_len ask ≤ vec_len room.old.body }
    ensures { IfOk result (λ next. Responds S.manner ask
        (take (body_len ask) room.old.body.items) next server.old server.new (W.contents out.old)
        (W.contents out.new)) }
{
    let count = ask.first_len() as usize + ask.second_len() as usize;
    room.answer.clear();
    let said = server.answer(ask, &room.body[..count], &mut room.answer);
    give(said, &room.answer, out)?;
    Ok(next_after(said))
}

/// Nothing comes after the last answer, nor after a failure.
fn next_after(said: Said) -> Next
    ensures { result ≡ next_of (is_last said) }
{
    match said {
        Said::Last | Said::Failed(_) => Next::Last,
        _ => Next::More,
    }
}

/// Gives an answer, of which these bytes were written, and flushes it.
fn give<W: Write>(said: Said, written: &[u8], out: &mut W) -> Result<(), StreamFault>
    ensures { OnOk result
        (Appends (W.contents out.old) (W.contents out.new) (said_text said written.now)) }
{
    match write_said(said, written, out) {
        Ok(()) => Ok(()),
        Err(_) => Err(StreamFault::Output),
    }
}

fn write_said<W: Write>(said: Said, written: &[u8], out: &mut W) -> io::Result<()>
    ensures { OnOk result
        (Appends (W.contents out.old) (W.contents out.new) (said_text said written.now)) }
{
    match said {
        Said::Answered => out.write_all(written)?,
        Said::Done | Said::Last => out.write_all(b"ok\n")?,
        Said::Malformed => out.write_all(b"malformed\n")?,
        Said::Memory => out.write_all(b"memory\n")?,
        Said::Failed(Failure::Device) => out.write_all(b"failed Device\n")?,
        Said::Failed(Failure::Medium) => out.write_all(b"failed Medium\n")?,
        Said::Failed(Failure::Memory) => out.write_all(b"failed Memory\n")?,
    }
    out.flush()
}

/// Gives the first line.
fn greet<W: Write>(out: &mut W) -> Result<(), StreamFault>
    ensures { OnOk result (Appends (W.contents out.old) (W.contents out.new) greeting) }
{
    give(Said::Answered, b"pumpgrape 1\n", out)
}
