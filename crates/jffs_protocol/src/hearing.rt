//! What stands on standard input, request by request.

ghost use Rattle.std.specs.Prelude.{◌≡◌, ◌≢◌, ◌≤◌, ◌++◌, false, IfOk, All, length, take};
ghost use Rattle.std.specs.Io.Buffered.{reader_remaining as left_in};
ghost use Rattle.jffs_protocol.specs.Hearing.{TakesNext, TakesMore, TakesBytes, DropsBytes};
ghost use Rattle.jffs_protocol.specs.Hearing.{HearsLine};
ghost use Rattle.jffs_protocol.specs.Hearing.{HearsBody, Hears};

use crate::asking::{Ask, ask_of};
use memchr::memchr;
use std::alloc::{AllocError, Global};
use std::io;
use std::io::{BufRead, BufReader, ErrorKind, Read};

/// The most bytes of a request's line, without its line feed.
const LINE_MAX: usize = 100;

/// How many bytes are dropped at once.
const CHUNK_LEN: usize = 256;

/// What was heard next.
#[derive(Clone, Copy)]
pub(crate) enum Heard {
    /// The end of the input, perhaps within a request.
    End,
    /// What is no request.
    Malformed,
    /// A request, and the bytes that it counts.
    Asked(Ask),
}

/// How a line ended.
#[derive(Clone, Copy)]
enum LineEnd {
    /// With the input.
    Cut,
    /// With its line feed, after more bytes than a line may have.
    Long,
    /// With its line feed.
    Whole,
}

/// Where a request and its answer are put together. Its memory is kept from one to the next.
#[derive(Drop)]
pub struct Room {
    pub(crate) alloc: Global,
    /// The most bytes that a path may have.
    path_max: usize,
    /// The most bytes of data that a request may have.
    data_max: usize,
    line: Vec<u8>,
    /// The line of the request that was thought of.
    written: Vec<u8>,
    /// The bytes that a request counts.
    pub(crate) body: Vec<u8>,
    pub(crate) answer: Vec<u8>,
}

impl Room {
    /// Room for requests whose first path and whose data, or second path, have at most so many
    /// bytes.
    pub fn new(alloc: Global, path_max: u32, data_max: u32) -> Result<Room, AllocError> {
        let (path_max, data_max) = (path_max as usize, data_max as usize);
        Ok(Room {
            alloc,
            path_max,
            data_max,
            line: Vec::new(alloc),
            written: Vec::new(alloc),
            body: Vec::with_capacity(alloc, path_max + data_max)?,
            answer: Vec::new(alloc),
        })
    }
}

/// Takes the next request, and nothing after it. The bytes that it counts are put at the front of
/// the room's body.
pub(crate) fn hear<R: Read>(input: &mut BufReader<R>, room: &mut Room) -> io::Result<Heard>
    ensures { IfOk result (λ heard. Hears (left_in R.remaining input.old)
        (left_in R.remaining input.new) heard room.new.body.items) }
{
    match hear_line(input, &mut room.line)? {
        LineEnd::Cut => Ok(Heard::End),
        LineEnd::Long => Ok(Heard::Malformed),
        LineEnd::Whole => match ask_of(&room.line, &mut room.written)? {
            None => Ok(Heard::Malformed),
            Some(ask) => hear_body(input, ask, room),
        },
    }
}

/// Takes a line with its line feed, and keeps it without that.
fn hear_line<R: Read>(input: &mut BufReader<R>, line: &mut Vec<u8>) -> io::Result<LineEnd>
    ensures { IfOk result (λ end. HearsLine (left_in R.remaining input.old)
        (left_in R.remaining input.new) end line.new.items) }
{
    line.clear();
    let mut long = false;
    for _ in 0..u64::MAX {
        long = take_part(input, line, long)?;
        match next_byte(input)? {
            None => return Ok(LineEnd::Cut),
            Some(b'\n') if long => return Ok(LineEnd::Long),
            Some(b'\n') => return Ok(LineEnd::Whole),
            Some(byte) => long = keep(line, long, &[byte])?,
        }
    }
    Err(endless())
}

/// Takes what stands in the block of a line, without its line feed, and keeps it. Whether the line
/// is longer than a line may be.
fn take_part<R: Read>(input: &mut BufReader<R>, line: &mut Vec<u8>, long: bool) -> io::Result<bool>
    ensures { IfOk result (λ longer. TakesMore (left_in R.remaining input.old)
        (left_in R.remaining input.new) long line.old.items longer line.new.items) }
{
    let block = input.buffer();
    let count = before_line_feed(block);
    let longer = keep(line, long, &block[..count])?;
    input.consume(count);
    Ok(longer)
}

/// How many bytes stand before the first line feed of a block, or all.
fn before_line_feed(block: &[u8]) -> usize
    ensures within { result ≤ length block.now }
    ensures one { All (λ b. b ≢ 10) (take result block.now) }
{
    match memchr(b'\n', block) {
        Some(count) => count,
        None => block.len(),
    }
}

/// Adds some bytes to a line, unless it is longer than a line may be. Whether it is so then.
fn keep(line: &mut Vec<u8>, long: bool, bytes: &[u8]) -> Result<bool, AllocError>
    ensures { IfOk result (λ longer. longer ≡ false → (long ≡ false)
        × (line.new.items ≡ line.old.items ++ bytes.now)) }
{
    if long || bytes.len() > LINE_MAX - line.len().min(LINE_MAX) {
        return Ok(true);
    }
    line.extend_from_slice(bytes)?;
    Ok(false)
}

/// Takes the next byte; `None` at the end.
fn next_byte<R: Read>(input: &mut R) -> io::Result<Option<u8>>
    ensures { IfOk result (λ byte. TakesNext (R.remaining input.old) (R.remaining input.new) byte) }
{
    let mut byte = [0u8; 1];
    for _ in 0..u64::MAX {
        match input.read(&mut byte) {
            Ok(0) => return Ok(None),
            Ok(_) => return Ok(Some(byte[0])),
            Err(error) if error.kind() == ErrorKind::Interrupted => {}
            Err(error) => return Err(error),
        }
    }
    Err(endless())
}

/// What no input is.
fn endless() -> io::Error {
    io::Error::from(ErrorKind::FileTooLarge)
}

/// Takes the bytes that a request counts.
fn hear_body<R: Read>(input: &mut R, ask: Ask, room: &mut Room) -> io::Result<Heard>
    ensures { IfOk result (λ heard. HearsBody ask (R.remaining input.old) (R.remaining input.new)
        heard room.new.body.items) }
{
    let first = ask.first_len() as usize;
    let second = ask.second_len() as usize;
    let count = first + second;
    if first > room.path_max || second > room.data_max {
        return if skip(input, &mut room.body, count)? {
            Ok(Heard::Malformed)
        } else {
            Ok(Heard::End)
        };
    }
    if fill(input, &mut room.body, count)? {
        Ok(Heard::Asked(ask))
    } else {
        Ok(Heard::End)
    }
}

/// Takes so many bytes, in place of what stands there; `false` where the input ends before.
fn fill<R: Read>(input: &mut R, bytes: &mut Vec<u8>, count: usize) -> io::Result<bool>
    ensures { IfOk result (λ all. TakesBytes all (R.remaining input.old) (R.remaining input.new)
        count bytes.new.items) }
{
    bytes.clear();
    bytes.resize(count, 0)?;
    take_exact(input, bytes)
}

/// Takes as many bytes as the slice has; `false` where the input ends before.
fn take_exact<R: Read>(input: &mut R, bytes: &mut [u8]) -> io::Result<bool>
    ensures taken { IfOk result (λ all. TakesBytes all (R.remaining input.old)
        (R.remaining input.new) (length bytes.old) bytes.new) }
    ensures same_length { length bytes.new ≡ length bytes.old }
{
    let mut at = 0;
    for _ in 0..u64::MAX {
        if at >= bytes.len() {
            return Ok(true);
        }
        match input.read(&mut bytes[at..]) {
            Ok(0) => return Ok(false),
            Ok(count) => at += count,
            Err(error) if error.kind() == ErrorKind::Interrupted => {}
            Err(error) => return Err(error),
        }
    }
    Err(endless())
}

/// Takes so many bytes and drops them; `false` where the input ends before.
fn skip<R: Read>(input: &mut R, bytes: &mut Vec<u8>, count: usize) -> io::Result<bool>
    ensures { IfOk result
        (λ all. DropsBytes all (R.remaining input.old) (R.remaining input.new) count) }
{
    let mut left = count;
    while left > 0 {
        let part = left.min(CHUNK_LEN);
        if !fill(input, bytes, part)? {
            return Ok(false);
        }
        left -= part;
    }
    Ok(true)
}
