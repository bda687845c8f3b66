//! The lines that tell what became of a run.

ghost use Rattle.std.specs.Prelude.{◌≡◌, OnOk};
ghost use Rattle.std.specs.Io.KnownBytes.{Appends};
ghost use Rattle.jffs_program.specs.Printed.{answer_line, lines_of, answers_text, seen_text};
ghost use Rattle.jffs_program.specs.Printed.{reader_line, readers_text, ending_of, ending_line};
ghost use Rattle.jffs_program.specs.Printed.{not_closed_line};

use jffs_core::Answer;
use jffs_line::CONTROL;
use jffs_run::ReaderEnd;
use jffs_text::{WRITERS_MAX, cause_name, write_hex};
use jffs_tree::{Cause, Outcome};
use std::io;
use std::io::Write;

/// The line of each answered request of a writer, `appended` or `refused CAUSE` after `W.N`, by
/// writer and then by number. The cleaner and the control, which have higher numbers, have no
/// lines.
///
/// An error of `out`, which may then have a part of the lines.
pub fn print_answers<W: Write>(answers: &[Answer], out: &mut W) -> io::Result<()>
    ensures { OnOk result
        (Appends (W.contents out.old) (W.contents out.new) (answers_text answers.now)) }
{
    for before in 0..WRITERS_MAX {
        print_answers_of(before + 1, answers, out)?;
    }
    Ok(())
}

/// The lines of one writer.
fn print_answers_of<W: Write>(writer: usize, answers: &[Answer], out: &mut W) -> io::Result<()>
    ensures { OnOk result
        (Appends (W.contents out.old) (W.contents out.new) (lines_of writer answers.now)) }
{
    for answer in answers {
        if usize::from(answer.writer) == writer {
            print_answer(answer, out)?;
        }
    }
    Ok(())
}

fn print_answer<W: Write>(answer: &Answer, out: &mut W) -> io::Result<()>
    ensures { OnOk result
        (Appends (W.contents out.old) (W.contents out.new) (answer_line answer.now)) }
{
    write!(out, "{}.{} ", answer.writer, answer.seq)?;
    match answer.outcome {
        Outcome::Refused(cause) => {
            out.write_all(b"refused ")?;
            out.write_all(cause_name(cause).as_bytes())?;
        }
        _ => out.write_all(b"appended")?,
    }
    out.write_all(b"\n")
}

/// The line of each reader, counted from 1: after `reader R` the bytes in hex, `none` where its
/// path was no file, or `not seen`.
///
/// An error of `out`, which may then have a part of the lines.
pub fn print_readers<W: Write>(readers: &[ReaderEnd], out: &mut W) -> io::Result<()>
    ensures { OnOk result
        (Appends (W.contents out.old) (W.contents out.new) (readers_text readers.now)) }
{
    for (index, end) in readers.iter().enumerate() {
        print_reader(index + 1, end, out)?;
    }
    Ok(())
}

fn print_reader<W: Write>(number: usize, end: &ReaderEnd, out: &mut W) -> io::Result<()>
    ensures { OnOk result
        (Appends (W.contents out.old) (W.contents out.new) (reader_line number end.now)) }
{
    write!(out, "reader {number} ")?;
    print_seen(end, out)?;
    out.write_all(b"\n")
}

/// What a reader saw.
fn print_seen<W: Write>(end: &ReaderEnd, out: &mut W) -> io::Result<()>
    ensures { OnOk result
        (Appends (W.contents out.old) (W.contents out.new) (seen_text end.now)) }
{
    match end {
        ReaderEnd::NotSeen => out.write_all(b"not seen"),
        ReaderEnd::NoFile => out.write_all(b"none"),
        ReaderEnd::Bytes(bytes) if bytes.is_empty() => out.write_all(b"-"),
        ReaderEnd::Bytes(bytes) => write_hex(bytes, out),
    }
}

/// `closed`, or `not closed CAUSE`, as the control's Unmount was answered; the cause is Ended where
/// nothing answered it.
///
/// An error of `out`, which may then have a part of the line.
pub fn print_ending<W: Write>(answers: &[Answer], out: &mut W) -> io::Result<()>
    ensures { OnOk result
        (Appends (W.contents out.old) (W.contents out.new) (ending_line answers.now)) }
{
    match ending_in(answers) {
        Some(Outcome::Refused(cause)) => print_not_closed(cause, out),
        Some(_) => out.write_all(b"closed\n"),
        None => out.write_all(b"not closed Ended\n"),
    }
}

/// How the control's Unmount was answered; `None` where nothing answered it.
fn ending_in(answers: &[Answer]) -> Option<Outcome>
    ensures { result ≡ ending_of answers.now }
{
    let ending = answers.iter().find(|answer| answer.writer == CONTROL);
    ending.map(|answer| answer.outcome)
}

fn print_not_closed<W: Write>(cause: Cause, out: &mut W) -> io::Result<()>
    ensures { OnOk result
        (Appends (W.contents out.old) (W.contents out.new) (not_closed_line cause)) }
{
    writeln!(out, "not closed {}", cause_name(cause))
}
