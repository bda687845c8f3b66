//! The lines of answers, of readers and of a run's end, as docs/SCRIPT.md has them.

use jffs_core::Answer;
use jffs_line::{CLEANER, CONTROL};
use jffs_program::{print_answers, print_ending, print_readers};
use jffs_run::ReaderEnd;
use jffs_tree::{Cause, Outcome};
use std::alloc::Global;
use std::test::Fail;

/// What is printed of a run with this one answer: its line, and the line of the end.
fn printed(alloc: Global, writer: u16, outcome: Outcome) -> Result<Vec<u8>, Fail> {
    let answers = [Answer {
        writer,
        seq: 7,
        outcome,
    }];
    let mut out = Vec::new(alloc);
    print_answers(&answers, &mut out)
        .ok()
        .ok_or("it is written")?;
    print_ending(&answers, &mut out)
        .ok()
        .ok_or("it is written")?;
    Ok(out)
}

/// What is printed where the Unmount was refused for this cause.
fn not_closed(alloc: Global, cause: Cause) -> Result<Vec<u8>, Fail> {
    printed(alloc, CONTROL, Outcome::Refused(cause))
}

#[test]
fn the_end_of_a_session_names_its_cause(rt: HostRuntime) -> Result<(), Fail> {
    for (cause, text) in [
        (Cause::VersionsSpent, "not closed VersionsSpent\n"),
        (Cause::Memory, "not closed Memory\n"),
        (Cause::NoSpace, "not closed NoSpace\n"),
        (Cause::Failed, "not closed Failed\n"),
    ] {
        let lines = not_closed(rt.alloc(), cause)?;
        assert_eq!(rt; lines.as_slice(), text.as_bytes());
    }
    Ok(())
}

#[test]
fn answers_and_ends_have_their_lines(rt: HostRuntime) -> Result<(), Fail> {
    let appended = Outcome::Appended {
        inode: 2,
        version: 3,
    };
    let refused = Outcome::Refused(Cause::Device);
    let rows = [
        (8, appended, "8.7 appended\nnot closed Ended\n"),
        (1, refused, "1.7 refused Device\nnot closed Ended\n"),
        (CLEANER, refused, "not closed Ended\n"),
        (CONTROL, Outcome::Closed, "closed\n"),
        (CONTROL, refused, "not closed Device\n"),
    ];
    for (writer, outcome, text) in rows {
        let lines = printed(rt.alloc(), writer, outcome)?;
        assert_eq!(rt; lines.as_slice(), text.as_bytes());
    }
    Ok(())
}

#[test]
fn each_reader_has_its_line(rt: HostRuntime) -> Result<(), Fail> {
    let alloc = rt.alloc();
    let mut ends = vec![in alloc; ReaderEnd::NotSeen, ReaderEnd::NoFile]?;
    ends.push(ReaderEnd::Bytes(Vec::new(alloc)))?;
    ends.push(ReaderEnd::Bytes(vec![in alloc; 0x0Au8, 0xFF]?))?;
    let mut out = Vec::new(alloc);
    print_readers(&ends, &mut out).ok().ok_or("it is written")?;
    let wanted = b"reader 1 not seen\nreader 2 none\nreader 3 -\nreader 4 0aff\n";
    assert_eq!(rt; out.as_slice(), wanted.as_slice());
    Ok(())
}

/// By writer and then by number, whatever the order of the answers.
#[test]
fn answers_stand_by_writer(rt: HostRuntime) -> Result<(), Fail> {
    let mut answers = Vec::new(rt.alloc());
    for (writer, seq) in [(2, 1), (1, 1), (CLEANER, 1), (8, 1), (1, 2), (2, 2)] {
        let outcome = Outcome::Refused(Cause::NotFound);
        answers.push(Answer {
            writer,
            seq,
            outcome,
        })?;
    }
    let mut out = Vec::new(rt.alloc());
    print_answers(&answers, &mut out)
        .ok()
        .ok_or("it is written")?;
    let wanted = b"1.1 refused NotFound\n1.2 refused NotFound\n2.1 refused NotFound\n\
        2.2 refused NotFound\n8.1 refused NotFound\n";
    assert_eq!(rt; out.as_slice(), wanted.as_slice());
    Ok(())
}
