//! The medium, opened by another mount after each call that was carried out on it, and in the
//! midst of each.

use crate::tests::session::Session;
use crate::tests::words::Words;
use std::alloc::Global;
use std::process::Abort;
use std::test::Fail as TestFail;

/// The paths of which something is asked.
const WATCHED: &str = "/d /d/f /g /h";

/// What stands at the paths, and the first bytes of the files.
fn state_of(session: &mut Session) -> Result<String, TestFail> {
    let mut state = String::new(session.alloc);
    for path in WATCHED.split(' ') {
        let sight = session.tell_sight(path)?;
        state.push_str(&sight)?;
        let mut words = Words { rest: path };
        let line = format!(in session.alloc; "{} 0 8", words.take())?;
        let read = session.tell_read(&mut Words { rest: &line })?;
        state.push_str(&read)?;
        state.push('\n')?;
    }
    Ok(state)
}

/// What another mount of a medium sees, and how many calls it leaves.
fn seen_on(session: &Session, medium: Vec<u8>) -> Result<(String, u32), TestFail> {
    let mut other = Session::open(session.alloc, medium, session.sector_size)?;
    let state = state_of(&mut other);
    let left = other.calls_left();
    other.close();
    Ok((state?, left))
}

/// Another mount of the medium, after so many bytes of the next call, sees one of two states.
fn sees_either(
    session: &mut Session,
    rt: &impl Abort,
    len: u32,
    before: &str,
    after: &str,
) -> Result<(), TestFail> {
    let medium = session.cut_off(len)?;
    let (state, _) = seen_on(session, medium)?;
    let state = state.as_str();
    assert!(rt; state == before || state == after, "{state}");
    Ok(())
}

/// Makes a change and carries it out, call by call.
fn change_and_look(session: &mut Session, rt: &impl Abort, line: &str) -> Result<(), TestFail> {
    let before = state_of(session)?;
    let mut words = Words { rest: line };
    let word = words.take();
    let code = session.change(word, &mut words)?;
    assert_eq!(rt; code, 0, "at {line}");
    let after = state_of(session)?;
    for _ in 0..session.calls_left() {
        for len in [0u32, 1, 4, 5, 40, 600, 1024] {
            sees_either(session, rt, len, &before, &after)?;
        }
        let left = session.calls_left();
        assert!(rt; session.carry(), "no call is told of");
        assert_eq!(rt; session.calls_left().saturating_add(1), left);
    }
    let (state, left) = seen_on(session, session.medium.clone()?)?;
    assert!(rt; state.as_str() == after.as_str(), "{state}");
    assert_eq!(rt; left, 0);
    Ok(())
}

/// Changes that fill three sectors, clean them and erase them.
const CHANGES: &str = "mkdir /d
create /d/f
write /d/f 0 192*a
write /d/f 100 192*b
truncate /d/f 150
create /g
write /g 0 192*c
rename /d/f /h
write /h 0 192*d
write /h 0 192*e
write /h 0 192*f
clean
erase-dead
remove /g
write /h 1 192*g
unmount";

fn change_all(session: &mut Session, rt: &impl Abort) -> Result<(), TestFail> {
    for line in CHANGES.lines() {
        change_and_look(session, rt, line)?;
    }
    Ok(())
}

#[test]
fn another_mount_sees_what_was_carried_out(rt: HostRuntime) -> Result<(), TestFail> {
    let mut session = Session::erased(rt.alloc(), 6, 1024)?;
    let changed = change_all(&mut session, &rt);
    session.close();
    changed
}

/// Changes, the last of which leaves the copy of a record, and then an erase.
const UP_TO_AN_ERASE: &str = "create /h : Done
create /g : Done
write /h 0 192*a : Done
write /h 0 192*b : Done
write /h 0 192*c : Done
write /h 0 192*d : Done
leave clean : Done
left : 4";

/// The medium when the erase was cut off, so many bytes after its doom.
fn doomed(session: &mut Session, rt: &impl Abort, len: u32) -> Result<Vec<u8>, TestFail> {
    session.play(rt, UP_TO_AN_ERASE)?;
    for _ in 0..3 {
        assert!(rt; session.carry());
    }
    session.cut_off(len)
}

/// Another mount of it leaves the doom and the erase, and sees the files.
const HEALED: &str = "left : 2
look /g : file 0
read /h 190 4 : 2 [dd..]
leave create /x : CallsLeft
next 4 : Done program 4 at 0 first 0
carry : yes
next 0 : Done erase 1024 at 0 first 0
carry : yes
left : 0
read /h 190 4 : 2 [dd..]
create /x : Done
look /g : file 0";

/// So is an opening that was cut off in its turn.
const HEALED_AGAIN: &str = "left : 2
carry : yes
look /x : NotFound
look /h : file 192";

/// Where the first record's gate is erased already the sector is a dead one of the log.
const DEAD: &str = "left : 0
look /g : file 0
read /h 190 4 : 2 [dd..]
create /x : Done
erase-dead : Done
look /g : file 0";

/// Plays a script on each medium of which so many bytes of the erase were carried out.
fn play_on_each(
    rt: &impl Abort,
    alloc: Global,
    lens: &[u32],
    script: &str,
) -> Result<(), TestFail> {
    for len in lens {
        let mut session = Session::erased(alloc, 6, 1024)?;
        let medium = doomed(&mut session, rt, *len);
        session.close();
        Session::open(alloc, medium?, 1024)?.played(rt, script)?;
    }
    Ok(())
}

#[test]
fn an_erase_that_was_cut_off_is_ended(rt: HostRuntime) -> Result<(), TestFail> {
    let alloc = rt.alloc();
    play_on_each(&rt, alloc, &[0, 1, 4, 7], HEALED)?;
    play_on_each(&rt, alloc, &[0, 1, 4, 7], HEALED_AGAIN)?;
    play_on_each(&rt, alloc, &[8, 64, 600, 1024], DEAD)
}
