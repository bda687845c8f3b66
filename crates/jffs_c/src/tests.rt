//! Tests of the functions of the header, called as a program in C calls them. They stand in this
//! crate since no other can depend on a static library.
//!
//! What is expected comes from the pages: the causes from docs/SCRIPT.md, the bytes from
//! docs/FORMAT.md, the phases from docs/C.md. No function here answers NotNeeded or Stale, which a
//! copy is refused for. Memory and Device come where memory is refused, as the sweep does at each
//! allocation of these tests; no run of the gate does.

mod handles;
mod images;
mod looks;
mod media;
mod openings;
mod session;
mod words;

use crate::exports::{pg_name, pg_text};
use crate::tests::session::Session;
use crate::tests::words::Words;
use std::alloc::Global;
use std::process::Abort;
use std::test::Fail as TestFail;

#[test]
fn each_change_is_made_and_seen(rt: HostRuntime) -> Result<(), TestFail> {
    Session::erased(rt.alloc(), 6, 1024)?.played(
        &rt,
        "is-clean : no
        mkdir /d : Done
        create /d/f : Done
        look / : directory 0
        look /d : directory 0
        look /d/f : file 0
        write /d/f 0 hello : Done
        read /d/f 0 8 : 5 [hello...]
        read /d/f 2 2 : 2 [ll]
        read /d/f 5 2 : 0 [..]
        read /d/f 6 2 : 0 [..]
        read /d/f 0 0 : 0 []
        truncate /d/f 2 : Done
        read /d/f 0 4 : 2 [he..]
        write /d/f 1 192*x : Done
        look /d/f : file 193
        rename /d/f /g : Done
        look /d/f : NotFound
        read /g 191 4 : 2 [xx..]
        remove /g : Done
        look /g : NotFound
        rename /d /e : Done
        remove /e : Done
        unmount : Done
        is-clean : yes
        create /h : Done
        is-clean : no",
    )
}

/// What is refused of a change or a look, and what they write then.
const REFUSALS: &str = "mkdir /d : Done
create /d/f : Done
create /f : Done
create / : RootFixed
mkdir / : RootFixed
remove / : RootFixed
rename / /x : RootFixed
rename /f / : RootFixed
create /x/y : NoParent
mkdir /f/y : NoParent
rename /f /x/y : NoParent
create /f : NameTaken
mkdir /d : NameTaken
rename /f /d : NameTaken
remove /x : NotFound
write /x 0 a : NotFound
truncate /x 1 : NotFound
rename /x /y : NotFound
write /d 0 a : IsDirectory
truncate /d 1 : IsDirectory
rename /d /e/d : NoParent
mkdir /e : Done
rename /d /e/d : IsDirectory
remove /d : NotEmpty
write /f 0 193*a : DataLong
write /f 1048576 a : FileLong
truncate /f 1048577 : FileLong
look /x : NotFound
look /f/x : NotFound
read /x 0 1 : 77 [.] NotFound
read /d 0 1 : 77 [.] IsDirectory
entry /x 0 20 : [....................] 77 NotFound
entry /f 0 20 : [....................] 77 Nothing
entry /d 1 20 : [....................] 77 Nothing
entry / 0 1 : [d] 1 directory 0
entry / 0 0 : [] 77 BufferShort
entry / 2 3 : [f..] 1 file 0
entry / 3 3 : [...] 77 Nothing
look /f : file 0
left : 0
carried : Nothing
failed : Nothing
next 64 : Nothing program 7 at 7 first 0
look / : directory 0";

#[test]
fn each_refusal_has_its_code(rt: HostRuntime) -> Result<(), TestFail> {
    Session::erased(rt.alloc(), 6, 1024)?.played(&rt, REFUSALS)
}

#[test]
fn a_path_that_is_none_is_told_by_its_fault(rt: HostRuntime) -> Result<(), TestFail> {
    Session::erased(rt.alloc(), 6, 1024)?.played(
        &rt,
        "create f : PathNoSlash
        mkdir  : PathNoSlash
        remove /a//b : PathNameEmpty
        look /a/ : PathNameEmpty
        write /abcdefghijklmnopqrstu 0 a : PathNameLong
        truncate /abcdefghijklmnopqrstu 1 : PathNameLong
        rename /f /a/abcdefghijklmnopqrstu : PathNameLong
        rename x /f : PathNoSlash
        read /é 0 1 : 77 [.] PathNameByte
        entry /a/é 0 1 : [.] 77 PathNameByte
        create /1/2/3/4/5/6/7/8/9 : PathDeep
        look /1/2/3/4/5/6/7/8/9 : PathDeep
        look /1/2/3/4/5/6/7/8 : NotFound",
    )
}

#[test]
fn sizes_at_each_limit(rt: HostRuntime) -> Result<(), TestFail> {
    Session::erased(rt.alloc(), 64, 16384)?.played(
        &rt,
        "longest : 4032 168 20 8 1048576
        create /f : Done
        write /f 0 4033*a : DataLong
        write /f 0 4032*a : Done
        look /f : file 4032
        truncate /f 100000 : Done
        truncate /f 100001 : Done
        truncate /f 999999 : Done
        look /f : file 999999
        write /f 1048575 ab : FileLong
        write /f 1048575 b : Done
        look /f : file 1048576
        truncate /f 1048577 : FileLong
        truncate /f 4294967295 : FileLong
        write /f 4294967295 b : FileLong
        read /f 1048575 4 : 1 [b...]",
    )
}

/// Calls of the device, told of and taken one by one.
const TOLD: &str = "leave create /f : Done
left : 2
next 63 : BufferShort program 64 at 0 first 0
next 64 : Done program 64 at 0 first 74
next 99 : Done program 64 at 0 first 74
leave create /g : CallsLeft
leave mkdir /g : CallsLeft
leave remove /f : CallsLeft
leave write /f 0 a : CallsLeft
leave truncate /f 1 : CallsLeft
leave rename /f /g : CallsLeft
leave unmount : CallsLeft
leave clean : CallsLeft
leave erase-dead : CallsLeft
look /f : file 0
carried : Done
left : 1
leave create /g : CallsLeft
next 0 : BufferShort program 1 at 7 first 0
next 1 : Done program 1 at 7 first 0
carried : Done
left : 0
next 1 : Nothing program 7 at 7 first 0
carried : Nothing
create /g : Done
write /f 0 192*a : Done
write /f 0 192*b : Done
write /f 0 192*c : Done
write /f 0 192*d : Done
leave clean : Done
left : 4
carried : Done
carried : Done
next 3 : BufferShort program 4 at 0 first 0
next 4 : Done program 4 at 0 first 0
carried : Done
next 0 : Done erase 1024 at 0 first 0
look /f : file 192
carried : Done
left : 0";

#[test]
fn calls_are_told_one_after_another(rt: HostRuntime) -> Result<(), TestFail> {
    Session::erased(rt.alloc(), 6, 1024)?.played(&rt, TOLD)
}

#[test]
fn after_a_failure_all_is_refused(rt: HostRuntime) -> Result<(), TestFail> {
    Session::erased(rt.alloc(), 6, 1024)?.played(
        &rt,
        "create /f : Done
        leave write /f 0 hello : Done
        read /f 0 5 : 5 [hello]
        carried : Done
        left : 1
        failed : Done
        left : 0
        next 64 : Failed program 7 at 7 first 0
        carried : Failed
        failed : Failed
        create /g : Failed
        unmount : Failed
        clean : Failed
        erase-dead : Failed
        look /f : Failed
        read /f 0 5 : 77 [.....] Failed
        entry / 0 3 : [...] 77 Failed
        longest : Failed
        usage : Failed
        wants-cleaning : Failed
        is-clean : Failed",
    )
}

#[test]
fn cleaning_and_how_full_a_volume_is(rt: HostRuntime) -> Result<(), TestFail> {
    Session::erased(rt.alloc(), 6, 1024)?.played(
        &rt,
        "usage : 6 1024 6 0 0 1408
        clean : Nothing
        erase-dead : Done
        create /f : Done
        clean : Nothing
        usage : 6 1024 5 1 64 1408
        write /f 0 192*a : Done
        write /f 0 192*b : Done
        write /f 0 192*c : Done
        write /f 0 192*d : Done
        usage : 6 1024 4 5 256 1408
        wants-cleaning : no
        clean : Done
        read /f 190 4 : 2 [dd..]
        usage : 6 1024 5 1 256 1408",
    )
}

#[test]
fn the_last_version_and_the_last_inode(rt: HostRuntime) -> Result<(), TestFail> {
    let alloc = rt.alloc();
    Session::open(alloc, images::of_last_inode(alloc)?, 1024)?.played(
        &rt,
        "look /a : directory 0
        create /f : InodesSpent
        rename /a /b : Done",
    )?;
    Session::open(alloc, images::of_last_version(alloc)?, 1024)?.played(
        &rt,
        "look /a : directory 0
        create /f : VersionsSpent
        remove /a : VersionsSpent
        unmount : VersionsSpent
        look /a : directory 0",
    )
}

/// Files with each of 300 names in one directory are made.
fn make_names(session: &mut Session, rt: &impl Abort) -> Result<(), TestFail> {
    session.play(rt, "mkdir /d : Done")?;
    for number in 0..300u32 {
        let line = format!(in session.alloc; "create /d/n{number:03} : Done")?;
        session.play(rt, &line)?;
    }
    Ok(())
}

/// They are told in the order of their bytes.
fn tell_names(session: &mut Session, rt: &impl Abort) -> Result<(), TestFail> {
    for number in 0..300u32 {
        let line = format!(in session.alloc; "entry /d {number} 4 : [n{number:03}] 4 file 0")?;
        session.play(rt, &line)?;
    }
    session.play(
        rt,
        "entry /d 300 4 : [....] 77 Nothing\nentry /d 299 3 : [...] 77 BufferShort",
    )
}

#[test]
fn each_of_300_names_is_told(rt: HostRuntime) -> Result<(), TestFail> {
    let mut session = Session::erased(rt.alloc(), 16, 4096)?;
    let told = match make_names(&mut session, &rt) {
        Ok(()) => tell_names(&mut session, &rt),
        Err(fail) => Err(fail),
    };
    session.close();
    told
}

/// Names one after another, the same one twice, one before it, one far after it, names of another
/// directory between them, and each change between two of them.
const IN_TURNS: &str = "mkdir /d : Done
    create /d/b : Done
    create /d/d : Done
    create /d/f : Done
    mkdir /e : Done
    create /e/x : Done
    entry /d 0 1 : [b] 1 file 0
    entry /d 1 1 : [d] 1 file 0
    entry /d 1 1 : [d] 1 file 0
    entry /e 1 1 : [.] 77 Nothing
    entry /e 0 1 : [x] 1 file 0
    entry /d 2 1 : [f] 1 file 0
    entry /d 3 1 : [.] 77 Nothing
    entry /d 2 0 : [] 77 BufferShort
    entry /d 0 1 : [b] 1 file 0
    create /d/a : Done
    entry /d 1 1 : [b] 1 file 0
    create /d/c : Done
    entry /d 2 1 : [c] 1 file 0
    remove /d/d : Done
    entry /d 3 1 : [f] 1 file 0
    entry /d 4 1 : [.] 77 Nothing
    create /d/a : NameTaken
    entry /d 0 1 : [a] 1 file 0
    entry / 0 1 : [d] 1 directory 0
    entry / 1 1 : [e] 1 directory 0
    entry /d/a 0 1 : [.] 77 Nothing
    entry /d 1 1 : [b] 1 file 0";

#[test]
fn names_are_told_in_any_turn(rt: HostRuntime) -> Result<(), TestFail> {
    Session::erased(rt.alloc(), 8, 1024)?.played(&rt, IN_TURNS)
}

/// A path of so many bytes: names of 20 bytes, and one of the rest.
fn path_of(alloc: Global, len: usize) -> Result<String, TestFail> {
    let mut path = String::new(alloc);
    for at in 0..len {
        path.push(if at % 21 == 0 { '/' } else { 'a' })?;
    }
    Ok(path)
}

/// A file is made at a path, and a directory in its place.
fn stands_at(session: &mut Session, rt: &impl Abort, len: usize) -> Result<(), TestFail> {
    let path = path_of(session.alloc, len)?;
    let script = format!(in session.alloc;
        "look {path} : NotFound
        create {path} : Done
        look {path} : file 0
        write {path} 0 a : Done
        read {path} 0 2 : 1 [a.]
        entry {path} 0 1 : [.] 77 Nothing
        remove {path} : Done
        read {path} 0 2 : 77 [..] NotFound
        entry {path} 0 1 : [.] 77 NotFound
        mkdir {path} : Done
        look {path} : directory 0"
    )?;
    session.play(rt, &script)?;
    if len % 21 != 0 {
        let script = format!(in session.alloc; "remove {path} : Done")?;
        session.play(rt, &script)?;
    }
    Ok(())
}

fn stand_at_each(session: &mut Session, rt: &impl Abort) -> Result<(), TestFail> {
    for len in 2..169usize {
        if len % 21 != 1 {
            stands_at(session, rt, len)?;
        }
    }
    Ok(())
}

#[test]
fn paths_of_each_length_lead_to_what_stands_there(rt: HostRuntime) -> Result<(), TestFail> {
    let mut session = Session::erased(rt.alloc(), 16, 4096)?;
    let stood = stand_at_each(&mut session, &rt);
    session.close();
    stood
}

/// Writes more and more of a file, until it is refused; the name of the refusal is answered.
fn fill(session: &mut Session) -> Result<String, TestFail> {
    for piece in 0..200u32 {
        let line = format!(in session.alloc; "/f {} 192*a", piece.saturating_mul(192))?;
        let code = session.change("write", &mut Words { rest: &line })?;
        session.carry_all();
        if code != 0 {
            return session.name(code);
        }
    }
    Err("it is never full".into())
}

fn fill_and_look(session: &mut Session, rt: &impl Abort) -> Result<(), TestFail> {
    session.play(
        rt,
        "mkdir /d : Done\ncreate /f : Done\nwrite /f 0 abcd : Done",
    )?;
    let refusal = fill(session)?;
    assert_eq!(rt; refusal.as_str(), "NoSpace");
    session.play(
        rt,
        "look /d : directory 0\nread /f 190 4 : 4 [aaaa]\nleft : 0",
    )
}

#[test]
fn a_full_volume_refuses_and_can_be_read(rt: HostRuntime) -> Result<(), TestFail> {
    let mut session = Session::erased(rt.alloc(), 6, 1024)?;
    let seen = fill_and_look(&mut session, &rt);
    session.close();
    seen
}

/// The name of a code, and what it says.
fn has_words(rt: &impl Abort, number: u32, name: &str, text: &str) {
    let mut buffer = [0; 48];
    let len = pg_name(number, &mut buffer);
    assert!(rt; buffer.get(..len) == Some(name.as_bytes()), "{name}");
    let len = pg_text(number, &mut buffer);
    assert!(rt; buffer.get(..len) == Some(text.as_bytes()), "{text}");
    assert!(rt; pg_name(number, &mut buffer[..3]) == 0);
    assert!(rt; pg_text(number, &mut buffer[..3]) == 0);
}

/// Each code's name, and what it says, in the order of the header.
const WORDS: &str = "Done: done
RootFixed: the root stays as it is
NoParent: the directory of the path isn't there
NameTaken: the path is taken
NotFound: nothing stands at the path
IsDirectory: this can't be done to a directory
DataLong: the data is too long for one node
FileLong: the file would be too long
NotEmpty: the directory isn't empty
NotNeeded: no live node has this version
Stale: the copy isn't current
InodesSpent: no inode number is left
VersionsSpent: no version is left
Memory: memory was refused
NoSpace: the log has no room
Device: the flash failed
Failed: the flash failed earlier
CallsLeft: calls of the device are left
Nothing: there is none
BufferShort: the buffer is too short
PathNoSlash: a path begins with a slash
PathNameEmpty: a name is empty
PathNameLong: a name is longer than 20 bytes
PathNameByte: a name has a byte that is not allowed
PathDeep: a path has more than 8 names
Geometry: no volume has these sizes
BadRecord: a record is bad
NoErased: no sector is erased
Scattered: the erased sectors are scattered
BadOrder: the versions of the log don't rise
BadTree: the nodes of the log make no tree";

#[test]
fn each_code_has_its_words(rt: HostRuntime) -> Result<(), TestFail> {
    let mut number = 0u32;
    for line in WORDS.lines() {
        let (name, text) = line.split_once(": ").ok_or("a line without a text")?;
        has_words(&rt, number, name, text);
        number = number.saturating_add(1);
    }
    assert_eq!(&rt; number, 31);
    let mut buffer = [0; 48];
    assert!(&rt; pg_name(31, &mut buffer) == 0);
    assert!(&rt; pg_text(u32::MAX, &mut buffer) == 0);
    Ok(())
}
