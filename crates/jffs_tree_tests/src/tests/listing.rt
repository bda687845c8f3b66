//! A directory is gone through name by name.
//! What stands there is counted from the script; names are in the order of their bytes.

use super::*;

/// `/d` is inode 2, `/d/c` inode 6, `/e` inode 8, `/f` inode 11.
const STANDING: &str = "mkdir /d
     create /d/b
     create /d/ab
     create /d/a
     mkdir /d/c
     create /d/c/x
     create /e
     create /d/bb
     create /d/B
     mkdir /f";

/// The names in `/d`, each with its inode.
const IN_ORDER: [(&str, u32); 6] = [
    ("B", 10),
    ("a", 5),
    ("ab", 4),
    ("b", 3),
    ("bb", 9),
    ("c", 6),
];

#[test]
fn a_directory_is_gone_through_name_by_name(rt: HostRuntime) -> Result<(), Fail> {
    let mut session = Session::new(rt.alloc());
    session.play(&rt, STANDING)?;
    let listed = names(&session.tree, 2)?;
    assert_eq!(rt; listed.len(), IN_ORDER.len());
    for (number, wanted) in IN_ORDER.iter().enumerate() {
        let before = entry_before(&listed, number);
        is_entry(&rt, session.tree.entry_after(2, before), *wanted);
        let name = name_before(&listed, number);
        is_entry(&rt, session.tree.name_after(2, name), *wanted);
        is_entry(&rt, listed.get(number).copied(), *wanted);
    }
    let last = listed.last().copied();
    assert!(rt; session.tree.entry_after(2, last).is_none());
    Ok(())
}

/// The entry before the one of a number; `None` before the first.
fn entry_before(listed: &[(Name, u32)], number: usize) -> Option<(Name, u32)> {
    listed.get(number.wrapping_sub(1)).copied()
}

fn name_before(listed: &[(Name, u32)], number: usize) -> Option<Name> {
    listed.get(number.wrapping_sub(1)).map(|entry| entry.0)
}

fn is_entry(rt: &impl Abort, found: Option<(Name, u32)>, wanted: (&str, u32)) {
    let (text, inode) = wanted;
    let is = match found {
        Some((name, stands)) => name.bytes() == text.as_bytes() && stands == inode,
        None => false,
    };
    assert!(rt; is, "at {text}");
}

/// The given name needn't be there, and what isn't a directory has no names.
#[test]
fn a_name_after_one_that_is_gone(rt: HostRuntime) -> Result<(), Fail> {
    let mut session = Session::new(rt.alloc());
    session.play(&rt, STANDING)?;
    let given = session.tree.name_after(2, None).ok_or("no name")?;
    session.play(&rt, "remove /d/B")?;
    is_entry(&rt, session.tree.name_after(2, Some(given.0)), ("a", 5));
    is_entry(&rt, session.tree.name_after(1, None), ("d", 2));
    for inode in [3, 10, 11, 12] {
        assert!(rt; session.tree.name_after(inode, None).is_none());
    }
    Ok(())
}
