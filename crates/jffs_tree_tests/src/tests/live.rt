//! How often versions are live.
//! Marks are counted on paper: one for each byte that a version wrote last, one for the newest.

use super::*;
use jffs_node::Path;

/// Each of these versions has as many marks, all of them in the first file.
fn has_marks(rt: &impl Abort, session: &Session, wanted: &[(u32, u32)]) {
    let tree = &session.tree;
    for (version, marks) in wanted {
        let told = (
            tree.marks(*version),
            tree.live(2, *version),
            tree.any_live(*version, *version),
        );
        let is_live = *marks != 0;
        assert_eq!(rt; told, (*marks, is_live, is_live), "of {version}");
    }
}

/// What is played, and the marks that each of these versions has then.
type Row<'a> = (&'a str, &'a [(u32, u32)]);

/// Plays one row after the other in a new session.
fn played(rt: &impl Abort, alloc: Global, rows: &[Row<'_>]) -> Result<Session, Fail> {
    let mut session = Session::new(alloc);
    for (script, wanted) in rows {
        session.play(rt, script)?;
        has_marks(rt, &session, wanted);
    }
    Ok(session)
}

#[test]
fn later_writes_cut_a_record_in_three(rt: HostRuntime) -> Result<(), Fail> {
    let session = played(
        &rt,
        rt.alloc(),
        &[
            (
                "create /f
                 write /f 0 abcdefghi",
                &[(1, 0), (2, 10)],
            ),
            ("write /f 2 X", &[(1, 0), (2, 8), (3, 2)]),
            ("write /f 5 YZ", &[(1, 0), (2, 6), (3, 1), (4, 3)]),
        ],
    )?;
    session.contents(&rt, 2, b"abXdeYZhi");
    Ok(())
}

#[test]
fn one_byte_keeps_a_record_live(rt: HostRuntime) -> Result<(), Fail> {
    played(
        &rt,
        rt.alloc(),
        &[
            (
                "create /f
                 write /f 0 hello
                 write /f 0 HELL",
                &[(1, 0), (2, 1), (3, 5)],
            ),
            ("write /f 4 O", &[(1, 0), (2, 0), (3, 4), (4, 2)]),
        ],
    )?;
    Ok(())
}

#[test]
fn marks_follow_a_truncate_a_hole_a_rename_and_a_remove(rt: HostRuntime) -> Result<(), Fail> {
    let session = played(
        &rt,
        rt.alloc(),
        &[
            (
                "create /f
                 write /f 0 hello
                 truncate /f 3",
                &[(1, 0), (2, 3), (3, 1)],
            ),
            ("write /f 6 xy", &[(1, 0), (2, 3), (3, 0), (4, 3)]),
            ("rename /f /g", &[(1, 0), (2, 3), (3, 0), (4, 2), (5, 1)]),
            (
                "remove /g",
                &[(1, 0), (2, 0), (3, 0), (4, 0), (5, 0), (6, 0)],
            ),
        ],
    )?;
    assert!(rt; !session.tree.any_live(0, u32::MAX));
    Ok(())
}

/// Of two files written in turn the versions 4 and 5 are live.
#[test]
fn both_ends_of_a_range_count(rt: HostRuntime) -> Result<(), Fail> {
    let mut session = Session::new(rt.alloc());
    session.play(
        &rt,
        "create /f
         create /g
         write /f 0 a
         write /g 0 b
         write /f 0 c",
    )?;
    let tree = &session.tree;
    for (first, last, live) in [
        (1, 3, false),
        (3, 4, true),
        (4, 4, true),
        (5, 5, true),
        (5, 9, true),
        (6, 9, false),
        (5, 4, false),
        (0, u32::MAX, true),
    ] {
        assert_eq!(rt; tree.any_live(first, last), live, "from {first} to {last}");
    }
    Ok(())
}

/// Two files in turn, with dead versions between live ones.
fn with_gaps(rt: &impl Abort, alloc: Global) -> Result<Session, Fail> {
    let mut session = Session::new(alloc);
    session.play(
        rt,
        "create /f
         create /g
         write /f 0 abcdefgh
         write /g 0 abcdefgh
         write /f 1 X
         write /g 2 Y
         write /f 3 XY
         write /f 3 YX
         write /g 2 Z
         write /f 6 XYZ
         rename /g /h
         write /f 9 X
         write /h 0 abcdefghi
         write /f 9 Y",
    )?;
    Ok(session)
}

/// Whichever number is given, the answer is that of `live`.
#[test]
fn near_any_entry_the_answer_is_the_same(rt: HostRuntime) -> Result<(), Fail> {
    let session = with_gaps(&rt, rt.alloc())?;
    let tree = &session.tree;
    for version in 0..17 {
        for inode in 1..5 {
            let wanted = tree.live(inode, version);
            for start in 0..20 {
                let mut near = start;
                let told = tree.live_near(inode, version, &mut near);
                assert_eq!(rt; told, wanted, "of {version} in {inode} from {start}");
            }
        }
    }
    Ok(())
}

/// One number is passed on, while the versions rise and while they fall.
#[test]
fn near_the_last_answer_the_next_is_the_same(rt: HostRuntime) -> Result<(), Fail> {
    let session = with_gaps(&rt, rt.alloc())?;
    let tree = &session.tree;
    let mut rising = 0;
    let mut falling = 0;
    for step in 0..17 {
        let version = 16 - step;
        for inode in 2..4 {
            let up = tree.live_near(inode, step, &mut rising);
            assert_eq!(rt; up, tree.live(inode, step), "of {step} in {inode}");
            let down = tree.live_near(inode, version, &mut falling);
            assert_eq!(rt; down, tree.live(inode, version), "of {version} in {inode}");
        }
    }
    Ok(())
}

/// Of versions 2 to 5, which all live, each stands just before the one before it.
#[test]
fn the_next_version_is_found_beside_the_last(rt: HostRuntime) -> Result<(), Fail> {
    let session = played(
        &rt,
        rt.alloc(),
        &[(
            "create /f
             write /f 0 a
             write /f 1 b
             write /f 2 c
             write /f 3 d",
            &[(1, 0), (2, 1), (3, 1), (4, 1), (5, 2)],
        )],
    )?;
    let mut near = 0;
    for (version, wanted) in [(2, 3), (3, 2), (4, 1), (5, 0)] {
        assert!(rt; session.tree.live_near(2, version, &mut near));
        assert_eq!(rt; near, wanted, "after {version}");
    }
    Ok(())
}

/// Versions 4 and 5 live: each file was written over once, or written since its creation.
#[test]
fn the_next_version_that_lives_is_found_from_each_on(rt: HostRuntime) -> Result<(), Fail> {
    let mut session = Session::new(rt.alloc());
    session.play(
        &rt,
        "create /f
         write /f 0 hello
         create /g
         write /f 0 HELLO
         write /g 0 x",
    )?;
    let tree = &session.tree;
    for (from, wanted) in [
        (0, Some((4, 2))),
        (4, Some((4, 2))),
        (5, Some((5, 3))),
        (6, None),
    ] {
        assert_eq!(rt; tree.next_live(from), wanted, "from {from}");
    }
    for (first, last, wanted) in [
        (0, 3, None),
        (0, 4, Some(4)),
        (4, 9, Some(4)),
        (5, 5, Some(5)),
        (6, 9, None),
    ] {
        assert_eq!(rt; tree.first_live(first, last), wanted, "from {first}");
    }
    Ok(())
}

/// Memory is ample, so no call is to be made again.
#[test]
fn nodes_are_decided_and_taken_in_at_the_first_call(rt: HostRuntime) -> Result<(), Fail> {
    let mut tree = Tree::new(rt.alloc());
    for version in 1..40 {
        let node = first_decided(rt.alloc(), &tree, version)?;
        assert!(rt; tree.can_apply(&node));
        tree.apply(&node)?;
    }
    assert!(rt; tree.is_directory(1) && !tree.is_directory(2));
    assert_eq!(rt; tree.size(2), Some(75));
    Ok(())
}

/// The creation of `/f`, or a write of one byte in each second place.
fn first_decided(alloc: Global, tree: &Tree, version: u32) -> Result<Node, Fail> {
    let path = Path::parse(alloc, "/f")?;
    let wish = if version == 1 {
        Wish::Create(path)
    } else {
        Wish::Write {
            path,
            offset: version.saturating_sub(2).saturating_mul(2),
            bytes: jffs_node::copied(alloc, b"x")?,
        }
    };
    let limits = Limits {
        data_max: 192,
        next_inode: Some(2),
        next_version: Some(version),
    };
    Ok(tree.decide(limits, &wish)?.with(version, 1, version))
}
