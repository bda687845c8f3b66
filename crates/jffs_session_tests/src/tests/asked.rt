//! What an owner asks, and the session's end.

use super::{create, erased, mount, write};
use jffs_core::Cleaned;
use jffs_node::Path;
use jffs_session::Session;
use jffs_tree::{Cause, Outcome, Wish};
use std::test::Fail;

#[test]
fn each_answer_comes_with_its_numbers(rt: HostRuntime) -> Result<(), Fail> {
    let alloc = rt.alloc();
    let mut session = erased(alloc, 6)?;
    assert_eq!(rt;
        session.ask(create(alloc, "/f")?),
        Outcome::Appended {
            inode: 2,
            version: 1,
        }
    );
    assert_eq!(rt;
        session.ask(create(alloc, "/f")?),
        Outcome::Refused(Cause::NameTaken)
    );
    // No answer is kept.
    assert!(rt; session.core().answers().is_empty());
    // The owner's requests are numbered from 1, also those that were refused; a refused one has no
    // node.
    session.ask(write(alloc, "/f", b"x")?);
    let records = session.core().log().records();
    assert_eq!(rt; records.len(), 2);
    Ok(())
}

#[test]
fn a_session_that_changed_nothing_has_no_end_to_write(rt: HostRuntime) -> Result<(), Fail> {
    let alloc = rt.alloc();
    let mut session = erased(alloc, 6)?;
    assert!(rt; !session.is_changed());
    session.ask(create(alloc, "/f")?);
    assert!(rt; session.is_changed());
    assert_eq!(rt; session.unmount(), Outcome::Closed);
    let again = mount(alloc, session.into_core().into_flash())?;
    assert!(rt; again.core().clean());
    assert!(rt; !again.is_changed());
    Ok(())
}

#[test]
fn a_change_erases_what_died_by_it(rt: HostRuntime) -> Result<(), Fail> {
    let alloc = rt.alloc();
    let mut session = erased(alloc, 6)?;
    // A record of 64 bytes and three of 256 fill the first sector. The next one takes over from all
    // of them.
    let long = [b'a'; 192];
    assert_eq!(rt; session.change(create(alloc, "/f")?), Ok(()));
    for _ in 0..4 {
        assert_eq!(rt; session.change(write(alloc, "/f", &long)?), Ok(()));
    }
    assert_eq!(rt; session.core().log().erases(), 1);
    assert_eq!(rt; session.erase_dead(), Ok(0));
    assert_eq!(rt; session.clean_oldest(), Ok(Cleaned::OneSector));
    Ok(())
}

#[test]
fn a_volume_is_opened_where_no_erase_was_cut_off(rt: HostRuntime) -> Result<(), Fail> {
    let alloc = rt.alloc();
    let mut session = erased(alloc, 6)?;
    session.ask(Wish::MakeDir(Path::parse(alloc, "/d")?));
    match Session::open(alloc, session.into_core().into_flash()) {
        Ok(opened) => {
            assert_eq!(rt; opened.sector, None);
            assert!(rt; !opened.session.is_changed());
            Ok(())
        }
        Err(fault) => Err(fault.why.into()),
    }
}
