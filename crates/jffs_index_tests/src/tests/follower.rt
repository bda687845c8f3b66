//! A reader in a thread of its own, while another publishes.
//! What it sees has to be what was published until then: one answer more, one name more.
ghost use Rattle.std.specs.Prelude.{◌≡◌, IfOk};
ghost use Rattle.jffs_index.specs.Histories.{view_of};
ghost use Rattle.jffs_index.specs.Ends.{all_put, index_of, publisher_index};

use crate::tests::source::Source;
use crossbeam_utils::Backoff;
use jffs_index::Reader;
use jffs_tree::Wish;
use std::sync::Wait;
use std::test::Fail;
use std::thread;
use std::thread::Threads;

/// Looks until `count` answers are seen, and answers how many were seen last.
fn look_until(reader: &mut Reader, count: u64) -> u64
    ensures { index_of reader.new ≡ index_of reader.old }
{
    let backoff = Backoff::new();
    let mut last = 0;
    for _ in 0..1_000_000 {
        let seen = reader.look(|view| view.answered());
        last = match seen {
            Some(answered) if answered >= last => answered,
            _ => return last,
        };
        if last >= count {
            return last;
        }
        backoff.snooze();
    }
    last
}

/// Requests the wishes one after another, and publishes each.
fn request_all<W: Wait + Drop>(source: Source<W>, wishes: &Vec<Wish>) -> Result<Source<W>, Fail>
    requires { source.tree ≡ (view_of (all_put source.publisher)).tree }
    ensures { IfOk result
        (λ after. publisher_index after.publisher ≡ publisher_index source.publisher) }
{
    let mut source = source;
    for wish in wishes {
        source.request(wish)?;
        source.publish()?;
    }
    Ok(source)
}

/// How many answers a reader saw.
#[derive(Clone, Copy, Debug, PartialEq, Eq)]
pub(super) struct Seen {
    /// While it looked beside the publisher.
    pub(super) beside: u64,
    /// Once it had learnt what was published.
    pub(super) last: Option<u64>,
}

/// A reader looks in a thread of its own, while all wishes are granted and published.
pub(super) fn follow<R: Threads, W: Wait + Drop + Send>(
    rt: &R,
    source: Source<W>,
    reader: Reader,
    wishes: &Vec<Wish>,
) -> Result<Seen, Fail>
    requires tree { source.tree ≡ (view_of (all_put source.publisher)).tree }
    requires index { index_of reader ≡ publisher_index source.publisher }
{
    let mut reader = reader;
    let wanted = wishes.len() as u64;
    let ((mut reader, beside), source) = thread::join(
        rt,
        move ||
            ensures { index_of result.0 ≡ index_of reader }
        {
            let seen = look_until(&mut reader, wanted);
            (reader, seen)
        },
        move ||
            requires { source.tree ≡ (view_of (all_put source.publisher)).tree }
            ensures { IfOk result
                (λ after. publisher_index after.publisher ≡ publisher_index source.publisher) }
        { request_all(source, wishes) },
    );
    let source = source?;
    reader.learn(source.publisher.tell());
    Ok(Seen {
        beside,
        last: reader.look(|view| view.answered()),
    })
}
