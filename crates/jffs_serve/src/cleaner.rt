//! The cleaner's rounds: it takes a job, looks at what is published, and asks for copies.

ghost use Rattle.std.specs.Prelude.{◌≡◌, ◌≤◌, List, [], ◌∷◌, ◌++◌, map, length, IfSome, IfNone};
ghost use Rattle.jffs_line.specs.declared.request.Request.{Request};
ghost use Rattle.jffs_line.specs.Requests.{request};
ghost use Rattle.jffs_index.specs.Histories.{BeginsWith, view_of};
ghost use Rattle.jffs_index.specs.Ends.{known, index_of};
ghost use Rattle.jffs_serve.specs.Copies.{HandsInCopies, HandsIn, AreSome, AddsSome};
ghost use Rattle.jffs_serve.specs.Copying.{copies_of, nodes_in, wish_of};
ghost use Rattle.jffs_serve.specs.Cleaning.{DoesRounds, bytes_of};

use crate::copies::{Copying, add_copies, nodes_of};
use crate::jobs::JobEnd;
use crate::pauses::{Ended, Pauses};
use jffs_index::{Reader, View};
use jffs_line::{Hand, NotTaken, Why};
use jffs_node::Node;
use std::alloc::Global;
use std::sync::Wait;

/// How often a copy is offered to a line that is full.
const TRIES: u32 = 1000;

/// The longest sleep at a full line, in microseconds.
const FULL_SLEEP_MAX: u64 = 100;

/// The longest sleep without an image, in microseconds.
const IDLE_SLEEP_MAX: u64 = 1000;

/// What the cleaner did.
#[derive(Clone, Copy, Debug, PartialEq, Eq)]
pub struct CleanerEnd {
    /// How many copies the line accepted.
    pub handed_in: u32,
}

/// What a look found.
#[derive(Drop)]
struct Found {
    closed: bool,
    copies: Vec<Copying>,
}

/// At most `limit` rounds, until the session is closed. In each it looks for an image, and hands in
/// a copy for every record there that still lives. A round without an image ends with a pause.
pub fn clean_loop<R: Wait, H: Hand>(
    rt: &R,
    alloc: Global,
    jobs: &mut JobEnd,
    reader: &mut Reader,
    hand: &mut H,
    limit: u32,
) -> CleanerEnd
    ensures copies { HandsInCopies (H.accepted hand.old) (H.accepted hand.new) result.handed_in }
    ensures end { (H.sender hand.new ≡ H.sender hand.old) × (H.line hand.new ≡ H.line hand.old) }
    ensures reader { (index_of reader.new ≡ index_of reader.old)
        × BeginsWith (known reader.new) (known reader.old) }
    ensures cleans { DoesRounds limit jobs.old jobs.new (known reader.old) (known reader.new)
        (H.accepted hand.old) (H.accepted hand.new) }
{
    clean_until(rt, alloc, jobs, reader, hand, limit, &Ended::new())
}

/// As `clean_loop`, and it also ends once the log thread has ended.
pub fn clean_until<R: Wait, H: Hand>(
    rt: &R,
    alloc: Global,
    jobs: &mut JobEnd,
    reader: &mut Reader,
    hand: &mut H,
    limit: u32,
    ended: &Ended,
) -> CleanerEnd
    ensures copies { HandsInCopies (H.accepted hand.old) (H.accepted hand.new) result.handed_in }
    ensures end { (H.sender hand.new ≡ H.sender hand.old) × (H.line hand.new ≡ H.line hand.old) }
    ensures reader { (index_of reader.new ≡ index_of reader.old)
        × BeginsWith (known reader.new) (known reader.old) }
    ensures cleans { DoesRounds limit jobs.old jobs.new (known reader.old) (known reader.new)
        (H.accepted hand.old) (H.accepted hand.new) }
{
    let mut pauses = Pauses::up_to(IDLE_SLEEP_MAX);
    let mut end = CleanerEnd { handed_in: 0 };
    for _round in 0..limit {
        if ended.is_told() {
            break;
        }
        let image = jobs.take();
        let Some(found) = look(alloc, reader, &image) else {
            pauses.pause(rt, ended);
            continue;
        };
        if found.closed {
            break;
        }
        hand_in_all(rt, hand, found.copies, ended, &mut end);
        if image.is_some() {
            pauses = Pauses::up_to(IDLE_SLEEP_MAX);
        } else {
            pauses.pause(rt, ended);
        }
    }
    end
}

/// Looks once. None: nothing is published any more. Whoever publishes waits for looks, so what
/// takes long is done before: the image is read, and there is room for its copies.
fn look(alloc: Global, reader: &mut Reader, image: &Option<Vec<u8>>) -> Option<Found>
    ensures index { index_of reader.new ≡ index_of reader.old }
    ensures grows { BeginsWith (known reader.new) (known reader.old) }
    ensures found { IfSome result
        (λ found. AreSome found.copies.items
        (copies_of (view_of (known reader.new)).tree (nodes_in (bytes_of image.now)))) }
{
    let nodes = nodes_of(alloc, bytes_in(image));
    let mut copies = Vec::new(alloc);
    // Where it is refused, room is asked for with each copy.
    let _ = copies.reserve(nodes.len());
    find(reader, &nodes, copies)
}

/// Looks once, and adds the copies of these nodes that live then. None: nothing is published any
/// more.
fn find(reader: &mut Reader, nodes: &[Node], copies: Vec<Copying>) -> Option<Found>
    ensures index { index_of reader.new ≡ index_of reader.old }
    ensures grows { BeginsWith (known reader.new) (known reader.old) }
    ensures found { IfSome result
        (λ found. AddsSome copies.items found.copies.items
        (copies_of (view_of (known reader.new)).tree nodes.now)) }
{
    reader.look(
        |view: &View| -> Found
            ensures { AddsSome copies.items result.copies.items
                (copies_of view.now.tree nodes.entry.now) }
        {
            Found {
                closed: view.closed(),
                copies: add_copies(view, nodes, copies),
            }
        },
    )
}

/// No bytes where there is no image.
fn bytes_in(image: &Option<Vec<u8>>) -> &[u8]
    ensures { result.now ≡ bytes_of image.now }
{
    match image {
        Some(image) => image.as_slice(),
        None => &[],
    }
}

/// Hands the copies in, in order, and counts those that are accepted.
fn hand_in_all<R: Wait, H: Hand>(
    rt: &R,
    hand: &mut H,
    copies: Vec<Copying>,
    ended: &Ended,
    end: &mut CleanerEnd,
)
    requires counted { end.old.handed_in ≤ length (H.accepted hand.old) }
    ensures copies { (before : List Request)
        → HandsInCopies before (H.accepted hand.old) end.old.handed_in
        → HandsInCopies before (H.accepted hand.new) end.new.handed_in }
    ensures counted { end.new.handed_in ≤ length (H.accepted hand.new) }
    ensures asked { HandsIn (map wish_of copies.items) (H.accepted hand.old) (H.accepted hand.new) }
    ensures end { (H.sender hand.new ≡ H.sender hand.old) × (H.line hand.new ≡ H.line hand.old) }
{
    for copy in copies {
        if let Some(_seq) = hand_in(rt, hand, copy, ended) {
            end.handed_in += 1;
        }
    }
}

/// Offers a copy, again and again while the line is full, up to `TRIES` times or until the log
/// thread has ended. Answers its number where it was accepted.
fn hand_in<R: Wait, H: Hand>(rt: &R, hand: &mut H, copy: Copying, ended: &Ended) -> Option<u32>
    ensures accepted { IfSome result
        (λ seq. (seq ≡ length (H.accepted hand.new))
        × HandsInCopies (H.accepted hand.old) (H.accepted hand.new) 1) }
    ensures asked { IfSome result
        (λ seq. H.accepted hand.new
        ≡ H.accepted hand.old ++ request (H.sender hand.old) seq (wish_of copy) ∷ []) }
    ensures refused { IfNone result (H.accepted hand.new ≡ H.accepted hand.old) }
    ensures end { (H.sender hand.new ≡ H.sender hand.old) × (H.line hand.new ≡ H.line hand.old) }
{
    let mut pauses = Pauses::up_to(FULL_SLEEP_MAX);
    let mut wish = copy.wish();
    for _ in 0..TRIES {
        match hand.offer(rt, wish) {
            Ok(seq) => return Some(seq),
            Err(
                NotTaken {
                    wish: _wish,
                    why: Why::Spent,
                },
            ) => return None,
            Err(
                NotTaken {
                    wish: back,
                    why: Why::Full,
                },
            ) => wish = back,
        }
        if ended.is_told() {
            break;
        }
        pauses.pause(rt, ended);
    }
    None
}
