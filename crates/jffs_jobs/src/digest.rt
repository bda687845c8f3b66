//! One number for all that a job gave.

ghost use Rattle.std.specs.Prelude.{◌+◌, ◌≤◌, length};

use crate::fault::Fault;
use jffs_node::ROOT_INODE;
use jffs_tree::{Outcome, Tree};
use std::alloc::Global;

/// How many bytes of a file are read at once.
const PIECE_LEN: u32 = 512;

/// The prime of the hash FNV-1a by Fowler, Noll and Vo.
const PRIME: u64 = 0x0000_0100_0000_01b3;

/// How many bytes a word has.
const WORD_LEN: usize = 8;

/// How many bytes a block of four words has.
const BLOCK_LEN: usize = 32;

/// A hash over numbers: another one for other numbers, or for the same in another order.
#[derive(Clone, Copy, Debug)]
pub(crate) struct Digest {
    sum: u64,
}

impl Digest {
    pub(crate) fn new() -> Digest {
        Digest {
            sum: 0xcbf2_9ce4_8422_2325,
        }
    }

    pub(crate) fn number(&self) -> u64 {
        self.sum
    }

    pub(crate) fn add(&mut self, number: u64) {
        self.sum = mixed(self.sum, number);
    }

    /// Adds bytes in blocks and words, those that are left over, and how many there are.
    pub(crate) fn add_bytes(&mut self, bytes: &[u8]) {
        let mut sum = self.sum;
        for block in 0..bytes.len() / BLOCK_LEN {
            sum = mixed(sum, block_at(bytes, block * BLOCK_LEN));
        }
        for word in bytes.len() / BLOCK_LEN * (BLOCK_LEN / WORD_LEN)..bytes.len() / WORD_LEN {
            sum = mixed(sum, word_at(bytes, word * WORD_LEN));
        }
        let mut rest = 0u64;
        for byte in &bytes[bytes.len() / WORD_LEN * WORD_LEN..] {
            rest = (rest << 8) | u64::from(*byte);
        }
        self.sum = mixed(mixed(sum, rest), bytes.len() as u64);
    }

    /// Adds an optional number.
    pub(crate) fn add_some(&mut self, number: Option<u32>) {
        match number {
            Some(number) => self.add(u64::from(number).saturating_add(1)),
            None => self.add(0),
        }
    }

    /// Adds what a request was answered: a number for its kind, and what it has.
    pub(crate) fn add_outcome(&mut self, outcome: Outcome) {
        match outcome {
            Outcome::Appended { inode, version } => {
                self.add(1);
                self.add(u64::from(inode));
                self.add(u64::from(version));
            }
            Outcome::Copied { version } => {
                self.add(2);
                self.add(u64::from(version));
            }
            Outcome::Closed => self.add(3),
            Outcome::Refused(cause) => {
                self.add(4);
                self.add(u64::from(cause as u8));
            }
        }
    }

    /// Adds a file's size and all its bytes.
    pub(crate) fn add_file(&mut self, tree: &Tree, inode: u32) {
        let size = tree.size(inode);
        self.add_some(size);
        let mut bytes = [0u8; PIECE_LEN as usize];
        for piece in 0..size.unwrap_or(0).div_ceil(PIECE_LEN) {
            let count = tree.read(inode, piece.saturating_mul(PIECE_LEN), &mut bytes);
            self.add_bytes(bytes.get(..count).unwrap_or(&[]));
        }
    }

    /// Adds all that stands in a tree: the names of each directory, and for each what it names.
    pub(crate) fn add_tree(&mut self, alloc: Global, tree: &Tree) -> Result<(), Fault> {
        let mut directories = Vec::new(alloc);
        directories.push(ROOT_INODE)?;
        for next in 0..usize::MAX {
            let Some(directory) = directories.get(next).copied() else {
                break;
            };
            self.add(u64::from(directory));
            let names = tree.names(directory)?;
            for (name, inode) in names.iter() {
                self.add_bytes(name.bytes());
                self.add_entry(tree, *inode);
                if tree.is_directory(*inode) {
                    directories.push(*inode)?;
                }
            }
        }
        Ok(())
    }

    /// Adds an inode, whether it is a directory, its own parent and name, and the bytes of a file.
    fn add_entry(&mut self, tree: &Tree, inode: u32) {
        self.add(u64::from(inode));
        self.add(u64::from(tree.is_directory(inode)));
        if let Some((parent, name)) = tree.parent_name(inode) {
            self.add(u64::from(parent));
            self.add_bytes(name.bytes());
        }
        self.add_file(tree, inode);
    }
}

/// The sum after a number. It is another one for another number, and for another sum before: so a
/// change of one number alone is never lost.
fn mixed(sum: u64, number: u64) -> u64 {
    (sum ^ number).wrapping_mul(PRIME).rotate_left(29)
}

/// One number for the four words at a position. Each weighs something else, and an odd number: so
/// it is another one where one word is.
fn block_at(bytes: &[u8], at: usize) -> u64
    requires { at + BLOCK_LEN ≤ length bytes.now }
{
    word_at(bytes, at)
        .wrapping_add(word_at(bytes, at + 8).wrapping_mul(0x9e37_79b9_7f4a_7c15))
        .wrapping_add(word_at(bytes, at + 16).wrapping_mul(0xbf58_476d_1ce4_e5b9))
        .wrapping_add(word_at(bytes, at + 24).wrapping_mul(0x94d0_49bb_1331_11eb))
}

/// The number of 64 bits that stands at a position.
fn word_at(bytes: &[u8], at: usize) -> u64
    requires { at + WORD_LEN ≤ length bytes.now }
{
    u64::from_le_bytes([
        bytes[at],
        bytes[at + 1],
        bytes[at + 2],
        bytes[at + 3],
        bytes[at + 4],
        bytes[at + 5],
        bytes[at + 6],
        bytes[at + 7],
    ])
}
