//! One inode: its parent and name, and a file's bytes as the fragments that nodes wrote.

ghost use Rattle.std.specs.Prelude.{◌≡◌, ◌≢◌, ◌==◌, ◌&&◌, ◌+◌, ◌-◌, ◌≤◌, ◌++◌, [], Some, None};
ghost use Rattle.std.specs.Prelude.{false, is_some, min, length, take, drop, OnOk, OnErr, bytes_eq};
ghost use Rattle.std.specs.Prelude.{slice_index_or, IfSome};
ghost use Rattle.std.specs.List.{list_all};
ghost use Rattle.jffs_node.specs.Record.{dsize, file_max};
ghost use Rattle.jffs_inodes.specs.Held.{held_after, IsWritableOver, bytes_are_written, is_current};
ghost use Rattle.jffs_inodes.specs.Marked.{HasMarks, MovesMarks, HasByteMarks, LosesByteMarks};
ghost use Rattle.jffs_marks.specs.Marks.{SameMarks};

use crate::fragment::write_over;
use crate::fragment_map::Fragments;
use crate::leaving::lower_all;
use crate::piece::{are_whole, copy_piece, writer_at};
use jffs_marks::Marks;
use jffs_node::{Bytes, Kind, Name, Node};
use std::alloc::{AllocError, Global};
use std::marker::Model;

/// How many bytes are compared at a time.
const CHUNK: usize = 256;

/// What a tree keeps of an inode: its size, the fragments of its bytes with the version that
/// wrote each, and the newest node's version and form.
#[derive(Drop)]
pub struct Inode {
    kind: Kind,
    parent: u32,
    name: Name,
    // In bytes. What no fragment holds is zero.
    size: u32,
    fragments: Fragments,
    newest: u32,
    states_size: bool,
}

impl Model for Inode {
    ghost use Rattle.jffs_inodes.specs.Held.{Held};

    ghost Value = { Held };

    ghost use Rattle.jffs_inodes.specs.Shown.{held_of, IsLaidOut};

    ghost view = { held_of };

    ghost invariant = { IsLaidOut };
}

impl Inode {
    /// One without bytes.
    pub(crate) fn empty(alloc: Global, node: &Node, name: Name) -> Inode
        ensures { result ≡ record {
          entry =
              record { kind = node.now.kind; parent = node.now.parent; name = name; bytes = [] };
          writers = [];
          newest = Some node.now.version;
          states_size = false;
        } }
    {
        Inode {
            kind: node.kind,
            parent: node.parent,
            name,
            size: 0,
            fragments: Fragments::new(alloc),
            newest: node.version,
            states_size: false,
        }
    }

    /// Writes a node over the inode, and moves the marks of its bytes with them. All room is made
    /// before the first change.
    pub(crate) fn write(
        &mut self,
        node: &Node,
        name: Name,
        marks: &mut Marks,
    ) -> Result<(), AllocError>
        requires writable { IsWritableOver self.old node.now name }
        requires marked { HasMarks marks.old node.now self.old }
        ensures ok { OnOk result (self.new ≡ held_after node.now (Some self.old)) }
        ensures marks { OnOk result (MovesMarks marks.old marks.new node.now self.old self.new) }
        ensures err { OnErr result ((self.new ≡ self.old) × SameMarks marks.old marks.new) }
    {
        self.size = write_over(&mut self.fragments, self.size, node, marks)?;
        self.kind = node.kind;
        self.parent = node.parent;
        self.name = name;
        self.newest = node.version;
        self.states_size = node.size.is_some();
        Ok(())
    }

    /// Takes the marks of all bytes of this inode away, before it goes. Precondition: there are
    /// marks for all of them under its number.
    pub fn release(&self, inode: u32, marks: &mut Marks)
        requires { HasByteMarks marks.old inode self.now }
        ensures { LosesByteMarks marks.old marks.new inode self.now }
    {
        lower_all(&self.fragments, inode, marks);
    }

    /// What it is.
    pub fn kind(&self) -> Kind
        ensures { result ≡ self.now.entry.kind }
    {
        self.kind
    }

    /// The directory that it stands in.
    pub fn parent(&self) -> u32
        ensures { result ≡ self.now.entry.parent }
    {
        self.parent
    }

    /// Its name in that directory.
    pub fn name(&self) -> Name
        ensures { result ≡ self.now.entry.name }
    {
        self.name
    }

    /// The version of its newest node.
    pub fn newest(&self) -> u32
        ensures newest { self.now.newest ≡ Some result }
        ensures few { length self.now.writers ≤ file_max }
    {
        self.newest
    }

    /// How many bytes, 0 to 1,048,576; a directory has none.
    pub fn size(&self) -> u32
        ensures { result ≡ length self.now.entry.bytes }
    {
        self.size
    }

    /// Reads bytes from an offset on, as many as there are and as the slice takes.
    pub fn read(&self, offset: usize, out: &mut [u8]) -> usize
        ensures count { result ≡ min (length out.old) (length self.now.entry.bytes - offset) }
        ensures read { out.new
            ≡ take result (drop offset self.now.entry.bytes) ++ drop result out.old }
    {
        let size = self.size as usize;
        let start = offset.min(size);
        let count = out.len().min(size - start);
        let mut done = 0;
        while done < count {
            done += copy_piece(
                &self.fragments,
                (start + done) as u32,
                &mut out[done..count],
            );
        }
        count
    }

    /// What stands now where a record's data were written, if it is one fragment, as it is until a
    /// later write or a truncate cuts it. (A write that is refused for memory may have cut it too,
    /// and has changed no byte.) None for a record without data.
    pub fn whole_data(&self, offset: u32, len: usize) -> Option<&Bytes>
        ensures long { IfSome result
            (λ bytes. (length bytes.now ≡ len) × (length bytes.now ≤ file_max)) }
        ensures inside { IfSome result
            (λ bytes. offset + length bytes.now ≤ length self.now.entry.bytes) }
        ensures stands { IfSome result
            (λ bytes. take (length bytes.now) (drop offset self.now.entry.bytes) ≡ bytes.now) }
    {
        if len == 0 {
            return None;
        }
        let fragment = self.fragments.get(offset)?;
        if fragment.bytes.len() == len {
            Some(&fragment.bytes)
        } else {
            None
        }
    }

    /// The version that wrote the byte at an offset, if one did.
    pub fn writer(&self, offset: u32) -> Option<u32>
        ensures { result ≡ slice_index_or self.now.writers offset None }
    {
        writer_at(&self.fragments, self.size, offset)
    }

    /// Whether each byte has a last writer, or the newest node states the size.
    pub fn is_written(&self) -> bool
        ensures { result ≡ bytes_are_written self.now }
    {
        self.states_size || are_whole(&self.fragments, self.size)
    }

    /// Whether its bytes from the offset on begin with these.
    pub fn is_current(&self, offset: u32, bytes: &[u8]) -> bool
        ensures { result ≡ is_current self.now.entry offset bytes.now }
    {
        if self.size < offset || ((self.size - offset) as usize) < bytes.len() {
            return false;
        }
        let mut chunk = [0u8; CHUNK];
        let mut done = 0;
        while done < bytes.len() {
            let count = CHUNK.min(bytes.len() - done);
            self.read(offset as usize + done, &mut chunk[..count]);
            if chunk[..count] != bytes[done..done + count] {
                return false;
            }
            done += count;
        }
        true
    }

    /// Whether it stands in that directory under that name.
    pub fn is_child(&self, parent: u32, name: &Name) -> bool
        ensures { result ≡ ((self.now.entry.parent == parent)
            && bytes_eq self.now.entry.name name.now) }
    {
        self.parent == parent && self.name == *name
    }
}

impl Clone for Inode {
    ghost is_clone = { λ old new. new ≡ old };

    fn clone(&self) -> Result<Inode, AllocError> {
        Ok(Inode {
            kind: self.kind,
            parent: self.parent,
            name: self.name,
            size: self.size,
            fragments: self.fragments.clone()?,
            newest: self.newest,
            states_size: self.states_size,
        })
    }
}
