//! Names of files and directories.

ghost use Rattle.jffs_node.specs.declared.name.TheConstants.{NAME_MAX};
ghost use Rattle.std.specs.Prelude.{◌≡◌, ◌≤◌, length, Some, None, if◌then◌else◌, refl, bytes_eq};
ghost use Rattle.std.specs.Prelude.{IsTrue};
ghost use Rattle.jffs_node.specs.Name.{is_name, is_name_byte as name_byte_test};
ghost use Rattle.jffs_node.specs.Reading.{name_numbers};
ghost use Rattle.std.specs.List.{list_all};
ghost use Rattle.std.specs.Ordering.{nat_cmp};
ghost use Rattle.std.specs.Cmp.{partial_equiv_from_equiv};
ghost use Rattle.std.specs.Cmp.Lexicographic.{slice_cmp, nat_list_eq_equiv, nat_list_cmp_total};
ghost use Rattle.std.specs.Cmp.Lexicographic.{texts_ties, texts_po};

use crate::words::{long_at, word_at};
use std::alloc::Global;
use std::cmp::Ordering;
use std::default::MadeWith;
use std::marker::Model;

/// The most bytes of a name: what the header has room for after its numbers.
pub const NAME_MAX: usize = 20;

/// The only byte of the name that stands where a list has none yet.
const PLACEHOLDER: u8 = b'-';

/// A name: 1 to 20 bytes, each from `21` to `7E` but not `/`. Names are ordered by their bytes.
#[derive(Clone, Copy)]
pub struct Name {
    bytes: [u8; NAME_MAX],
    length: u8,
}

impl Model for Name {
    ghost use Rattle.std.specs.Prelude.{List, ℕ};

    ghost Value = { List ℕ };

    ghost use Rattle.jffs_node.specs.Name.{shown, fields, IsStored, fields_of_shown};

    ghost view = { shown };

    ghost invariant = { IsStored };

    ghost inverse = { fields };

    ghost inverse_ok = { fields_of_shown };
}

impl Name {
    /// The name that has these bytes; `None` where a name can't have them. Takes no memory.
    pub fn from_bytes(bytes: &[u8]) -> Option<Name>
        ensures { result ≡ (if is_name bytes.now then Some bytes.now else None) }
    {
        if spells_name(bytes) {
            Some(Name::spelled(bytes))
        } else {
            None
        }
    }

    /// The name that bytes spell.
    pub(crate) fn spelled(bytes: &[u8]) -> Name
        requires { IsTrue (is_name bytes.now) }
        ensures { result ≡ bytes.now }
    {
        let mut padded = [0; NAME_MAX];
        padded[..bytes.len()].copy_from_slice(bytes);
        Name {
            bytes: padded,
            length: bytes.len() as u8,
        }
    }

    /// The bytes of the name, 1 to 20.
    pub fn bytes(&self) -> &[u8]
        ensures value { result.now ≡ self.now }
        ensures lawful { IsTrue (is_name self.now) }
        ensures short { length result.now ≤ NAME_MAX }
    {
        &self.bytes[..self.length as usize]
    }

    /// The stored bytes as numbers, the first byte highest. No byte of a name is zero, as those
    /// after it are, so names have the order of these numbers.
    fn numbers(&self) -> (u64, u64, u32)
        ensures value { result ≡ name_numbers self.now }
        ensures lawful { IsTrue (is_name self.now) }
    {
        (
            long_at(&self.bytes, 0),
            long_at(&self.bytes, 8),
            word_at(&self.bytes, 16),
        )
    }
}

/// Whether bytes spell a name.
fn spells_name(bytes: &[u8]) -> bool
    ensures { result ≡ is_name bytes.now }
{
    !bytes.is_empty() && bytes.len() <= NAME_MAX && are_name_bytes(bytes)
}

/// Whether each byte may stand in a name.
pub(crate) fn are_name_bytes(bytes: &[u8]) -> bool
    ensures { result ≡ list_all name_byte_test bytes.now }
{
    bytes.iter().all(|b| is_name_byte(*b))
}

/// Printable, neither a blank nor the slash between names.
pub(crate) fn is_name_byte(byte: u8) -> bool
    ensures { result ≡ name_byte_test byte }
{
    byte.is_ascii_graphic() && byte != b'/'
}

impl MadeWith<Global> for Name {
    fn made_with(_alloc: Global) -> Name {
        let mut bytes = [0; NAME_MAX];
        bytes[0] = PLACEHOLDER;
        Name { bytes, length: 1 }
    }
}

impl PartialEq for Name {
    ghost eq = { bytes_eq };

    ghost laws = { partial_equiv_from_equiv nat_list_eq_equiv };

    fn eq(&self, other: &Name) -> bool {
        self.numbers() == other.numbers()
    }
}

impl Eq for Name {
    ghost laws = { nat_list_eq_equiv };
}

impl PartialOrd for Name {
    ghost partial_cmp = { λ a b. Some (slice_cmp nat_cmp a b) };

    ghost laws = { texts_po };

    fn partial_cmp(&self, other: &Name) -> Option<Ordering> {
        Some(self.cmp(other))
    }
}

impl Ord for Name {
    ghost cmp = { slice_cmp nat_cmp };

    ghost total = { nat_list_cmp_total };

    ghost matches_partial_cmp = { λ a b. refl };

    ghost matches_eq = { texts_ties };

    fn cmp(&self, other: &Name) -> Ordering {
        self.numbers().cmp(&other.numbers())
    }
}
