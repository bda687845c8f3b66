//! Reading the fields of a record, whose bytes stand at fixed positions.

ghost use Rattle.std.specs.Prelude.{◌≡◌, ◌==◌, ◌+◌, ◌≤◌, length};
ghost use Rattle.std.specs.Int.{w16, w32, w64};
ghost use Rattle.std.specs.List.{list_all};
ghost use Rattle.jffs_node.specs.Reading.{number_at};

/// Whether all bytes are this one: the first is, and each other is as the one before it. Slices
/// are compared many bytes at a time.
pub(crate) fn is_all(bytes: &[u8], byte: u8) -> bool
    ensures { result ≡ list_all (λ b. b == byte) bytes.now }
{
    let Some((first, rest)) = bytes.split_first() else {
        return true;
    };
    *first == byte && rest == &bytes[..rest.len()]
}

/// The number of 64 bits that stands at a position.
pub(crate) fn long_at(rest: &[u8], at: usize) -> u64
    requires { at + 8 ≤ length rest.now }
    ensures { result ≡ number_at w64 at rest.now }
{
    u64::from_be_bytes([
        rest[at],
        rest[at + 1],
        rest[at + 2],
        rest[at + 3],
        rest[at + 4],
        rest[at + 5],
        rest[at + 6],
        rest[at + 7],
    ])
}

/// The number of 32 bits that stands at a position.
pub(crate) fn word_at(rest: &[u8], at: usize) -> u32
    requires { at + 4 ≤ length rest.now }
    ensures { result ≡ number_at w32 at rest.now }
{
    u32::from_be_bytes([rest[at], rest[at + 1], rest[at + 2], rest[at + 3]])
}

/// The number of 16 bits that stands at a position.
pub(crate) fn half_at(rest: &[u8], at: usize) -> u16
    requires { at + 2 ≤ length rest.now }
    ensures { result ≡ number_at w16 at rest.now }
{
    u16::from_be_bytes([rest[at], rest[at + 1]])
}
