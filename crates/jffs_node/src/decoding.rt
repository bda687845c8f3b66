//! Reading of what stands at a position of a sector.

ghost use Rattle.jffs_node.specs.declared.layout.TheConstants.{HEADER_LEN, GATE_AT, GATE_CLOSED};
ghost use Rattle.std.specs.Prelude.{◌≡◌, ◌^◌, ◌<◌, ◌≤◌, ◌==◌, ◌||◌, not, nat_lt, length};
ghost use Rattle.std.specs.Prelude.{if◌then◌else◌, IfOk, OnErr};
ghost use Rattle.jffs_node.specs.Record.{len_of_data};
ghost use Rattle.jffs_node.specs.Reading.{byte_at, data_len, data_at, node_at, padding_holds};
ghost use Rattle.jffs_node.specs.Reading.{broken_rule, is_erased as erased_test, found};
ghost use Rattle.jffs_node.specs.Header.{checked, head_at, head_or_why, HasData};
ghost use Rattle.jffs_node.specs.Laws.{IsClosedExactly};

use crate::data::copied;
use crate::header::{Head, labels_of, node_of};
use crate::layout::*;
use crate::numbers::{check_numbers, len_with_data};
use crate::read::{NoMemory, Read, Why};
use crate::words::{is_all, word_at};
use std::alloc::Global;

/// What begins at a position of a sector: `rest` is the sector's bytes from there on, and a record
/// has at most `record_max` bytes. The data of a closed record are copied; nothing else takes
/// memory.
///
/// `NoMemory` if allocation failed for the data of a closed record.
pub fn decode(alloc: Global, rest: &[u8], record_max: u32) -> Result<Read, NoMemory>
    ensures read { IfOk result (λ read. read ≡ found record_max rest.now) }
    ensures closed { IfOk result (λ read. IsClosedExactly record_max rest.now read) }
    ensures refused { OnErr result (HasData (found record_max rest.now)) }
{
    if !is_closed(rest) {
        return Ok(without_record(rest));
    }
    match head_of(rest, record_max) {
        Ok(head) => with_data(alloc, rest, head),
        Err(why) => Ok(Read::Bad(why)),
    }
}

/// Whether a header fits whose gate is closed.
pub(crate) fn is_closed(rest: &[u8]) -> bool
    ensures { result ≡ not (nat_lt (length rest.now) HEADER_LEN
        || not (byte_at GATE_AT rest.now == GATE_CLOSED)) }
{
    rest.len() >= HEADER_LEN && rest[GATE_AT] == GATE_CLOSED
}

/// Whether all bytes are as an erase left them. Takes no memory.
pub fn is_erased(bytes: &[u8]) -> bool
    ensures { result ≡ erased_test bytes.now }
{
    is_all(bytes, ERASED)
}

/// What stands where no record was closed: nothing, or what an interrupted write left.
pub(crate) fn without_record(rest: &[u8]) -> Read
    ensures { result ≡ (if erased_test rest.now then Read.Free else Read.Torn) }
{
    if is_erased(rest) {
        Read::Free
    } else {
        Read::Torn
    }
}

/// The record of a head, with its data.
fn with_data(alloc: Global, rest: &[u8], head: Head) -> Result<Read, NoMemory>
    requires head { head ≡ head_at rest.now }
    requires fits { len_of_data (data_len rest.now) ≤ length rest.now }
    requires short { len_of_data (data_len rest.now) < 2 ^ 32 }
    ensures read { IfOk result
        (λ read. read ≡ Read.Closed (node_at rest.now) (len_of_data (data_len rest.now))) }
    ensures refused { OnErr result (0 < length (data_at rest.now)) }
{
    let Head { mut node, amount } = head;
    let end = HEADER_LEN + amount as usize;
    node.bytes = copied(alloc, &rest[HEADER_LEN..end])?;
    Ok(Read::Closed(node, len_with_data(amount) as u32))
}

/// The head of a closed record, or the first rule that the record breaks.
pub(crate) fn head_of(rest: &[u8], record_max: u32) -> Result<Head, Why>
    requires { HEADER_LEN ≤ length rest.now }
    ensures { result ≡ head_or_why rest.now (broken_rule record_max rest.now) }
{
    let labels = labels_of(rest)?;
    let node = node_of(rest, labels);
    let amount = word_at(rest, DATA_LEN_AT);
    check_numbers(&node, amount, record_max, rest.len())?;
    check_padding(rest, amount)?;
    Ok(Head { node, amount })
}

/// The bytes between the data and the record's end are as an erase left them.
fn check_padding(rest: &[u8], amount: u32) -> Result<(), Why>
    requires amount { amount ≡ data_len rest.now }
    requires fits { len_of_data amount ≤ length rest.now }
    ensures { result ≡ checked (padding_holds rest.now) Why.Pad tt }
{
    let end = HEADER_LEN + amount as usize;
    let len = len_with_data(amount) as usize;
    if is_erased(&rest[end..len]) {
        Ok(())
    } else {
        Err(Why::Pad)
    }
}
