//! The functions of the header.

ghost use Rattle.std.specs.Prelude.{◌≡◌, ◌≢◌, IfOk, IfErr, Ok, Err, length};
ghost use Rattle.jffs_tree.specs.declared.wish.Wish.TheVariants as wish;
ghost use Rattle.jffs_core.specs.Jobs.{wants_cleaning};
ghost use Rattle.jffs_c.specs.declared.code.Code.{Code};
ghost use Rattle.jffs_c.specs.declared.volume.Phase.TheVariants as phase;
ghost use Rattle.jffs_c.specs.Codes.{number_of};
ghost use Rattle.jffs_c.specs.Blocked.{looks_blocked, noted, after_failure};
ghost use Rattle.jffs_c.specs.Exports.{HoldsBack, HoldsBackLooks, Answers, Changes};
ghost use Rattle.jffs_c.specs.Asked.{Asks, AsksAt, AsksBetween};
ghost use Rattle.jffs_c.specs.Cleaned.{CleansOldest, ErasesTheDead};
ghost use Rattle.jffs_c.specs.Opened.{HasOpened, TellsRefusal};
ghost use Rattle.jffs_c.specs.Seen.{IsSeen, IsUsage, IsRead, IsEntry};
ghost use Rattle.jffs_c.specs.Seen.{IsUnreached, IsUnread, IsUntold};
ghost use Rattle.jffs_c.specs.Told.{TellsNext};

use crate::calls::{NextCall, put};
use crate::code::Code;
use crate::handle::{Handle, Slot};
use crate::looks::{Longest, PathSight, VolumeUsage};
use crate::opening::{Refusal, open};
use crate::texts::{name_of, text_of};
use std::alloc::Global;

/// `pg_open`: mounts a copy of the medium's bytes.
#[unsafe(no_mangle)]
pub extern "C" fn pg_open(
    alloc: Global,
    medium: &[u8],
    sector_size: u32,
    volume: &mut Slot,
    refusal: &mut Refusal,
) -> u32
    ensures opened { result ≡ 0 → HasOpened medium.now sector_size volume.new }
    ensures refused { result ≢ 0 → volume.new ≡ volume.old }
    ensures told { TellsRefusal medium.now sector_size refusal.old refusal.new result }
{
    match open(alloc, medium, sector_size) {
        Ok(opened) => {
            *volume = Slot::of(opened);
            Code::Done.number()
        }
        Err(refused) => {
            *refusal = refused.refusal;
            refused.code.number()
        }
    }
}

/// `pg_close`: gives back all memory. Nothing is written.
#[unsafe(no_mangle)]
pub extern "C" fn pg_close(alloc: Global, volume: Handle) {
    let _closed = volume.into_box(alloc);
}

/// `pg_create`: makes a file without bytes.
#[unsafe(no_mangle)]
pub extern "C" fn pg_create(volume: &mut Handle, path: &[u8]) -> u32
    ensures held_back { HoldsBack volume.old volume.new result }
    ensures asked { Changes (AsksAt path.now wish.Create) volume.old volume.new result }
{
    volume.volume().create(path).number()
}

/// `pg_mkdir`: makes a directory without names.
#[unsafe(no_mangle)]
pub extern "C" fn pg_mkdir(volume: &mut Handle, path: &[u8]) -> u32
    ensures held_back { HoldsBack volume.old volume.new result }
    ensures asked { Changes (AsksAt path.now wish.MakeDir) volume.old volume.new result }
{
    volume.volume().make_dir(path).number()
}

/// `pg_remove`: removes a file, or a directory without names.
#[unsafe(no_mangle)]
pub extern "C" fn pg_remove(volume: &mut Handle, path: &[u8]) -> u32
    ensures held_back { HoldsBack volume.old volume.new result }
    ensures asked { Changes (AsksAt path.now wish.Remove) volume.old volume.new result }
{
    volume.volume().remove(path).number()
}

/// `pg_write`: writes bytes into a file from an offset on.
#[unsafe(no_mangle)]
pub extern "C" fn pg_write(volume: &mut Handle, path: &[u8], offset: u32, bytes: &[u8]) -> u32
    ensures held_back { HoldsBack volume.old volume.new result }
    ensures asked { Changes (AsksAt path.now (λ p. wish.Write p offset bytes.now))
        volume.old volume.new result }
{
    volume.volume().write(path, offset, bytes).number()
}

/// `pg_truncate`: cuts a file, or fills it up with zeros.
#[unsafe(no_mangle)]
pub extern "C" fn pg_truncate(volume: &mut Handle, path: &[u8], size: u32) -> u32
    ensures held_back { HoldsBack volume.old volume.new result }
    ensures asked { Changes (AsksAt path.now (λ p. wish.Truncate p size))
        volume.old volume.new result }
{
    volume.volume().truncate(path, size).number()
}

/// `pg_rename`: gives another name.
#[unsafe(no_mangle)]
pub extern "C" fn pg_rename(volume: &mut Handle, from: &[u8], to: &[u8]) -> u32
    ensures held_back { HoldsBack volume.old volume.new result }
    ensures asked { Changes (AsksBetween from.now to.now wish.Rename)
        volume.old volume.new result }
{
    volume.volume().rename(from, to).number()
}

/// `pg_unmount`: ends the log with an unmount node.
#[unsafe(no_mangle)]
pub extern "C" fn pg_unmount(volume: &mut Handle) -> u32
    ensures held_back { HoldsBack volume.old volume.new result }
    ensures asked { Changes (Asks wish.Unmount) volume.old volume.new result }
{
    volume.volume().unmount().number()
}

/// `pg_clean`: cleans the oldest sector.
#[unsafe(no_mangle)]
pub extern "C" fn pg_clean(volume: &mut Handle) -> u32
    ensures held_back { HoldsBack volume.old volume.new result }
    ensures cleaned { Changes CleansOldest volume.old volume.new result }
{
    volume.volume().clean().number()
}

/// `pg_erase_dead`: erases the dead sectors.
#[unsafe(no_mangle)]
pub extern "C" fn pg_erase_dead(volume: &mut Handle) -> u32
    ensures held_back { HoldsBack volume.old volume.new result }
    ensures erased { Changes ErasesTheDead volume.old volume.new result }
{
    volume.volume().erase_dead().number()
}

/// `pg_next_call`: tells the next call of the device.
#[unsafe(no_mangle)]
pub extern "C" fn pg_next_call(volume: &mut Handle, call: &mut NextCall, buffer: &mut [u8]) -> u32
    ensures held_back { HoldsBackLooks volume.old volume.new result }
    ensures kept { volume.new.value ≡ volume.old.value }
    ensures told { Answers
        (TellsNext volume.old.value call.old call.new buffer.old buffer.new) result }
{
    volume.volume().next_call(call, buffer).number()
}

/// `pg_carried_out`: takes note that the next call was carried out.
#[unsafe(no_mangle)]
pub extern "C" fn pg_carried_out(volume: &mut Handle) -> u32
    ensures held_back { HoldsBackLooks volume.old volume.new result }
    ensures core { volume.new.value.core ≡ volume.old.value.core }
    ensures answered { result ≡ number_of (noted volume.old.value.phase) }
    ensures rest { volume.new.value
        ≡ record volume.old.value { phase = volume.new.value.phase } }
    ensures ready { volume.old.value.phase ≡ phase.Ready → volume.new.value ≡ volume.old.value }
{
    volume.volume().carried_out().number()
}

/// `pg_call_failed`: takes note that the next call failed.
#[unsafe(no_mangle)]
pub extern "C" fn pg_call_failed(volume: &mut Handle) -> u32
    ensures held_back { HoldsBackLooks volume.old volume.new result }
    ensures core { volume.new.value.core ≡ volume.old.value.core }
    ensures answered { result ≡ number_of (noted volume.old.value.phase) }
    ensures failed { volume.new.value
        ≡ record volume.old.value { phase = after_failure volume.old.value.phase } }
{
    volume.volume().call_failed().number()
}

/// `pg_calls_left`: how many calls of the device are left.
#[unsafe(no_mangle)]
pub extern "C" fn pg_calls_left(volume: &mut Handle) -> u32
    ensures kept { volume.new.value ≡ volume.old.value }
    ensures none { volume.old.value.phase ≢ phase.Carrying → result ≡ 0 }
{
    volume.volume().calls_left()
}

/// `pg_look`: what stands at a path.
#[unsafe(no_mangle)]
pub extern "C" fn pg_look(volume: &mut Handle, path: &[u8], sight: &mut PathSight) -> u32
    ensures held_back { HoldsBackLooks volume.old volume.new result }
    ensures kept { volume.new.value ≡ volume.old.value }
    ensures seen { result ≡ 0 → IsSeen path.now volume.old.value sight.new }
    ensures refused { result ≢ 0 → sight.new ≡ sight.old }
    ensures why { looks_blocked volume.old.value.phase ≡ Ok tt → result ≢ 0
        → Answers (IsUnreached path.now volume.old.value) result }
{
    hand_out(volume.volume().look(path), sight)
}

/// `pg_longest_of`: how long things may be.
#[unsafe(no_mangle)]
pub extern "C" fn pg_longest_of(volume: &mut Handle, longest: &mut Longest) -> u32
    ensures held_back { HoldsBackLooks volume.old volume.new result }
    ensures kept { volume.new.value ≡ volume.old.value }
    ensures write { result ≡ 0 → longest.new.write ≡ volume.old.value.core.limits.data_max }
    ensures refused { result ≢ 0 → longest.new ≡ longest.old }
    ensures answered { looks_blocked volume.old.value.phase ≡ Ok tt → result ≡ 0 }
{
    hand_out(volume.volume().longest(), longest)
}

/// `pg_usage_of`: how full the volume is.
#[unsafe(no_mangle)]
pub extern "C" fn pg_usage_of(volume: &mut Handle, usage: &mut VolumeUsage) -> u32
    ensures held_back { HoldsBackLooks volume.old volume.new result }
    ensures kept { volume.new.value ≡ volume.old.value }
    ensures usage { result ≡ 0 → IsUsage volume.old.value usage.new }
    ensures refused { result ≢ 0 → usage.new ≡ usage.old }
    ensures answered { looks_blocked volume.old.value.phase ≡ Ok tt → result ≡ 0 }
{
    hand_out(volume.volume().usage(), usage)
}

/// `pg_wants_cleaning`: whether cleaning is worth it.
#[unsafe(no_mangle)]
pub extern "C" fn pg_wants_cleaning(volume: &mut Handle, wants: &mut bool) -> u32
    ensures held_back { HoldsBackLooks volume.old volume.new result }
    ensures kept { volume.new.value ≡ volume.old.value }
    ensures wants { result ≡ 0 → wants.new ≡ wants_cleaning volume.old.value.core }
    ensures refused { result ≢ 0 → wants.new ≡ wants.old }
    ensures answered { looks_blocked volume.old.value.phase ≡ Ok tt → result ≡ 0 }
{
    hand_out(volume.volume().wants_cleaning(), wants)
}

/// `pg_is_clean`: whether it was unmounted last.
#[unsafe(no_mangle)]
pub extern "C" fn pg_is_clean(volume: &mut Handle, clean: &mut bool) -> u32
    ensures held_back { HoldsBackLooks volume.old volume.new result }
    ensures kept { volume.new.value ≡ volume.old.value }
    ensures clean { result ≡ 0 → clean.new ≡ volume.old.value.core.clean }
    ensures refused { result ≢ 0 → clean.new ≡ clean.old }
    ensures answered { looks_blocked volume.old.value.phase ≡ Ok tt → result ≡ 0 }
{
    hand_out(volume.volume().clean_log(), clean)
}

/// `pg_read`: the bytes of a file from an offset on.
#[unsafe(no_mangle)]
pub extern "C" fn pg_read(
    volume: &mut Handle,
    path: &[u8],
    offset: u32,
    buffer: &mut [u8],
    count: &mut usize,
) -> u32
    ensures held_back { HoldsBackLooks volume.old volume.new result }
    ensures kept { volume.new.value ≡ volume.old.value }
    ensures read { result ≡ 0
        → IsRead path.now volume.old.value offset count.new buffer.old buffer.new }
    ensures refused { result ≢ 0 → (count.new ≡ count.old) × (buffer.new ≡ buffer.old) }
    ensures why { looks_blocked volume.old.value.phase ≡ Ok tt → result ≢ 0
        → Answers (IsUnread path.now volume.old.value) result }
{
    match volume.volume().read(path, offset, buffer) {
        Ok(found) => {
            *count = found;
            Code::Done.number()
        }
        Err(code) => code.number(),
    }
}

/// `pg_entry`: what stands in a directory under the name with a number.
#[unsafe(no_mangle)]
pub extern "C" fn pg_entry(
    volume: &mut Handle,
    path: &[u8],
    number: u32,
    name: &mut [u8],
    name_len: &mut usize,
    sight: &mut PathSight,
) -> u32
    ensures held_back { HoldsBackLooks volume.old volume.new result }
    ensures kept { volume.new.value ≡ volume.old.value }
    ensures entry { result ≡ 0
        → IsEntry path.now volume.old.value number sight.new name_len.new name.old name.new }
    ensures refused { result ≢ 0 → (sight.new ≡ sight.old) × (name_len.new ≡ name_len.old)
        × (name.new ≡ name.old) }
    ensures why { looks_blocked volume.old.value.phase ≡ Ok tt → result ≢ 0
        → Answers (IsUntold path.now volume.old.value number (length name.old)) result }
{
    match volume.volume().entry(path, number, name) {
        Ok((found, len)) => {
            *sight = found;
            *name_len = len;
            Code::Done.number()
        }
        Err(code) => code.number(),
    }
}

/// `pg_name`: the name of a code, and how long it is; 0 where there is no such code, or the buffer
/// can't take it.
#[unsafe(no_mangle)]
pub extern "C" fn pg_name(code: u32, buffer: &mut [u8]) -> usize {
    match Code::of_number(code) {
        Some(code) => put_text(name_of(code), buffer),
        None => 0,
    }
}

/// `pg_text`: what a code says, and how long that is; 0 as for `pg_name`.
#[unsafe(no_mangle)]
pub extern "C" fn pg_text(code: u32, buffer: &mut [u8]) -> usize {
    match Code::of_number(code) {
        Some(code) => put_text(text_of(code), buffer),
        None => 0,
    }
}

/// Puts what a look found where the caller wants it; the number of its code.
fn hand_out<T: Copy>(found: Result<T, Code>, place: &mut T) -> u32
    requires { IfErr found (λ code. code ≢ Code.Done) }
    ensures done { result ≡ 0 → found ≡ Ok place.new }
    ensures given { IfOk found (λ _. result ≡ 0) }
    ensures told { IfErr found (λ code. result ≡ number_of code) }
    ensures refused { result ≢ 0 → (code : Code) × (found ≡ Err code) × (result ≡ number_of code) }
    ensures kept { result ≢ 0 → place.new ≡ place.old }
{
    match found {
        Ok(found) => {
            *place = found;
            Code::Done.number()
        }
        Err(code) => code.number(),
    }
}

/// Copies a text to the start of a buffer, and returns how long it is; 0 where it doesn't fit.
fn put_text(text: &str, buffer: &mut [u8]) -> usize {
    match put(text.as_bytes(), buffer) {
        Code::Done => text.len(),
        _ => 0,
    }
}
