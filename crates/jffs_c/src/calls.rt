//! The calls of the device that the caller carries out.

ghost use Rattle.std.specs.Prelude.{◌≡◌, ◌≢◌, ◌<◌, ◌++◌, drop, length, IfErr};
ghost use Rattle.jffs_c.specs.Blocked.{looks_blocked, noted, after_failure};
ghost use Rattle.jffs_c.specs.Told.{IsTold, TellsNext};

use crate::code::Code;
use crate::volume::{Phase, Volume};
use jffs_queue::Call;

/// A call of the device, as C sees it.
#[repr(C)]
#[derive(Clone, Copy, Debug, PartialEq, Eq)]
pub struct NextCall {
    /// Whether a sector is to be erased; else bytes are to be programmed.
    pub erase: bool,
    /// Where it begins on the medium, in bytes.
    pub at: u32,
    /// How many bytes it changes.
    pub len: u32,
}

impl Volume {
    /// Tells the next call in `call`, and copies the bytes of a program to the start of `buffer`.
    ///
    /// `Failed`; `Nothing` where no call is left; `BufferShort` where the buffer can't take the
    /// bytes: `call` says how many they are.
    pub(crate) fn next_call(&self, call: &mut NextCall, buffer: &mut [u8]) -> Code
        ensures held_back { IfErr (looks_blocked self.now.phase) (λ why. result ≡ why) }
        ensures told { TellsNext self.now call.old call.new buffer.old buffer.new result }
    {
        match self.phase {
            Phase::Failed => Code::Failed,
            Phase::Ready => Code::Nothing,
            Phase::Carrying => match self.core().log().flash().next() {
                None => Code::Nothing,
                Some(next) => tell(next, self.core().log().sector_size(), call, buffer),
            },
        }
    }

    /// Takes note that the next call was carried out. `Failed`; `Nothing` where no call is left.
    pub(crate) fn carried_out(&mut self) -> Code
        ensures answered { result ≡ noted self.old.phase }
        ensures core { self.new.core ≡ self.old.core }
        ensures rest { self.new ≡ record self.old { phase = self.new.phase } }
        ensures ready { self.old.phase ≡ Phase.Ready → self.new ≡ self.old }
        ensures failed { IfErr (looks_blocked self.old.phase)
            (λ why. (result ≡ why) × (self.new ≡ self.old)) }
    {
        match self.phase {
            Phase::Failed => Code::Failed,
            Phase::Ready => Code::Nothing,
            Phase::Carrying => {
                self.core().log().flash().carried_out();
                self.turn();
                Code::Done
            }
        }
    }

    /// Takes note that the next call failed. From then on all is refused. `Failed`; `Nothing`
    /// where no call is left.
    pub(crate) fn call_failed(&mut self) -> Code
        ensures answered { result ≡ noted self.old.phase }
        ensures phase { self.new ≡ record self.old { phase = after_failure self.old.phase } }
        ensures core { self.new.core ≡ self.old.core }
        ensures kept { self.old.phase ≡ Phase.Carrying → self.new.phase ≡ Phase.Failed }
        ensures failed { IfErr (looks_blocked self.old.phase)
            (λ why. (result ≡ why) × (self.new ≡ self.old)) }
    {
        match self.phase {
            Phase::Failed => Code::Failed,
            Phase::Ready => Code::Nothing,
            Phase::Carrying => {
                self.phase = Phase::Failed;
                Code::Done
            }
        }
    }

    /// How many calls are left; 0 after a failure.
    pub(crate) fn calls_left(&self) -> u32
        ensures { self.now.phase ≢ Phase.Carrying → result ≡ 0 }
    {
        match self.phase {
            Phase::Carrying => u32::try_from(self.core().log().flash().left()).unwrap_or(u32::MAX),
            Phase::Ready | Phase::Failed => 0,
        }
    }
}

/// Tells C of a call of a device with sectors of this size, and copies the bytes of a program to
/// the start of `buffer`. `BufferShort` where it can't take them.
fn tell(next: &Call, sector_size: u32, call: &mut NextCall, buffer: &mut [u8]) -> Code
    ensures { IsTold sector_size next.now call.new buffer.old buffer.new result }
{
    match next {
        Call::Erase { sector } => {
            *call = NextCall {
                erase: true,
                at: sector.saturating_mul(sector_size),
                len: sector_size,
            };
            Code::Done
        }
        Call::Program { at, bytes } => {
            *call = NextCall {
                erase: false,
                at: *at,
                len: u32::try_from(bytes.len()).unwrap_or(u32::MAX),
            };
            put(bytes, buffer)
        }
    }
}

/// Copies bytes to the start of a buffer. `BufferShort` where it can't take them: nothing is
/// copied.
pub(crate) fn put(bytes: &[u8], buffer: &mut [u8]) -> Code
    ensures done { result ≡ Code.Done
        → buffer.new ≡ bytes.now ++ drop (length bytes.now) buffer.old }
    ensures short { result ≢ Code.Done → (result ≡ Code.BufferShort) × (buffer.new ≡ buffer.old)
        × (length buffer.old < length bytes.now) }
{
    if bytes.len() > buffer.len() {
        return Code::BufferShort;
    }
    buffer[..bytes.len()].copy_from_slice(bytes);
    Code::Done
}
