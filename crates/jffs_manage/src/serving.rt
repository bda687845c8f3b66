//! A mounted volume that answers the requests of a client.

ghost use Rattle.std.specs.Prelude.{◌≡◌, [], MatchOption};
ghost use Rattle.jffs_session.specs.Told.{Asks};
ghost use Rattle.jffs_manage.specs.Wanting.{wanted_of};
ghost use Rattle.jffs_manage.specs.Manner.{IsManner, IsSynced, SaysRefused, SaysRefusedOrFails};

use crate::answering::{answer_query, write_refusal};
use crate::fault::VolumeFault;
use crate::wanting::{Query, Wanted, wants};
use jffs_file::SyncFlash;
use jffs_flash::Flash;
use jffs_protocol::{Ask, Failure, Said, Server};
use jffs_session::Session;
use jffs_tree::{Cause, Outcome, Wish};
use std::alloc::Global;

/// A mounted volume that is served.
#[derive(Drop)]
pub(crate) struct ServedVolume<F: Flash> {
    alloc: Global,
    volume: Session<F>,
    end: ServeEnd,
}

/// How a volume stands once no request follows.
#[derive(Clone, Copy)]
pub(crate) enum ServeEnd {
    /// It is mounted.
    Mounted,
    /// It was unmounted, and its file stands on the medium.
    Unmounted,
    /// This ended it.
    Failed(VolumeFault),
}

impl<F: Flash> ServedVolume<F> {
    /// A mounted volume, of which nothing was asked yet.
    pub fn new(alloc: Global, volume: Session<F>) -> ServedVolume<F> {
        ServedVolume {
            alloc,
            volume,
            end: ServeEnd::Mounted,
        }
    }

    /// The volume, and how it stands.
    pub fn into_parts(self) -> (Session<F>, ServeEnd) {
        let ServedVolume {
            alloc: _,
            volume,
            end,
        } = self;
        (volume, end)
    }
}

impl<F: Flash + SyncFlash> Server for ServedVolume<F> {
    ghost manner = { λ old ask body new said written.
        IsManner (wanted_of ask body) old.volume.core new.volume.core said written };

    fn answer(&mut self, ask: Ask, body: &[u8], out: &mut Vec<u8>) -> Said {
        match wants(self.alloc, ask, body) {
            Ok(Some(wanted)) => self.grant(wanted, out),
            Ok(None) => Said::Malformed,
            Err(_) => Said::Memory,
        }
    }
}

impl<F: Flash + SyncFlash> ServedVolume<F> {
    /// Answers what is wanted.
    fn grant(&mut self, wanted: Wanted, out: &mut Vec<u8>) -> Said
        requires empty { out.old.items ≡ [] }
        ensures { IsManner wanted self.old.volume.core self.new.volume.core result
            out.new.items }
    {
        match wanted {
            Wanted::Query(query) => self.look(&query, out),
            Wanted::Change(wish) => self.change(wish, out),
            Wanted::Sync => self.sync(Said::Done),
            Wanted::Unmount => self.unmount(out),
        }
    }

    /// Answers a look.
    fn look(&self, query: &Query, out: &mut Vec<u8>) -> Said
        requires empty { out.old.items ≡ [] }
        ensures { IsManner (Wanted.Query query.now) self.now.volume.core self.now.volume.core
            result out.new.items }
    {
        match answer_query(self.alloc, self.volume.core(), query, out) {
            Ok(()) => Said::Answered,
            Err(_) => Said::Memory,
        }
    }

    /// Changes the volume, and says that it is done once the file has it.
    fn change(&mut self, wish: Wish, out: &mut Vec<u8>) -> Said
        requires empty { out.old.items ≡ [] }
        ensures { IsManner (Wanted.Change wish) self.old.volume.core self.new.volume.core result
            out.new.items }
    {
        match self.volume.change(wish) {
            Ok(()) => self.sync(Said::Done),
            Err(_) if self.volume.core().failed() => {
                self.fail(Failure::Device, VolumeFault::Refused(Cause::Device))
            }
            Err(Cause::Memory) => Said::Memory,
            Err(cause) => refuse(cause, out),
        }
    }

    /// Brings the file to its medium, and then says this.
    fn sync(&mut self, said: Said) -> Said
        ensures core { self.new.volume ≡ self.old.volume }
        ensures said { IsSynced said result }
    {
        match self.volume.core().log().flash().sync_flash() {
            Ok(()) => said,
            Err(_) => self.fail(Failure::Medium, VolumeFault::Medium),
        }
    }

    /// Unmounts the volume, and says that it is done once the file has it. Where that is refused,
    /// it stays mounted.
    fn unmount(&mut self, out: &mut Vec<u8>) -> Said
        requires empty { out.old.items ≡ [] }
        ensures { IsManner Wanted.Unmount self.old.volume.core self.new.volume.core result
            out.new.items }
    {
        let answered = self.ask_unmount();
        if self.volume.core().failed() {
            return self.fail(Failure::Device, VolumeFault::Refused(Cause::Device));
        }
        match answered {
            Some(Outcome::Refused(Cause::Memory)) => {
                self.fail(Failure::Memory, VolumeFault::Refused(Cause::Memory))
            }
            Some(Outcome::Refused(cause)) => self.stay(cause, out),
            _ => self.leave(),
        }
    }

    /// Has the control ask for the unmount; `None` where no node was appended since the mount, and
    /// nothing was asked.
    fn ask_unmount(&mut self) -> Option<Outcome>
        ensures { MatchOption result (self.new.volume.core ≡ self.old.volume.core)
            (λ outcome. Asks Wish.Unmount outcome self.old.volume.core self.new.volume.core) }
    {
        if !self.volume.is_changed() {
            return None;
        }
        Some(self.volume.unmount())
    }

    /// Says that the unmount was refused.
    fn stay(&mut self, cause: Cause, out: &mut Vec<u8>) -> Said
        requires empty { out.old.items ≡ [] }
        ensures core { self.new.volume ≡ self.old.volume }
        ensures said { SaysRefusedOrFails cause result out.new.items }
    {
        match refuse(cause, out) {
            Said::Answered => Said::Answered,
            _ => self.fail(Failure::Memory, VolumeFault::Memory),
        }
    }

    /// Says that the volume is unmounted, once the file has it.
    fn leave(&mut self) -> Said
        ensures core { self.new.volume ≡ self.old.volume }
        ensures said { IsSynced Said.Last result }
    {
        let said = self.sync(Said::Last);
        if said == Said::Last {
            self.end = ServeEnd::Unmounted;
        }
        said
    }

    /// Keeps what ends the serving, and says so.
    fn fail(&mut self, why: Failure, fault: VolumeFault) -> Said
        ensures core { self.new.volume ≡ self.old.volume }
        ensures said { result ≡ Said.Failed why }
    {
        self.end = ServeEnd::Failed(fault);
        Said::Failed(why)
    }
}

/// Says that a request was refused.
fn refuse(cause: Cause, out: &mut Vec<u8>) -> Said
    requires empty { out.old.items ≡ [] }
    ensures { SaysRefused cause result out.new.items }
{
    match write_refusal(cause, out) {
        Ok(()) => Said::Answered,
        Err(_) => Said::Memory,
    }
}
