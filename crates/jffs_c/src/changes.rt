//! Changes of a volume.

ghost use Rattle.std.specs.Prelude.{◌≡◌, IfOk, IfErr, Ok, Err};
ghost use Rattle.jffs_node.specs.Path.{path_of};
ghost use Rattle.jffs_c.specs.Blocked.{blocked, IsHeldBack};
ghost use Rattle.jffs_c.specs.Asked.{code_of, Asks, AsksAt, AsksBetween};
ghost use Rattle.jffs_c.specs.Cleaned.{CleansOldest, ErasesTheDead};
ghost use Rattle.jffs_c.specs.Seen.{IsOfPaths, IsFaultOf};

use crate::code::Code;
use crate::volume::Volume;
use jffs_core::Cleaned;
use jffs_node::{Path, copied};
use jffs_tree::{Outcome, Wish};

impl Volume {
    /// Makes a file without bytes. The causes of the core, and those of the path.
    pub(crate) fn create(&mut self, path: &[u8]) -> Code
        ensures held_back { IsHeldBack self.old self.new result }
        ensures asked { blocked self.old.phase ≡ Ok tt
            → AsksAt path.now Wish.Create self.old self.new result }
    {
        match self.path_to_change(path) {
            Ok(path) => self.ask(Wish::Create(path)),
            Err(code) => code,
        }
    }

    /// Makes a directory without names.
    pub(crate) fn make_dir(&mut self, path: &[u8]) -> Code
        ensures held_back { IsHeldBack self.old self.new result }
        ensures asked { blocked self.old.phase ≡ Ok tt
            → AsksAt path.now Wish.MakeDir self.old self.new result }
    {
        match self.path_to_change(path) {
            Ok(path) => self.ask(Wish::MakeDir(path)),
            Err(code) => code,
        }
    }

    /// Removes a file, or a directory without names.
    pub(crate) fn remove(&mut self, path: &[u8]) -> Code
        ensures held_back { IsHeldBack self.old self.new result }
        ensures asked { blocked self.old.phase ≡ Ok tt
            → AsksAt path.now Wish.Remove self.old self.new result }
    {
        match self.path_to_change(path) {
            Ok(path) => self.ask(Wish::Remove(path)),
            Err(code) => code,
        }
    }

    /// Writes bytes into a file from `offset` on.
    pub(crate) fn write(&mut self, path: &[u8], offset: u32, bytes: &[u8]) -> Code
        ensures held_back { IsHeldBack self.old self.new result }
        ensures asked { blocked self.old.phase ≡ Ok tt
            → AsksAt path.now (λ p. Wish.Write p offset bytes.now) self.old self.new result }
    {
        let path = match self.path_to_change(path) {
            Ok(path) => path,
            Err(code) => return code,
        };
        match copied(self.alloc, bytes) {
            Ok(bytes) => self.ask(Wish::Write {
                path,
                offset,
                bytes,
            }),
            Err(_) => Code::Memory,
        }
    }

    /// Cuts a file to `size` bytes, or fills it up with zeros.
    pub(crate) fn truncate(&mut self, path: &[u8], size: u32) -> Code
        ensures held_back { IsHeldBack self.old self.new result }
        ensures asked { blocked self.old.phase ≡ Ok tt
            → AsksAt path.now (λ p. Wish.Truncate p size) self.old self.new result }
    {
        match self.path_to_change(path) {
            Ok(path) => self.ask(Wish::Truncate { path, size }),
            Err(code) => code,
        }
    }

    /// Gives what stands at `from` another name.
    pub(crate) fn rename(&mut self, from: &[u8], to: &[u8]) -> Code
        ensures held_back { IsHeldBack self.old self.new result }
        ensures asked { blocked self.old.phase ≡ Ok tt
            → AsksBetween from.now to.now Wish.Rename self.old self.new result }
    {
        let from = match self.path_to_change(from) {
            Ok(path) => path,
            Err(code) => return code,
        };
        match self.path_to_change(to) {
            Ok(to) => self.ask(Wish::Rename { from, to }),
            Err(code) => code,
        }
    }

    /// Unmounts: the log ends with an unmount node.
    pub(crate) fn unmount(&mut self) -> Code
        ensures held_back { IsHeldBack self.old self.new result }
        ensures asked { blocked self.old.phase ≡ Ok tt
            → Asks Wish.Unmount self.old self.new result }
    {
        if let Err(code) = self.may_change() {
            return code;
        }
        self.place = None;
        let outcome = self.session.unmount();
        self.turn();
        answer_of(outcome)
    }

    /// Copies what lives in the oldest sector, and erases it. `Nothing` where the log has at most
    /// one sector.
    pub(crate) fn clean(&mut self) -> Code
        ensures held_back { IsHeldBack self.old self.new result }
        ensures cleaned { blocked self.old.phase ≡ Ok tt
            → CleansOldest self.old self.new result }
    {
        if let Err(code) = self.may_change() {
            return code;
        }
        self.place = None;
        let cleaned = self.session.clean_oldest();
        self.turn();
        match cleaned {
            Ok(Cleaned::Erased { .. }) => Code::Done,
            Ok(Cleaned::OneSector) => Code::Nothing,
            Err(cause) => Code::from(cause),
        }
    }

    /// Erases the dead sectors, the oldest first, up to one that has a live record.
    pub(crate) fn erase_dead(&mut self) -> Code
        ensures held_back { IsHeldBack self.old self.new result }
        ensures erased { blocked self.old.phase ≡ Ok tt
            → ErasesTheDead self.old self.new result }
    {
        if let Err(code) = self.may_change() {
            return code;
        }
        self.place = None;
        let erased = self.session.erase_dead();
        self.turn();
        match erased {
            Ok(_) => Code::Done,
            Err(cause) => Code::from(cause),
        }
    }

    /// Has the core answer a request. `Memory` may also say that there was none for its answer.
    fn ask(&mut self, wish: Wish) -> Code
        ensures held_back { IsHeldBack self.old self.new result }
        ensures asked { blocked self.old.phase ≡ Ok tt
            → Asks wish self.old self.new result }
    {
        if let Err(code) = self.may_change() {
            return code;
        }
        self.place = None;
        let outcome = self.session.ask(wish);
        self.turn();
        answer_of(outcome)
    }

    /// The path of a change, where one may be. `CallsLeft`, `Failed`, and then the path's faults.
    fn path_to_change(&self, bytes: &[u8]) -> Result<Path, Code>
        ensures held_back { IfErr (blocked self.now.phase) (λ why. result ≡ Err why) }
        ensures path { IfOk result (λ path. path_of bytes.now ≡ Ok path) }
        ensures refused { IfErr result IsOfPaths }
        ensures fault { blocked self.now.phase ≡ Ok tt → IfErr result (IsFaultOf bytes.now) }
    {
        self.may_change()?;
        self.path(bytes)
    }

    /// The path that bytes spell, or why they spell none.
    pub(crate) fn path(&self, bytes: &[u8]) -> Result<Path, Code>
        ensures path { IfOk result (λ path. path_of bytes.now ≡ Ok path) }
        ensures refused { IfErr result IsOfPaths }
        ensures fault { IfErr result (IsFaultOf bytes.now) }
    {
        let Ok(text) = std::str::from_utf8(bytes) else {
            return Err(Code::PathNameByte);
        };
        match Path::parse(self.alloc, text) {
            Ok(path) => Ok(path),
            Err(fault) => Err(Code::from(fault)),
        }
    }
}

/// The code of an outcome.
fn answer_of(outcome: Outcome) -> Code
    ensures { result ≡ code_of outcome }
{
    match outcome {
        Outcome::Refused(cause) => Code::from(cause),
        _ => Code::Done,
    }
}
