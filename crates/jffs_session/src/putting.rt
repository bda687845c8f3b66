//! A file is made or replaced by pieces.

ghost use Rattle.std.specs.Prelude.{◌≡◌, ◌≤◌, List, ℕ, true, false, length};
ghost use Rattle.std.specs.Prelude.{None, OnOk, IfOk, IsTrue};
ghost use Rattle.jffs_node.specs.Record.{file_max};
ghost use Rattle.jffs_core.specs.CoreState.{CoreState};
ghost use Rattle.jffs_tree.specs.State.{resolve};
ghost use Rattle.jffs_tree.specs.Decide.{is_there};
ghost use Rattle.jffs_tree.specs.declared.wish.Wish.TheVariants as wishes;
ghost use Rattle.jffs_session.specs.Session.{IsMounted, files};
ghost use Rattle.jffs_session.specs.Told.{Changes};
ghost use Rattle.jffs_session.specs.PutEnds.{Put, put_at, Makes, Ends, Leaves, IsStopped};
ghost use Rattle.jffs_session.specs.PutEnds.{MayPut, MayBegin, IsWritten, HasFile};
ghost use Rattle.jffs_session.specs.Put.{AreBeside};

use crate::session::Session;
use jffs_flash::Flash;
use jffs_node::{FILE_MAX, Path, copied};
use jffs_tree::{Cause, Wish};

/// Where a put makes its file.
#[derive(Clone, Copy)]
pub struct PutPaths<'a> {
    pub path: &'a Path,
    /// Where the file stands until it is whole: another name in the same directory.
    pub unfinished: &'a Path,
}

/// Whether two paths are different names in one directory.
pub fn are_beside(path: &Path, other: &Path) -> bool
    ensures { IsTrue result → AreBeside path.now other.now }
{
    let names = path.names();
    let others = other.names();
    if names.is_empty() || others.is_empty() {
        return false;
    }
    let (directory, last) = names.split_at(names.len() - 1);
    let (other_directory, other_last) = others.split_at(others.len() - 1);
    directory == other_directory && last != other_last
}

/// What stopped a put.
#[derive(Clone, Copy, Debug, PartialEq, Eq)]
pub enum PutStep {
    /// The new file could not be written.
    Write,
    /// The old file could not be removed.
    Remove,
    /// The new file could not be renamed.
    Rename,
}

/// What a put has left that was stopped.
#[derive(Clone, Copy, Debug, PartialEq, Eq)]
pub enum PutLeft {
    /// Nothing: the files are as they were.
    Nothing,
    /// A first part of the new file, or all of it, by its unfinished name; what stood at the path
    /// stands.
    Beside,
    /// All of the new file, by its unfinished name; the old one is gone.
    Alone,
    /// What isn't known, since the device failed: the files of before, with or without a first part
    /// of the new one by its unfinished name; or the new file, whole, by one of its two names, and
    /// the old one gone.
    Unseen,
}

/// Why a put was stopped, and what it has left.
#[derive(Clone, Copy, Debug, PartialEq, Eq)]
pub struct PutFault {
    pub cause: Cause,
    pub step: PutStep,
    pub left: PutLeft,
}

impl<F: Flash> Session<F> {
    /// Puts bytes into a file at a path, in place of one that stands there: into a new file beside
    /// it, piece by piece; then the old one is removed, and the new one renamed. The new one has
    /// another inode. Precondition: the two paths are beside each other (see [`are_beside`]).
    ///
    /// `Failed` where the device had failed, `FileLong` where no file has so many bytes, `NameTaken`
    /// where something stands at the unfinished name, `IsDirectory` where a directory stands at the
    /// path: nothing is changed. Else the cause is that of the request that was refused. Room isn't
    /// looked for before: `NoSpace` may come at any step.
    ///
    /// What is left after each of them, [`PutFault::left`] says. Where the device failed, so does a
    /// loss of power at that moment: a scan then finds one of the moments of [`PutLeft::Unseen`],
    /// and every other file as it was.
    pub fn put(&mut self, paths: PutPaths<'_>, bytes: &[u8]) -> Result<(), PutFault>
        requires beside { AreBeside paths.path.now paths.unfinished.now }
        ensures ends { self.old.core.failed ≡ false
            → Ends result (put_at paths.entry.path.now paths.entry.unfinished.now bytes.now
            (files self.old.core)) self.new.core }
        ensures begun { self.new.begun ≡ self.old.begun }
    {
        match self.may_put(paths, bytes.len()) {
            Ok(true) => self.replace(paths, bytes),
            Ok(false) => self.put_new(paths, bytes),
            Err(cause) => Err(PutFault {
                cause,
                step: PutStep::Write,
                left: self.left(PutLeft::Nothing),
            }),
        }
    }

    /// Whether a put of so many bytes replaces a file, or why it may not begin.
    fn may_put(&self, paths: PutPaths<'_>, many: usize) -> Result<bool, Cause>
        ensures mounted { IsMounted self.now.core }
        ensures may { IfOk result (λ replaces. MayBegin paths.entry.path.now
            paths.entry.unfinished.now many replaces self.now.core) }
    {
        if self.core().failed() {
            return Err(Cause::Failed);
        }
        if many > FILE_MAX as usize {
            return Err(Cause::FileLong);
        }
        if self.has(paths.unfinished) {
            return Err(Cause::NameTaken);
        }
        let Some(inode) = self.tree().resolve(paths.path) else {
            return Ok(false);
        };
        if self.tree().is_directory(inode) {
            return Err(Cause::IsDirectory);
        }
        Ok(true)
    }

    /// Makes a file without bytes.
    fn create(&mut self, path: &Path) -> Result<(), Cause>
        requires mounted { IsMounted self.old.core }
        requires works { self.old.core.failed ≡ false }
        ensures made { Changes (wishes.Create path.now) result self.old.core self.new.core }
        ensures mounted { IsMounted self.new.core }
        ensures begun { self.new.begun ≡ self.old.begun }
    {
        self.change(Wish::Create(path.clone()?))
    }

    /// Adds a piece to a file that was made since.
    fn write_piece(&mut self, path: &Path, offset: u32, piece: &[u8]) -> Result<(), Cause>
        requires mounted { IsMounted self.old.core }
        requires works { self.old.core.failed ≡ false }
        ensures written { Changes (wishes.Write path.now offset piece.now) result self.old.core
            self.new.core }
        ensures mounted { IsMounted self.new.core }
        ensures begun { self.new.begun ≡ self.old.begun }
    {
        let bytes = copied(self.alloc(), piece)?;
        self.change(Wish::Write {
            path: path.clone()?,
            offset,
            bytes,
        })
    }

    /// Makes a file with these bytes, in as many writes as it takes.
    fn make_file(&mut self, path: &Path, bytes: &[u8]) -> Result<(), Cause>
        requires mounted { IsMounted self.old.core }
        requires works { self.old.core.failed ≡ false }
        requires short { length bytes.now ≤ file_max }
        ensures made { Makes path.now bytes.now result self.old.core self.new.core }
        ensures mounted { IsMounted self.new.core }
        ensures begun { self.new.begun ≡ self.old.begun }
    {
        if let Err(cause) = self.create(path) {
            return Err(cause);
        }
        let most = (self.core().limits().data_max as usize).max(1);
        let mut done = 0;
        while done < bytes.len() {
            let end = done + most.min(bytes.len() - done);
            if let Err(cause) = self.write_piece(path, done as u32, &bytes[done..end]) {
                return Err(cause);
            }
            done = end;
        }
        Ok(())
    }

    /// Removes what stands at a path.
    fn remove(&mut self, path: &Path) -> Result<(), Cause>
        requires mounted { IsMounted self.old.core }
        requires works { self.old.core.failed ≡ false }
        ensures removed { Changes (wishes.Remove path.now) result self.old.core self.new.core }
        ensures mounted { IsMounted self.new.core }
        ensures begun { self.new.begun ≡ self.old.begun }
    {
        self.change(Wish::Remove(path.clone()?))
    }

    /// Gives what stands at `from` another name.
    fn rename(&mut self, from: &Path, to: &Path) -> Result<(), Cause>
        requires mounted { IsMounted self.old.core }
        requires works { self.old.core.failed ≡ false }
        ensures renamed { Changes (wishes.Rename from.now to.now) result self.old.core
            self.new.core }
        ensures mounted { IsMounted self.new.core }
        ensures begun { self.new.begun ≡ self.old.begun }
    {
        self.change(Wish::Rename {
            from: from.clone()?,
            to: to.clone()?,
        })
    }

    /// Takes back what there is of a new file, while the old one stands: what is left of it.
    fn take_back(&mut self, unfinished: &Path) -> PutLeft
        requires mounted { IsMounted self.old.core }
        ensures left { (start : CoreState) (p : Put) → IsMounted start → start.failed ≡ false
            → p.before ≡ files start → p.unfinished ≡ unfinished.now
            → resolve p.before p.unfinished ≡ None → IsStopped p self.old.core
            → Leaves result p self.new.core }
        ensures begun { self.new.begun ≡ self.old.begun }
    {
        if self.failed() {
            return PutLeft::Unseen;
        }
        if !self.has(unfinished) {
            return PutLeft::Nothing;
        }
        match self.remove(unfinished) {
            Ok(()) => PutLeft::Nothing,
            Err(_) => self.left(PutLeft::Beside),
        }
    }

    /// Whether the device failed.
    fn failed(&self) -> bool
        ensures { result ≡ self.now.core.failed }
    {
        self.core().failed()
    }

    /// Whether something stands at a path.
    fn has(&self, path: &Path) -> bool
        ensures { result ≡ is_there (files self.now.core) path.now }
    {
        self.tree().resolve(path).is_some()
    }

    /// What is left, which is so unless the device failed.
    fn left(&self, left: PutLeft) -> PutLeft
        ensures known { self.now.core.failed ≡ false → result ≡ left }
        ensures unseen { self.now.core.failed ≡ true → result ≡ PutLeft.Unseen }
    {
        if self.failed() { PutLeft::Unseen } else { left }
    }

    /// Stops a put whose old file stands.
    fn stop(&mut self, unfinished: &Path, cause: Cause, step: PutStep) -> PutFault
        requires mounted { IsMounted self.old.core }
        ensures left { (start : CoreState) (p : Put) → IsMounted start → start.failed ≡ false
            → p.before ≡ files start → p.unfinished ≡ unfinished.now
            → resolve p.before p.unfinished ≡ None → IsStopped p self.old.core
            → Leaves result.left p self.new.core }
        ensures begun { self.new.begun ≡ self.old.begun }
    {
        let left = self.take_back(unfinished);
        PutFault { cause, step, left }
    }

    /// Writes the new file, by its unfinished name.
    fn write_new(&mut self, paths: PutPaths<'_>, bytes: &[u8]) -> Result<(), PutFault>
        requires mounted { IsMounted self.old.core }
        requires works { self.old.core.failed ≡ false }
        requires may { MayPut (put_at paths.path.now paths.unfinished.now bytes.now
            (files self.old.core)) }
        ensures written { IsWritten result (put_at paths.entry.path.now paths.entry.unfinished.now bytes.now
            (files self.old.core)) self.new.core }
        ensures mounted { OnOk result (IsMounted self.new.core) }
        ensures begun { self.new.begun ≡ self.old.begun }
    {
        match self.make_file(paths.unfinished, bytes) {
            Ok(()) => Ok(()),
            Err(cause) => Err(self.stop(paths.unfinished, cause, PutStep::Write)),
        }
    }

    /// Puts a file where nothing stands.
    fn put_new(&mut self, paths: PutPaths<'_>, bytes: &[u8]) -> Result<(), PutFault>
        requires mounted { IsMounted self.old.core }
        requires works { self.old.core.failed ≡ false }
        requires may { MayPut (put_at paths.path.now paths.unfinished.now bytes.now
            (files self.old.core)) }
        requires nothing { resolve (files self.old.core) paths.path.now ≡ None }
        ensures ends { Ends result (put_at paths.entry.path.now paths.entry.unfinished.now bytes.now
            (files self.old.core)) self.new.core }
        ensures begun { self.new.begun ≡ self.old.begun }
    {
        if let Err(fault) = self.write_new(paths, bytes) {
            return Err(fault);
        }
        match self.rename(paths.unfinished, paths.path) {
            Ok(()) => Ok(()),
            Err(cause) => Err(self.stop(paths.unfinished, cause, PutStep::Rename)),
        }
    }

    /// Puts a file in place of one that stands.
    fn replace(&mut self, paths: PutPaths<'_>, bytes: &[u8]) -> Result<(), PutFault>
        requires mounted { IsMounted self.old.core }
        requires works { self.old.core.failed ≡ false }
        requires may { MayPut (put_at paths.path.now paths.unfinished.now bytes.now
            (files self.old.core)) }
        requires file { HasFile paths.path.now (files self.old.core) }
        ensures ends { Ends result (put_at paths.entry.path.now paths.entry.unfinished.now bytes.now
            (files self.old.core)) self.new.core }
        ensures begun { self.new.begun ≡ self.old.begun }
    {
        if let Err(fault) = self.write_new(paths, bytes) {
            return Err(fault);
        }
        if let Err(cause) = self.remove(paths.path) {
            return Err(self.stop(paths.unfinished, cause, PutStep::Remove));
        }
        match self.rename(paths.unfinished, paths.path) {
            Ok(()) => Ok(()),
            Err(cause) => Err(PutFault {
                cause,
                step: PutStep::Rename,
                left: self.left(PutLeft::Alone),
            }),
        }
    }
}
