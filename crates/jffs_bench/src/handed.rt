//! A volume whose device's calls are carried out after each change, as a program in C does it.

use crate::fault::Fault;
use jffs_core::Cleaned;
use jffs_flash::MemoryFlash;
use jffs_node::{Name, Path, copied};
use jffs_queue::{Call, HandedFlash};
use jffs_session::Session;
use jffs_tree::{Outcome, Wish};
use std::alloc::Global;

const SECTORS: u32 = 64;

/// The bytes of a sector.
const SECTOR_SIZE: u32 = 4096;

/// How many files it begins with.
const FILES: usize = 400;

/// The bytes of each write.
pub(crate) const WRITE_LEN: usize = 192;

/// A volume, the paths of its files, and those of files that aren't there yet.
#[derive(Drop)]
pub(crate) struct HandedVolume {
    pub(crate) alloc: Global,
    pub(crate) session: Session<HandedFlash>,
    /// The name that was told last.
    pub(crate) told: Option<Name>,
    paths: Vec<String>,
    others: Vec<String>,
    buffer: Vec<u8>,
}

impl HandedVolume {
    /// A volume with files of 192 bytes in the directory `/d`.
    pub(crate) fn filled(alloc: Global) -> Result<HandedVolume, Fault> {
        let medium = MemoryFlash::new(alloc, SECTORS, SECTOR_SIZE)?;
        let mut volume = HandedVolume {
            alloc,
            session: Session::mount(alloc, HandedFlash::new(alloc, medium))?,
            told: None,
            paths: paths(alloc, "f")?,
            others: paths(alloc, "x")?,
            buffer: vec![in alloc; 0; SECTOR_SIZE as usize]?,
        };
        volume.change(Wish::MakeDir(Path::parse(alloc, "/d")?))?;
        for number in 0..FILES {
            volume.fill(number)?;
        }
        Ok(volume)
    }

    /// Makes a file of 192 bytes.
    fn fill(&mut self, number: usize) -> Result<(), Fault> {
        let path = self.path(number)?;
        self.change(Wish::Create(path.clone()?))?;
        let bytes = copied(self.alloc, &[b'Z'; WRITE_LEN])?;
        self.change(Wish::Write {
            path,
            offset: 0,
            bytes,
        })
    }

    /// The path of the file with this number.
    pub(crate) fn path(&self, number: usize) -> Result<Path, Fault> {
        let text = self.paths.get(number).ok_or(Fault::Words)?;
        Ok(Path::parse(self.alloc, text.as_str())?)
    }

    /// The path of a file that isn't there yet.
    pub(crate) fn other(&self, number: usize) -> Result<Path, Fault> {
        let text = self.others.get(number).ok_or(Fault::Words)?;
        Ok(Path::parse(self.alloc, text.as_str())?)
    }

    /// Has a wish granted, and carries out what that leaves.
    pub(crate) fn change(&mut self, wish: Wish) -> Result<(), Fault> {
        let outcome = self.session.ask(wish);
        self.carry_out();
        match outcome {
            Outcome::Refused(_) => Err(Fault::Refused),
            _ => Ok(()),
        }
    }

    /// Cleans the oldest sector, and carries out what that leaves.
    pub(crate) fn clean(&mut self) -> Result<(), Fault> {
        let cleaned = self.session.clean_oldest();
        self.carry_out();
        match cleaned {
            Ok(Cleaned::Erased { .. }) => Ok(()),
            Ok(Cleaned::OneSector) | Err(_) => Err(Fault::Refused),
        }
    }

    /// Takes each call of the device, as a program would that has a chip.
    fn carry_out(&mut self) {
        let flash = self.session.core().log().flash();
        for _ in 0..flash.left() {
            if let Some(Call::Program { at: _, bytes }) = flash.next() {
                if bytes.len() <= self.buffer.len() {
                    self.buffer[..bytes.len()].copy_from_slice(bytes);
                }
            }
            flash.carried_out();
        }
    }
}

/// The paths of files whose names begin so.
fn paths(alloc: Global, first: &str) -> Result<Vec<String>, Fault> {
    let mut paths = Vec::new(alloc);
    for number in 0..FILES {
        let path = format!(in alloc; "/d/{first}{number:03}")?;
        paths.push(path).map_err(|_| Fault::Memory)?;
    }
    Ok(paths)
}
