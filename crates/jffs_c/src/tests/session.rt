//! A volume as a program in C has it, beside the medium on which its calls are carried out, and
//! lines of text that say what is asked of it.

use crate::calls::NextCall;
use crate::exports::{
    pg_call_failed, pg_calls_left, pg_carried_out, pg_clean, pg_close, pg_create, pg_erase_dead,
    pg_mkdir, pg_name, pg_next_call, pg_remove, pg_rename, pg_truncate, pg_unmount, pg_write,
};
use crate::handle::Handle;
use crate::tests::handles::open_medium;
use crate::tests::words::Words;
use std::alloc::Global;
use std::process::Abort;
use std::test::Fail;

/// A volume, and its medium.
pub(super) struct Session {
    pub(super) alloc: Global,
    pub(super) volume: Handle,
    pub(super) medium: Vec<u8>,
    pub(super) sector_size: u32,
    /// Takes the bytes of a call.
    buffer: Vec<u8>,
}

impl Session {
    /// Opens a medium.
    pub(super) fn open(alloc: Global, medium: Vec<u8>, sector_size: u32) -> Result<Session, Fail> {
        let buffer = vec![in alloc; 0; sector_size as usize / 4]?;
        match open_medium(alloc, &medium, sector_size) {
            Ok(volume) => Ok(Session {
                alloc,
                volume,
                medium,
                sector_size,
                buffer,
            }),
            Err(_) => Err("the medium isn't opened".into()),
        }
    }

    /// Opens an erased medium of so many sectors.
    pub(super) fn erased(alloc: Global, sectors: u32, sector_size: u32) -> Result<Session, Fail> {
        let medium = vec![in alloc; 0xff; sectors.saturating_mul(sector_size) as usize]?;
        Session::open(alloc, medium, sector_size)
    }

    /// Closes the volume.
    pub(super) fn close(self) {
        let Session {
            alloc,
            volume,
            medium: _,
            sector_size: _,
            buffer: _,
        } = self;
        pg_close(alloc, volume);
    }

    /// Plays a script to its end, and closes the volume.
    pub(super) fn played(mut self, rt: &impl Abort, script: &str) -> Result<(), Fail> {
        let played = self.play(rt, script);
        self.close();
        played
    }

    /// Asks for what each line says. After `:` stands what has to be told.
    pub(super) fn play(&mut self, rt: &impl Abort, script: &str) -> Result<(), Fail> {
        for line in script.lines() {
            let (asked, wanted) = line.split_once(" : ").ok_or("a line without answer")?;
            let told = self.tell(asked.trim())?;
            assert_eq!(rt; told.as_str(), wanted, "at {asked}");
        }
        Ok(())
    }

    /// What has to be told where a line asks for something.
    fn tell(&mut self, line: &str) -> Result<String, Fail> {
        let mut words = Words { rest: line };
        match words.take() {
            "leave" => {
                let code = self.change(words.take(), &mut words)?;
                self.name(code)
            }
            "next" => self.tell_next(words.take_number()? as usize),
            "left" => {
                let left = self.calls_left();
                self.number(left)
            }
            "carry" => {
                let carried = self.carry();
                self.whether(carried)
            }
            "carried" => {
                let code = pg_carried_out(&mut self.volume);
                self.name(code)
            }
            "failed" => {
                let code = pg_call_failed(&mut self.volume);
                self.name(code)
            }
            word => self.tell_look_or_change(word, &mut words),
        }
    }

    fn tell_look_or_change(&mut self, word: &str, words: &mut Words) -> Result<String, Fail> {
        if let Some(told) = self.tell_look(word, words)? {
            return Ok(told);
        }
        let code = self.change(word, words)?;
        self.carry_all();
        self.name(code)
    }

    /// Makes a change, and answers its number. Its calls are left.
    pub(super) fn change(&mut self, word: &str, words: &mut Words) -> Result<u32, Fail> {
        let volume = &mut self.volume;
        let path = words.take().as_bytes();
        Ok(match word {
            "create" => pg_create(volume, path),
            "mkdir" => pg_mkdir(volume, path),
            "remove" => pg_remove(volume, path),
            "rename" => pg_rename(volume, path, words.take().as_bytes()),
            "truncate" => pg_truncate(volume, path, words.take_number()?),
            "write" => {
                let offset = words.take_number()?;
                let bytes = words.take_bytes(self.alloc)?;
                pg_write(volume, path, offset, &bytes)
            }
            "unmount" => pg_unmount(volume),
            "clean" => pg_clean(volume),
            "erase-dead" => pg_erase_dead(volume),
            _ => return Err("no such word".into()),
        })
    }

    /// Carries out the next call on the medium. Answers false where none is told of.
    pub(super) fn carry(&mut self) -> bool {
        let Some(call) = self.next() else {
            return false;
        };
        carry_out(&mut self.medium, &call, &self.buffer);
        pg_carried_out(&mut self.volume) == 0
    }

    pub(super) fn calls_left(&mut self) -> u32 {
        pg_calls_left(&mut self.volume)
    }

    /// Carries out all calls that are left.
    pub(super) fn carry_all(&mut self) {
        for _ in 0..self.calls_left() {
            self.carry();
        }
    }

    /// The next call, whose bytes are put into the buffer.
    fn next(&mut self) -> Option<NextCall> {
        let mut call = NextCall {
            erase: false,
            at: 0,
            len: 0,
        };
        if pg_next_call(&mut self.volume, &mut call, &mut self.buffer) == 0 {
            Some(call)
        } else {
            None
        }
    }

    /// The next call in words, where the buffer takes so many bytes.
    fn tell_next(&mut self, room: usize) -> Result<String, Fail> {
        let mut call = NextCall {
            erase: false,
            at: 7,
            len: 7,
        };
        let mut buffer = vec![in self.alloc; 0; room]?;
        let code = pg_next_call(&mut self.volume, &mut call, &mut buffer);
        let name = self.name(code)?;
        let kind = if call.erase { "erase" } else { "program" };
        let (len, at) = (call.len, call.at);
        let first = buffer.first().copied().unwrap_or(0);
        Ok(format!(in self.alloc; "{name} {kind} {len} at {at} first {first}")?)
    }

    /// The medium as it is when the next call was carried out on so many of its bytes.
    pub(super) fn cut_off(&mut self, len: u32) -> Result<Vec<u8>, Fail> {
        let mut medium = self.medium.clone()?;
        if let Some(mut call) = self.next() {
            call.len = call.len.min(len);
            carry_out(&mut medium, &call, &self.buffer);
        }
        Ok(medium)
    }

    /// The name of a code.
    pub(super) fn name(&self, code: u32) -> Result<String, Fail> {
        let mut buffer = [0; 16];
        let len = pg_name(code, &mut buffer);
        let name = std::str::from_utf8(buffer.get(..len).unwrap_or(&[]))?;
        Ok(String::from_str(self.alloc, name)?)
    }

    pub(super) fn whether(&self, is: bool) -> Result<String, Fail> {
        Ok(String::from_str(self.alloc, if is { "yes" } else { "no" })?)
    }

    pub(super) fn number(&self, number: u32) -> Result<String, Fail> {
        Ok(format!(in self.alloc; "{number}")?)
    }
}

/// Carries out a call on a medium.
fn carry_out(medium: &mut [u8], call: &NextCall, bytes: &[u8]) {
    for place in 0..call.len as usize {
        let byte = bytes.get(place).copied().unwrap_or(0);
        if let Some(found) = medium.get_mut((call.at as usize).saturating_add(place)) {
            *found = if call.erase { 0xff } else { *found & byte };
        }
    }
}
