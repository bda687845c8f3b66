//! What is seen of a volume, in words that a script has.

use crate::exports::{
    pg_entry, pg_is_clean, pg_longest_of, pg_look, pg_read, pg_usage_of, pg_wants_cleaning,
};
use crate::looks::{Longest, PathSight, VolumeUsage};
use crate::tests::session::Session;
use crate::tests::words::Words;
use std::test::Fail;

/// What no look sees.
const UNSEEN: PathSight = PathSight {
    directory: true,
    size: 77,
};

impl Session {
    /// What a look tells; `None` for a word that is none.
    pub(super) fn tell_look(
        &mut self,
        word: &str,
        words: &mut Words,
    ) -> Result<Option<String>, Fail> {
        Ok(Some(match word {
            "look" => self.tell_sight(words.take())?,
            "read" => self.tell_read(words)?,
            "entry" => self.tell_entry(words)?,
            "longest" => self.tell_longest()?,
            "usage" => self.tell_usage()?,
            "wants-cleaning" => {
                let mut wants = false;
                let code = pg_wants_cleaning(&mut self.volume, &mut wants);
                self.tell_whether(code, wants)?
            }
            "is-clean" => {
                let mut clean = false;
                let code = pg_is_clean(&mut self.volume, &mut clean);
                self.tell_whether(code, clean)?
            }
            _ => return Ok(None),
        }))
    }

    /// What stands at a path.
    pub(super) fn tell_sight(&mut self, path: &str) -> Result<String, Fail> {
        let mut sight = UNSEEN;
        let code = pg_look(&mut self.volume, path.as_bytes(), &mut sight);
        self.sight(code, sight)
    }

    fn sight(&self, code: u32, sight: PathSight) -> Result<String, Fail> {
        if code != 0 {
            if sight != UNSEEN {
                return Err("something was written".into());
            }
            return self.name(code);
        }
        let (kind, size) = (
            if sight.directory { "directory" } else { "file" },
            sight.size,
        );
        Ok(format!(in self.alloc; "{kind} {size}")?)
    }

    /// The bytes of a file from an offset on, as many as a buffer of this length takes.
    pub(super) fn tell_read(&mut self, words: &mut Words) -> Result<String, Fail> {
        let path = words.take();
        let offset = words.take_number()?;
        let mut buffer = vec![in self.alloc; b'.'; words.take_number()? as usize]?;
        let mut count = 77usize;
        let code = pg_read(
            &mut self.volume,
            path.as_bytes(),
            offset,
            &mut buffer,
            &mut count,
        );
        let text = std::str::from_utf8(&buffer)?;
        if code == 0 {
            return Ok(format!(in self.alloc; "{count} [{text}]")?);
        }
        let name = self.name(code)?;
        Ok(format!(in self.alloc; "{count} [{text}] {name}")?)
    }

    /// The name with a number, in a buffer of this length.
    fn tell_entry(&mut self, words: &mut Words) -> Result<String, Fail> {
        let path = words.take();
        let number = words.take_number()?;
        let mut buffer = vec![in self.alloc; b'.'; words.take_number()? as usize]?;
        let mut len = 77usize;
        let mut sight = UNSEEN;
        let volume = &mut self.volume;
        let code = pg_entry(
            volume,
            path.as_bytes(),
            number,
            &mut buffer,
            &mut len,
            &mut sight,
        );
        let sight = self.sight(code, sight)?;
        let text = std::str::from_utf8(&buffer)?;
        Ok(format!(in self.alloc; "[{text}] {len} {sight}")?)
    }

    fn tell_longest(&mut self) -> Result<String, Fail> {
        let mut longest = Longest {
            write: 0,
            path: 0,
            name: 0,
            depth: 0,
            file: 0,
        };
        let code = pg_longest_of(&mut self.volume, &mut longest);
        if code != 0 {
            return self.name(code);
        }
        let Longest {
            write,
            path,
            name,
            depth,
            file,
        } = longest;
        Ok(format!(in self.alloc; "{write} {path} {name} {depth} {file}")?)
    }

    fn tell_usage(&mut self) -> Result<String, Fail> {
        let mut usage = VolumeUsage {
            sectors: 0,
            sector_size: 0,
            erased: 0,
            records: 0,
            weight: 0,
            sure: 0,
        };
        let code = pg_usage_of(&mut self.volume, &mut usage);
        if code != 0 {
            return self.name(code);
        }
        let (sectors, size, erased) = (usage.sectors, usage.sector_size, usage.erased);
        let (records, weight, sure) = (usage.records, usage.weight, usage.sure);
        Ok(format!(in self.alloc; "{sectors} {size} {erased} {records} {weight} {sure}")?)
    }

    fn tell_whether(&self, code: u32, is: bool) -> Result<String, Fail> {
        if code != 0 {
            return self.name(code);
        }
        self.whether(is)
    }
}
