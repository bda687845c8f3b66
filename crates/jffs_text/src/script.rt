//! Scripts, and how one is read.

ghost use Rattle.std.specs.Prelude.{◌≡◌, ◌≤◌, true, length, IfOk, IfSome, OnOk};
ghost use Rattle.jffs_flash.specs.Sizes.{is_geometry as allows_geometry};
ghost use Rattle.jffs_text.specs.declared.keyword.Keyword.TheVariants as keyword;
ghost use Rattle.jffs_text.specs.Scripts.{IsInBounds, IsDraft, Admits};

use crate::command::Command;
use crate::fault::{ScriptFault, ScriptWhy};
pub use crate::keyword::LineForm;
use crate::keyword::{Edit, Keyword, VOLUME_FORM};
use crate::lines::{Lines, all_printable, line_text, utf8_text};
use crate::mistake::{Mistake, ScriptMistake};
use crate::quote::Quote;
use crate::word::Words;
use jffs_flash::{MAX_SECTORS, MIN_SECTORS, is_geometry};
use jffs_node::Path;
use memchr::memrchr;
use std::alloc::{AllocError, Global};

/// The longest line, in bytes.
pub const LINE_MAX: usize = 16_384;
/// The most readers of a script.
pub const READERS_MAX: usize = 16;
/// The most writers of a script.
pub const WRITERS_MAX: usize = 8;
/// The most commands of one writer.
pub const COMMANDS_MAX: usize = 4096;
/// The most bytes of a script: as many as all its statements could have, each on a line of its own.
pub const SCRIPT_MAX: usize = (3 + READERS_MAX + WRITERS_MAX * (1 + COMMANDS_MAX)) * (LINE_MAX + 1);
/// The most requests that a line, or each of its rings, may be asked to hold.
pub const CAPACITY_MAX: u32 = 256;
/// The most rounds of a cleaner.
pub const ROUNDS_MAX: u32 = 1_000_000;

/// The line that a script asks for: its form and its capacity, 1 to 256 requests. One queue of that
/// capacity serves all senders, or each sender has a ring of it.
#[derive(Clone, Copy, Debug, PartialEq, Eq)]
pub struct LineChoice {
    pub form: LineForm,
    pub capacity: u32,
}

/// The line of a script that has no `line` statement.
const USUAL_LINE: LineChoice = LineChoice {
    form: LineForm::Shared,
    capacity: 16,
};

/// A reader: it looks until request `seq` of `writer` is answered, and then reads `path`.
#[derive(Drop)]
pub struct ReaderStatement {
    /// The number of a writer, 1 to 8, who need not be there.
    pub writer: u32,
    /// The number of one of that writer's requests, from 1.
    pub seq: u32,
    /// What is read then.
    pub path: Path,
}

/// What one writer asks for.
#[derive(Drop)]
pub struct Writer<'a> {
    /// At most 4,096 commands, in order.
    pub commands: Vec<Command<'a>>,
}

/// A script that was read: the volume, the line, who takes part, and what each writer asks for. The
/// paths of its commands stay in its text.
#[derive(Drop)]
pub struct Script<'a> {
    /// How many sectors the volume has, 6 to 64.
    pub sectors: u32,
    /// How long each is: 1024, 2048, 4096, 8192 or 16384 bytes.
    pub sector_size: u32,
    /// How requests go to the log thread.
    pub line: LineChoice,
    /// The rounds of the cleaner, 1 to 1,000,000, where there is one.
    pub cleaner: Option<u32>,
    /// At most 16 readers, in the order of their lines.
    pub readers: Vec<ReaderStatement>,
    /// At most 8 writers; the first has number 1.
    pub writers: Vec<Writer<'a>>,
}

impl<'a> Script<'a> {
    /// Reads a script. An error has the first line that is refused, from 1, and the first reason
    /// that holds there; `Memory` comes wherever allocation failed.
    pub fn parse(alloc: Global, text: &'a [u8]) -> Result<Script<'a>, ScriptFault>
        ensures bounds { IfOk result IsInBounds }
        ensures ends { OnOk result (length text.now ≤ SCRIPT_MAX) }
    {
        match Script::read(alloc, text) {
            Ok(script) => Ok(script),
            Err(mistake) => Err(mistake.fault),
        }
    }

    /// Reads a script as `parse` does. An error has the fault of `parse`, and says more of it.
    pub fn read(alloc: Global, text: &'a [u8]) -> Result<Script<'a>, ScriptMistake>
        ensures bounds { IfOk result IsInBounds }
        ensures ends { OnOk result (length text.now ≤ SCRIPT_MAX) }
    {
        if text.len() > SCRIPT_MAX {
            return Err(endless(alloc, &text[..SCRIPT_MAX]));
        }
        Script::read_lines(alloc, text)
    }

    /// Why a script that begins so is refused, whatever follows; `None` where it may still be
    /// taken, and where allocation failed.
    pub fn mistake_so_far(alloc: Global, text: &'a [u8]) -> Option<ScriptMistake> {
        match Script::read_lines(alloc, whole_lines(text)) {
            Ok(_) => None,
            Err(mistake) => match mistake.mistake {
                Mistake::Empty | Mistake::Memory => None,
                _ => Some(mistake),
            },
        }
    }

    /// Reads a script, however long it is.
    fn read_lines(alloc: Global, text: &'a [u8]) -> Result<Script<'a>, ScriptMistake>
        ensures bounds { IfOk result IsInBounds }
    {
        let mut draft = Draft::new(alloc);
        for (index, line) in Lines::of(text).enumerate() {
            if let Err(found) = draft.take_line(line) {
                let mistake = draft.first_mistake(line, found);
                return Err(ScriptMistake {
                    fault: ScriptFault {
                        line: index + 1,
                        why: draft.why(mistake),
                    },
                    mistake,
                });
            }
        }
        draft.finish().ok_or(ScriptMistake {
            fault: ScriptFault {
                line: 1,
                why: ScriptWhy::Empty,
            },
            mistake: Mistake::Empty,
        })
    }
}

/// Why a script is refused that has more bytes than these, which are as many as one may have.
fn endless(alloc: Global, front: &[u8]) -> ScriptMistake {
    let front = whole_lines(front);
    match Script::read_lines(alloc, front) {
        Err(mistake) if mistake.mistake != Mistake::Empty => mistake,
        _ => ScriptMistake {
            fault: ScriptFault {
                line: Lines::of(front).count(),
                why: ScriptWhy::Text,
            },
            mistake: Mistake::Endless,
        },
    }
}

/// The lines of a text that end in it; and a last one that is too long, whatever follows.
fn whole_lines(text: &[u8]) -> &[u8] {
    let end = match memrchr(b'\n', text) {
        Some(before) => before + 1,
        None => 0,
    };
    if text.len() - end > LINE_MAX {
        text
    } else {
        &text[..end]
    }
}

/// What was read so far.
#[derive(Drop)]
struct Draft<'a> {
    alloc: Global,
    volume: Option<(u32, u32)>,
    line: Option<LineChoice>,
    cleaner: Option<u32>,
    readers: Vec<ReaderStatement>,
    writers: Vec<Writer<'a>>,
}

impl<'a> Draft<'a> {
    fn new(alloc: Global) -> Draft<'a>
        ensures { IsDraft result }
    {
        Draft {
            alloc,
            volume: None,
            line: None,
            cleaner: None,
            readers: Vec::new(alloc),
            writers: Vec::new(alloc),
        }
    }

    /// The script, where some line had a statement.
    fn finish(self) -> Option<Script<'a>>
        requires draft { IsDraft self }
        ensures { IfSome result IsInBounds }
    {
        let (sectors, sector_size) = self.volume?;
        Some(Script {
            sectors,
            sector_size,
            line: self.line.unwrap_or(USUAL_LINE),
            cleaner: self.cleaner,
            readers: self.readers,
            writers: self.writers,
        })
    }

    /// Takes a line. Each word of its statement is tested, and has no byte that a line may not
    /// have, so that a line which is taken is known to be printable.
    fn take_line(&mut self, line: &'a [u8]) -> Result<(), Mistake>
        requires draft { IsDraft self.old }
        ensures { OnOk result (IsDraft self.new) }
    {
        let text = utf8_text(line)?;
        if text.is_empty() {
            return Ok(());
        }
        if text.starts_with('#') {
            return all_printable(line);
        }
        let line = Words::of(text);
        if self.volume.is_none() {
            self.volume = Some(volume_sizes(line)?);
            return Ok(());
        }
        let mut words = line;
        match Edit::of(words.take()) {
            Some(edit) => self.take_command(edit, words),
            None => self.take_statement(line),
        }
    }

    /// The mistake of a line that is told, where this one was found: a byte that isn't allowed
    /// comes before any other, and the number of a command's words before what they are.
    #[cold]
    fn first_mistake(&self, line: &[u8], found: Mistake) -> Mistake {
        match self.has_form(line) {
            Ok(()) => found,
            Err(mistake) => mistake,
        }
    }

    /// That a line is printable, and a command in it has as many words as it should.
    fn has_form(&self, line: &[u8]) -> Result<(), Mistake> {
        let line = Words::of(line_text(line)?);
        let mut words = line;
        match Edit::of(words.take()) {
            Some(edit) if self.volume.is_some() => edit.has_form(line),
            _ => Ok(()),
        }
    }

    /// The kind of a line's mistake: `Volume` for any on the first statement, but `Text` as such.
    fn why(&self, mistake: Mistake) -> ScriptWhy {
        match mistake.why() {
            ScriptWhy::Text => ScriptWhy::Text,
            _ if self.volume.is_none() => ScriptWhy::Volume,
            why => why,
        }
    }

    /// Whether the statement may stand here.
    fn admit(&self, keyword: Keyword) -> Result<(), Mistake>
        ensures { OnOk result (Admits self.now keyword) }
    {
        let headed = self.writers.len() > 0;
        match keyword {
            Keyword::Volume => Err(Mistake::SecondVolume),
            Keyword::Line(_) if headed => Err(Mistake::Late("line")),
            Keyword::Line(_) if self.line.is_some() => Err(Mistake::Second("line")),
            Keyword::Cleaner if headed => Err(Mistake::Late("cleaner")),
            Keyword::Cleaner if self.cleaner.is_some() => Err(Mistake::Second("cleaner")),
            Keyword::Reader if headed => Err(Mistake::Late("reader")),
            Keyword::Reader if self.readers.len() >= READERS_MAX => Err(Mistake::Readers),
            Keyword::Writer if self.writers.len() >= WRITERS_MAX => Err(Mistake::Writers),
            _ => Ok(()),
        }
    }

    /// Takes a statement that is no command.
    fn take_statement(&mut self, mut words: Words<'_>) -> Result<(), Mistake>
        requires draft { IsDraft self.old }
        ensures { OnOk result (IsDraft self.new) }
    {
        let keyword = Keyword::take(&mut words)?;
        self.admit(keyword)?;
        match keyword {
            Keyword::Volume => {}
            Keyword::Line(form) => {
                let capacity = words.take_number(1, CAPACITY_MAX)?;
                self.line = Some(LineChoice { form, capacity });
            }
            Keyword::Cleaner => self.cleaner = Some(words.take_number(1, ROUNDS_MAX)?),
            Keyword::Reader => self.take_reader(words)?,
            Keyword::Writer => self.begin_writer()?,
        }
        Ok(())
    }

    /// Takes a command of the last writer, where there is one.
    fn take_command(&mut self, edit: Edit, words: Words<'a>) -> Result<(), Mistake>
        requires draft { IsDraft self.old }
        ensures { OnOk result (IsDraft self.new) }
    {
        let Some(writer) = self.writers.last_mut() else {
            return Err(Mistake::Outside);
        };
        if writer.commands.len() >= COMMANDS_MAX {
            return Err(Mistake::Commands);
        }
        writer
            .commands
            .push(Command::parse(self.alloc, edit, words)?)?;
        Ok(())
    }

    fn take_reader(&mut self, mut words: Words<'_>) -> Result<(), Mistake>
        requires draft { IsDraft self.old }
        requires room { Admits self.old keyword.Reader }
        ensures { OnOk result (IsDraft self.new) }
    {
        let writer = words.take_number(1, WRITERS_MAX as u32)?;
        let seq = words.take_number(1, u32::MAX)?;
        let path = words.take_path(self.alloc)?;
        self.readers.push(ReaderStatement { writer, seq, path })?;
        Ok(())
    }

    fn begin_writer(&mut self) -> Result<(), AllocError>
        requires draft { IsDraft self.old }
        requires room { Admits self.old keyword.Writer }
        ensures { OnOk result (IsDraft self.new) }
    {
        self.writers.push(Writer {
            commands: Vec::new(self.alloc),
        })?;
        Ok(())
    }
}

/// The sizes in the first statement, where it is a `volume` with sizes that a volume may have.
fn volume_sizes(mut words: Words<'_>) -> Result<(u32, u32), Mistake>
    ensures { IfOk result (λ sizes. allows_geometry sizes.0 sizes.1 ≡ true) }
{
    let line = words;
    let word = words.take();
    if word != "volume" {
        return Err(Mistake::NoVolume(Quote::of(word)));
    }
    line.as_many(3, VOLUME_FORM, ())?;
    let sectors = words.take_number(0, u32::MAX)?;
    if sectors < MIN_SECTORS || MAX_SECTORS < sectors {
        return Err(Mistake::Sectors(sectors));
    }
    let sector_size = words.take_number(0, u32::MAX)?;
    if is_geometry(sectors, sector_size) {
        Ok((sectors, sector_size))
    } else {
        Err(Mistake::SectorSize(sector_size))
    }
}
