//! How the program is called.

use jffs_text::{Shown, Words};
use std::alloc::{AllocFailed, Global};
use thiserror::Error;

/// The word that a call begins with.
#[derive(Clone, Copy, PartialEq, Eq)]
enum CommandWord {
    Format,
    List,
    Show,
    Put,
    MakeDir,
    Move,
    Remove,
    Usage,
    Check,
    Map,
    Save,
    Load,
    Serve,
}

impl CommandWord {
    /// The command that a word names.
    fn of(word: &str) -> Option<CommandWord> {
        match word {
            "format" => Some(CommandWord::Format),
            "ls" => Some(CommandWord::List),
            "cat" => Some(CommandWord::Show),
            "put" => Some(CommandWord::Put),
            "mkdir" => Some(CommandWord::MakeDir),
            "mv" => Some(CommandWord::Move),
            "rm" => Some(CommandWord::Remove),
            "df" => Some(CommandWord::Usage),
            "check" => Some(CommandWord::Check),
            "map" => Some(CommandWord::Map),
            "save" => Some(CommandWord::Save),
            "load" => Some(CommandWord::Load),
            "serve" => Some(CommandWord::Serve),
            _ => None,
        }
    }

    /// The words of a call, as the help has them.
    fn form(self) -> &'static str {
        match self {
            CommandWord::Format => "format FILE SECTORS SECTOR_SIZE",
            CommandWord::List => "ls [-l] FILE [PATH]",
            CommandWord::Show => "cat FILE PATH",
            CommandWord::Put => "put FILE PATH",
            CommandWord::MakeDir => "mkdir FILE PATH",
            CommandWord::Move => "mv FILE PATH PATH",
            CommandWord::Remove => "rm [-r] FILE PATH",
            CommandWord::Usage => "df FILE",
            CommandWord::Check => "check FILE",
            CommandWord::Map => "map [--svg] FILE",
            CommandWord::Save => "save [--from-damaged] FILE DIRECTORY",
            CommandWord::Load => "load FILE DIRECTORY",
            CommandWord::Serve => "serve FILE",
        }
    }

    /// The fewest words that follow it.
    fn least(self) -> usize {
        match self {
            CommandWord::List
            | CommandWord::Usage
            | CommandWord::Check
            | CommandWord::Map
            | CommandWord::Serve => { 1 },
            CommandWord::Show
            | CommandWord::Put
            | CommandWord::MakeDir
            | CommandWord::Remove
            | CommandWord::Save
            | CommandWord::Load => { 2 },
            CommandWord::Format | CommandWord::Move => 3,
        }
    }

    /// The most words that follow it.
    fn most(self) -> usize {
        match self {
            CommandWord::List => 2,
            _ => self.least(),
        }
    }
}

/// A call of the program.
#[derive(Clone, Copy)]
pub(crate) enum VolumeCall<'a> {
    Help,
    Version,
    Do(VolumeWork<'a>),
}

/// What is to be done with a volume, and in which file.
#[derive(Clone, Copy)]
pub(crate) struct VolumeWork<'a> {
    pub task: Task<'a>,
    pub file: &'a str,
    /// The word after the file, as it stands; empty where there is none.
    pub first: &'a str,
    /// The word after that; empty where there is none.
    pub second: &'a str,
    /// What `--sector-size` says, in bytes.
    pub sector_size: Option<u32>,
}

impl<'a> VolumeWork<'a> {
    /// The words that the line about a fault names, in order, of which some may be empty: the file,
    /// and the paths after it.
    pub fn names(self) -> [&'a str; 3] {
        match self.task {
            Task::Format { .. } => [self.file, "", ""],
            _ => [self.file, self.first, self.second],
        }
    }
}

/// What is to be done with a volume.
#[derive(Clone, Copy)]
pub(crate) enum Task<'a> {
    /// An empty one is made, of so many sectors of so many bytes.
    Format { sectors: u32, sector_size: u32 },
    /// It is looked at, and stays as it is.
    Look(VolumeLook<'a>),
    /// It is changed.
    Change(VolumeChange<'a>),
    /// All of it is written into this directory of the host; of a volume that is refused, if
    /// `damaged`, what its records make.
    Save { directory: &'a str, damaged: bool },
    /// It answers the requests of standard input.
    Serve,
}

/// What is to be seen of a volume.
#[derive(Clone, Copy)]
pub(crate) enum VolumeLook<'a> {
    /// The names in a directory; `long` with what they weigh.
    List { path: &'a str, long: bool },
    /// The bytes of the file at this path.
    Show(&'a str),
    Usage,
    Check,
    /// What its sectors hold; `svg` as a picture.
    Map { svg: bool },
}

/// What is to be changed on a volume.
#[derive(Clone, Copy)]
pub(crate) enum VolumeChange<'a> {
    Put(&'a str),
    MakeDir(&'a str),
    Move { from: &'a str, to: &'a str },
    Remove(&'a str),
    /// What stands at the path is removed, with all below it.
    RemoveAll(&'a str),
    /// All of this directory of the host is put into it.
    Load(&'a str),
}

/// Why words are no call of the program. `run_volume` writes its text.
#[derive(Clone, Copy, Debug, Error)]
pub enum CallFault<'a> {
    /// There is no word after the program's name.
    #[error("a command is wanted: format, ls, cat, put, mkdir, mv, rm, df, check, map, save, \
    load or serve; --help tells more")]
    NoCommand,
    /// The first word is no command.
    #[error("unknown command '{}'; commands are format, ls, cat, put, mkdir, mv, rm, df, check, \
    map, save, load and serve", Shown::text(.0))]
    Command(&'a str),
    /// A word that begins with `-` is no option.
    #[error("unknown option '{}'; options are -l, -r, --svg, --from-damaged, --sector-size, \
    --help and --version", Shown::text(.0))]
    Option(&'a str),
    /// An option that this command doesn't have, and the words that it has.
    #[error("unexpected option '{0}': {1}")]
    Foreign(&'static str, &'static str),
    /// A word after the last that the command has.
    #[error("unexpected word '{}'", Shown::text(.0))]
    Extra(&'a str),
    /// The command has more words, which are these.
    #[error("words are missing: {0}")]
    Few(&'static str),
    /// A word that should be a number isn't one.
    #[error("a number is wanted, got '{}'", Shown::text(.0))]
    Number(&'a str),
    /// No word stands after `--sector-size`.
    #[error("--sector-size wants a number")]
    NoNumber,
    /// A word beside one that stands alone.
    #[error("unexpected word '{}' beside '{alone}', which stands alone", Shown::text(word))]
    Beside { word: &'a str, alone: &'a str },
    /// A word without bytes.
    #[error("an empty word; --help tells which words there are")]
    Empty,
    /// Allocation failed.
    #[error("out of memory")]
    Memory,
}

impl<'a, T: Drop> From<AllocFailed<T>> for CallFault<'a> {
    fn from(_: AllocFailed<T>) -> CallFault<'a> {
        CallFault::Memory
    }
}

/// The options of a call.
#[derive(Clone, Copy)]
struct Options {
    sector_size: Option<u32>,
    long: bool,
    recursive: bool,
    svg: bool,
    from_damaged: bool,
}

impl Options {
    /// The first of these options that the command doesn't have.
    fn foreign_to(self, command: CommandWord) -> Option<&'static str> {
        if self.long && command != CommandWord::List {
            Some("-l")
        } else if self.recursive && command != CommandWord::Remove {
            Some("-r")
        } else if self.svg && command != CommandWord::Map {
            Some("--svg")
        } else if self.from_damaged && command != CommandWord::Save {
            Some("--from-damaged")
        } else {
            None
        }
    }
}

/// Reads the words of a call, the program's own name first. A word that begins with `-` is an
/// option; `--help`, or `-h`, and `--version` stand alone.
pub(crate) fn call_of<'a>(
    alloc: Global,
    words: &'a [String],
) -> Result<VolumeCall<'a>, CallFault<'a>> {
    let mut plain: Vec<&'a str> = Vec::new(alloc);
    let mut options = Options {
        sector_size: None,
        long: false,
        recursive: false,
        svg: false,
        from_damaged: false,
    };
    let mut wants_number = false;
    for word in words.iter().skip(1) {
        let word = word.as_str();
        if word.is_empty() {
            return Err(CallFault::Empty);
        }
        if wants_number {
            options.sector_size = Some(number_of(word)?);
            wants_number = false;
            continue;
        }
        match word {
            "--help" | "-h" => return alone(words, word, VolumeCall::Help),
            "--version" => return alone(words, word, VolumeCall::Version),
            "--sector-size" => wants_number = true,
            "-l" => options.long = true,
            "-r" => options.recursive = true,
            "--svg" => options.svg = true,
            "--from-damaged" => options.from_damaged = true,
            _ if word.starts_with('-') => return Err(CallFault::Option(word)),
            _ => plain.push(word)?,
        }
    }
    if wants_number {
        return Err(CallFault::NoNumber);
    }
    work_of(&plain, options).map(VolumeCall::Do)
}

/// What a word asks for that stands alone in a call. `Beside` with the first other word.
fn alone<'a>(
    words: &'a [String],
    asked: &'a str,
    call: VolumeCall<'a>,
) -> Result<VolumeCall<'a>, CallFault<'a>> {
    for word in words.iter().skip(1) {
        let word = word.as_str();
        if word != asked {
            return Err(CallFault::Beside { word, alone: asked });
        }
    }
    Ok(call)
}

/// A command with the words that follow it.
fn work_of<'a>(words: &[&'a str], options: Options) -> Result<VolumeWork<'a>, CallFault<'a>> {
    let Some((&word, rest)) = words.split_first() else {
        return Err(CallFault::NoCommand);
    };
    let Some(command) = CommandWord::of(word) else {
        return Err(CallFault::Command(word));
    };
    if let Some(option) = options.foreign_to(command) {
        return Err(CallFault::Foreign(option, command.form()));
    }
    if let Some(&extra) = rest.get(command.most()) {
        return Err(CallFault::Extra(extra));
    }
    if rest.len() < command.least() {
        return Err(CallFault::Few(command.form()));
    }
    let first = word_at(rest, 1);
    let second = word_at(rest, 2);
    Ok(VolumeWork {
        task: task_of(command, first, second, options)?,
        file: word_at(rest, 0),
        first,
        second,
        sector_size: options.sector_size,
    })
}

/// What a command asks for with the words after the file, where it has as many as it wants.
fn task_of<'a>(
    command: CommandWord,
    first: &'a str,
    second: &'a str,
    options: Options,
) -> Result<Task<'a>, CallFault<'a>> {
    Ok(match command {
        CommandWord::Format => Task::Format {
            sectors: number_of(first)?,
            sector_size: number_of(second)?,
        },
        CommandWord::List => Task::Look(VolumeLook::List {
            path: if first.is_empty() { "/" } else { first },
            long: options.long,
        }),
        CommandWord::Show => Task::Look(VolumeLook::Show(first)),
        CommandWord::Usage => Task::Look(VolumeLook::Usage),
        CommandWord::Check => Task::Look(VolumeLook::Check),
        CommandWord::Map => Task::Look(VolumeLook::Map { svg: options.svg }),
        CommandWord::Save => Task::Save {
            directory: first,
            damaged: options.from_damaged,
        },
        CommandWord::Put => Task::Change(VolumeChange::Put(first)),
        CommandWord::MakeDir => Task::Change(VolumeChange::MakeDir(first)),
        CommandWord::Move => Task::Change(VolumeChange::Move {
            from: first,
            to: second,
        }),
        CommandWord::Remove if options.recursive => Task::Change(VolumeChange::RemoveAll(first)),
        CommandWord::Remove => Task::Change(VolumeChange::Remove(first)),
        CommandWord::Load => Task::Change(VolumeChange::Load(first)),
        CommandWord::Serve => Task::Serve,
    })
}

fn word_at<'a>(words: &[&'a str], index: usize) -> &'a str {
    match words.get(index) {
        Some(&word) => word,
        None => "",
    }
}

/// The number that a word spells.
fn number_of<'a>(word: &'a str) -> Result<u32, CallFault<'a>> {
    let mut words = Words::of(word);
    if words.count() != 1 {
        return Err(CallFault::Number(word));
    }
    match words.take_number(0, u32::MAX) {
        Ok(number) => Ok(number),
        Err(_) => Err(CallFault::Number(word)),
    }
}
