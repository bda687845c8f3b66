//! The first word of a line, and how many words stand after it.

use crate::mistake::Mistake;
use crate::quote::Quote;
use crate::word::Words;

/// Which form of line a script asks for.
#[derive(Clone, Copy, Debug, PartialEq, Eq)]
pub enum LineForm {
    /// One queue that all senders share.
    Shared,
    /// A ring for each sender.
    Rings,
}

/// The commands, by their first word.
#[derive(Clone, Copy, Debug, PartialEq, Eq)]
pub(crate) enum Edit {
    MakeDir,
    Create,
    Write,
    Fill,
    Truncate,
    Rename,
    Remove,
}

impl Edit {
    /// The command whose first word this is, if it is one's.
    pub(crate) fn of(word: &str) -> Option<Edit> {
        match word {
            "create" => Some(Edit::Create),
            "fill" => Some(Edit::Fill),
            "write" => Some(Edit::Write),
            "mkdir" => Some(Edit::MakeDir),
            "truncate" => Some(Edit::Truncate),
            "rename" => Some(Edit::Rename),
            "remove" => Some(Edit::Remove),
            _ => None,
        }
    }

    /// `Few`, `Extra` or `Spaces` where the words of a line are not as many as the command has.
    #[cold]
    pub(crate) fn has_form(self, line: Words<'_>) -> Result<(), Mistake> {
        match self {
            Edit::MakeDir => line.as_many(2, "mkdir PATH", ()),
            Edit::Create => line.as_many(2, "create PATH", ()),
            Edit::Write => line.as_many(4, "write PATH OFFSET HEX", ()),
            Edit::Fill => line.as_many(5, "fill PATH OFFSET COUNT HH", ()),
            Edit::Truncate => line.as_many(3, "truncate PATH SIZE", ()),
            Edit::Rename => line.as_many(3, "rename PATH PATH", ()),
            Edit::Remove => line.as_many(2, "remove PATH", ()),
        }
    }
}

/// What a statement begins with that is no command.
#[derive(Clone, Copy, Debug, PartialEq, Eq)]
pub(crate) enum Keyword {
    Volume,
    Line(LineForm),
    Cleaner,
    Reader,
    Writer,
}

impl Keyword {
    /// Reads the head of a line, whose words must be as many as the statement has: its first
    /// word, and of `line` the form too. `Command`, `Spaces`, `Few`, `Extra` or `Choice` if it
    /// isn't that.
    pub(crate) fn take(words: &mut Words<'_>) -> Result<Keyword, Mistake> {
        let line = *words;
        match words.take() {
            "volume" => line.as_many(3, VOLUME_FORM, Keyword::Volume),
            "line" => {
                line.as_many(3, "line shared C, or line rings C", ())?;
                Ok(Keyword::Line(line_form(words.take())?))
            }
            "cleaner" => line.as_many(2, "cleaner N", Keyword::Cleaner),
            "reader" => line.as_many(4, "reader W N PATH", Keyword::Reader),
            "writer" => line.as_many(1, "writer", Keyword::Writer),
            "" => Err(Mistake::Spaces),
            word => Err(Mistake::Command(Quote::of(word))),
        }
    }
}

/// The words of the first statement.
pub(crate) const VOLUME_FORM: &str = "volume S Z";

fn line_form(word: &str) -> Result<LineForm, Mistake> {
    match word {
        "shared" => Ok(LineForm::Shared),
        "rings" => Ok(LineForm::Rings),
        _ => Err(Mistake::Choice {
            wanted: "'shared' or 'rings'",
            word: Quote::of(word),
        }),
    }
}
