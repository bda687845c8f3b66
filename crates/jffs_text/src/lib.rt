//! The texts of the file system: the script that a run reads, and the lines that tell of a tree.
//!
//! `Script::parse` carries the script's grammar, and `Script::read` says what is wrong in words;
//! `dump` is the tree's text; `Usage` reads the words that a program is called with, which
//! `words_given` hands to it once `see_streams` has seen that its standard streams are open.
#![tactic(auto)]

mod arguments;
mod cause;
mod command;
mod dumping;
mod fault;
mod given;
mod keyword;
mod lines;
mod mistake;
mod quote;
mod script;
mod spelled;
mod streams;
mod word;

pub use arguments::{Usage, Work};
pub use cause::cause_name;
pub use command::{Command, FILL_MAX};
pub use dumping::{DumpFault, dump, write_hex};
pub use fault::{ScriptFault, ScriptWhy};
pub use given::words_given;
pub use lines::line_text;
pub use mistake::{Mistake, ScriptMistake};
pub use quote::{QUOTE_MAX, Quote, Shown};
pub use script::{
    CAPACITY_MAX, COMMANDS_MAX, LINE_MAX, LineChoice, LineForm, READERS_MAX, ROUNDS_MAX,
    ReaderStatement, SCRIPT_MAX, Script, WRITERS_MAX, Writer,
};
pub use spelled::SpelledPath;
pub use streams::see_streams;
pub use word::Words;
