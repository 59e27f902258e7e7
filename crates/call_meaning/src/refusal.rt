//! Why a call does not print its text, by layer: refusals of a design, of a text, of a file and of the call, each with
//! what its line prints.

use command_line::FileName;
use envelope::What;
use link_rules::LinkRefusal;
use xt_model::{Code, LimitKind, Name};

/// A limit that is passed: what has it, the name of its net, if it is a net's, and the number that passes it (of a time
/// or a slew in fs, of a load in aF).
#[derive(Drop)]
pub struct PassedLimit<W, V> {
    pub what: W,
    pub name: Option<Name>,
    pub value: V,
}

/// Why a design has no report.
#[derive(Drop)]
pub enum DesignRefusal {
    /// A window of its envelope passes a limit: the first one that does.
    Limit(PassedLimit<What, i128>),
}

/// Why a text means nothing.
#[derive(Drop)]
pub enum TextRefusal {
    /// It is refused at this line, counted from 1.
    At { line: u32, code: Code },
    /// It passes a limit: a load has the name of its net.
    Beyond(PassedLimit<LimitKind, u128>),
}

/// Why a file that was read gives nothing.
#[derive(Drop)]
pub enum FileRefusal {
    /// It has more bytes than a file may have.
    TooLong,
    /// Its content is refused.
    Content(TextRefusal),
}

/// Why the values of the four files of a block make no design.
#[derive(Drop)]
pub enum Unlinked {
    /// They do not agree on something.
    Refused(LinkRefusal),
    /// They pass a limit: nodes and a load have the name of their net.
    Beyond(PassedLimit<LimitKind, u128>),
}

/// Why the words and the files of a call mean no text.
#[derive(Drop)]
pub enum Refusal {
    /// The words are outside the grammar.
    Words,
    /// A file is refused.
    File { file: FileName, why: FileRefusal },
    /// The files make no design together.
    Linking(Unlinked),
    /// The design is refused.
    Design(DesignRefusal),
}

/// Why a call has no text to print.
#[derive(Drop)]
pub enum Stop {
    /// The words and the files mean none.
    Refused(Refusal),
    /// A file could not be read.
    Unread { file: FileName },
    /// There was no memory.
    NoMemory,
}

/// Why a call did not print its whole text.
#[derive(Drop)]
pub enum Failure {
    /// It had none.
    NoText(Stop),
    /// The text could not be written.
    Unwritten,
}
