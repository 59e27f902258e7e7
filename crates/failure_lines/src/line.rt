//! The line and the status of a failure.

ghost use Rattle.std.specs.Prelude.{◌≡◌, ℕ, [], ◌∷◌, ◌++◌, codes};
ghost use Rattle.std.specs.Fmt.{decimal};
ghost use Rattle.std.specs.List.{flat_map};
ghost use Rattle.call_meaning.specs.FailureWords.{line_of, status_of, WritesLine};
ghost use Rattle.call_meaning.specs.FailureWords.{count_limit_words, first_name, kind_word, limit_words, link_words};
ghost use Rattle.call_meaning.specs.FailureWords.{name_field, one_name, two_names, what_word};
ghost use Rattle.call_meaning.specs.declared.refusal.Failure.TheVariants.{NoText};
ghost use Rattle.call_meaning.specs.declared.refusal.Stop.TheVariants.{Refused};
ghost use Rattle.call_meaning.specs.declared.refusal.Refusal.TheVariants.{File};

use call_meaning::{
    DesignRefusal, Failure, FileRefusal, PassedLimit, Refusal, Stop, TextRefusal, Unlinked,
};
use command_line::FileName;
use envelope::What;
use itoa::Buffer;
use link_rules::LinkRefusal;
use std::mem;
use xt_io::{MOST_BYTES, Sink, write_whole};
use xt_model::{LimitKind, Name};

/// Writes the line of a failure, and gives its status. A fault of the sink cuts the line off and changes nothing
/// else.
pub fn refuse<E: Sink>(err: &mut E, failure: Failure) -> u8
    ensures status { result ≡ status_of failure }
    ensures line { WritesLine (E.written err.old) (E.written err.new) (E.faults err.old) (E.faults err.new)
        (line_of failure) }
{
    write_line(err, &failure);
    let status = status(&failure);
    mem::drop(failure);
    status
}

// The exit status of a failure.
fn status(failure: &Failure) -> u8
    ensures { result ≡ status_of failure.now }
{
    match failure {
        Failure::NoText(Stop::Refused(why)) => refusal_status(why),
        Failure::NoText(Stop::Unread { file: _ }) => 6,
        Failure::Unwritten => 7,
        Failure::NoText(Stop::NoMemory) => 8,
    }
}

// The exit status of a refusal.
fn refusal_status(why: &Refusal) -> u8
    ensures { result ≡ status_of (NoText (Refused why.now)) }
{
    match why {
        Refusal::Words => 2,
        Refusal::File {
            file: _,
            why: FileRefusal::Content(TextRefusal::At { line: _, code: _ }),
        } => 3,
        Refusal::File {
            file: _,
            why: FileRefusal::Content(TextRefusal::Beyond(_)),
        } => 5,
        Refusal::File {
            file: _,
            why: FileRefusal::TooLong,
        } => 5,
        Refusal::Linking(Unlinked::Refused(_)) => 4,
        Refusal::Linking(Unlinked::Beyond(_)) => 5,
        Refusal::Design(DesignRefusal::Limit(_)) => 5,
    }
}

// The word for what is too great in an envelope.
fn word_of_what(what: What) -> &'static [u8]
    ensures { result.now ≡ what_word what }
{
    match what {
        What::Time => b"time",
        What::Slew => b"slew",
    }
}

// Writes the line as far as the sink takes it.
fn write_line<E: Sink>(err: &mut E, failure: &Failure)
    ensures { WritesLine (E.written err.old) (E.written err.new) (E.faults err.old) (E.faults err.new)
        (line_of failure.now) }
{
    match failure {
        Failure::NoText(stop) => write_stop(err, stop),
        Failure::Unwritten => write_pieces(err, &[b"write fault\n"]),
    }
}

// Writes why there is no text.
fn write_stop<E: Sink>(err: &mut E, stop: &Stop)
    ensures { WritesLine (E.written err.old) (E.written err.new) (E.faults err.old) (E.faults err.new)
        (line_of (NoText stop.now)) }
{
    match stop {
        Stop::Refused(why) => write_refusal(err, why),
        Stop::Unread { file } => {
            write_pieces(err, &[b"read fault: ", file.as_str().as_bytes(), b"\n"])
        }
        Stop::NoMemory => write_pieces(err, &[b"out of memory\n"]),
    }
}

// Writes why the words and the files mean no text.
fn write_refusal<E: Sink>(err: &mut E, why: &Refusal)
    ensures { WritesLine (E.written err.old) (E.written err.new) (E.faults err.old) (E.faults err.new)
        (line_of (NoText (Refused why.now))) }
{
    match why {
        Refusal::Words => write_pieces(err, &[b"xtalk: bad command line\n"]),
        Refusal::File { file, why } => write_file_refusal(err, file, why),
        Refusal::Linking(Unlinked::Refused(why)) => write_unlinked(err, why),
        Refusal::Linking(Unlinked::Beyond(limit)) => write_count_limit(err, limit),
        Refusal::Design(DesignRefusal::Limit(limit)) => {
            let mut buffer = Buffer::new();
            let value = buffer.format(limit.value).as_bytes();
            write_limit(err, word_of_what(limit.what), &limit.name, value)
        }
    }
}

// Writes why a file of this name gives nothing.
fn write_file_refusal<E: Sink>(err: &mut E, file: &FileName, why: &FileRefusal)
    ensures { WritesLine (E.written err.old) (E.written err.new) (E.faults err.old) (E.faults err.new)
        (line_of (NoText (Refused (File file.now why.now)))) }
{
    match why {
        FileRefusal::TooLong => {
            let mut buffer = Buffer::new();
            let length = buffer.format(MOST_BYTES + 1).as_bytes();
            let name = file.as_str().as_bytes();
            write_pieces(err, &[b"limit: file ", name, b" ", length, b"\n"])
        }
        FileRefusal::Content(TextRefusal::At { line, code }) => {
            write_place(err, file, *line, code.text().as_bytes())
        }
        FileRefusal::Content(TextRefusal::Beyond(limit)) => write_count_limit(err, limit),
    }
}

// Writes where a text is refused, and why.
fn write_place<E: Sink>(err: &mut E, file: &FileName, line: u32, code: &[u8])
    ensures { WritesLine (E.written err.old) (E.written err.new) (E.faults err.old) (E.faults err.new)
        ((file.now ++ (codes ":" ++ (decimal line ++ (codes ": " ++ code.now)))) ++ 10 ∷ []) }
{
    let mut buffer = Buffer::new();
    write_pieces(
        err,
        &[
            file.as_str().as_bytes(),
            b":",
            buffer.format(line).as_bytes(),
            b": ",
            code,
            b"\n",
        ],
    )
}

// The word for what has a limit.
fn word_of_kind(what: LimitKind) -> &'static [u8]
    ensures { result.now ≡ kind_word what }
{
    match what {
        LimitKind::Nets => b"nets",
        LimitKind::Instances => b"instances",
        LimitKind::Nodes => b"nodes",
        LimitKind::Load => b"load",
        LimitKind::Couplings => b"couplings",
        LimitKind::Coefficients => b"coefficients",
        LimitKind::Arcs => b"arcs",
        LimitKind::Tables => b"tables",
        LimitKind::Checks => b"checks",
        LimitKind::Reads => b"reads",
    }
}

// Writes a code with one name after it.
fn write_one_name<E: Sink>(err: &mut E, code: &[u8], name: &[u8])
    ensures { WritesLine (E.written err.old) (E.written err.new) (E.faults err.old) (E.faults err.new)
        ((codes "link: " ++ one_name code.now name.now) ++ 10 ∷ []) }
{
    write_pieces(err, &[b"link: ", code, b" ", name, b"\n"])
}

// Writes a code with two names after it.
fn write_two_names<E: Sink>(err: &mut E, code: &[u8], first: &Name, second: &Name)
    ensures { WritesLine (E.written err.old) (E.written err.new) (E.faults err.old) (E.faults err.new)
        ((codes "link: " ++ two_names code.now first.now second.now) ++ 10 ∷ []) }
{
    write_pieces(
        err,
        &[
            b"link: ",
            code,
            b" ",
            first.bytes(),
            b" ",
            second.bytes(),
            b"\n",
        ],
    )
}

// The first name, or nothing.
fn first_of(names: &[Name]) -> &[u8]
    ensures { result.now ≡ first_name names.now }
{
    match names.first() {
        Some(name) => name.bytes(),
        None => b"",
    }
}

// Writes why the files of a block make no design together.
fn write_unlinked<E: Sink>(err: &mut E, why: &LinkRefusal)
    ensures { WritesLine (E.written err.old) (E.written err.new) (E.faults err.old) (E.faults err.new)
        ((codes "link: " ++ link_words why.now) ++ 10 ∷ []) }
{
    match why {
        LinkRefusal::K1 { instance, cell } => write_two_names(err, b"K1", instance, cell),
        LinkRefusal::K2 { instance, pin } => write_two_names(err, b"K2", instance, pin),
        LinkRefusal::K3 { net } => write_one_name(err, b"K3", net.bytes()),
        LinkRefusal::K4 { nets } => write_one_name(err, b"K4", first_of(nets.as_slice())),
        LinkRefusal::K5 { net } => write_one_name(err, b"K5", net.bytes()),
        LinkRefusal::K6 { net, node } => write_two_names(err, b"K6", net, node),
        LinkRefusal::K7 { check } => write_one_name(err, b"K7", check.bytes()),
        LinkRefusal::K9 { instance, cell } => write_two_names(err, b"K9", instance, cell),
    }
}

// Writes which limit is passed, at which net, and by what.
fn write_limit<E: Sink>(err: &mut E, what: &[u8], name: &Option<Name>, value: &[u8])
    ensures { WritesLine (E.written err.old) (E.written err.new) (E.faults err.old) (E.faults err.new)
        (limit_words what.now name.now value.now ++ 10 ∷ []) }
{
    let (name, space) = name_pieces(name);
    write_pieces(err, &[b"limit: ", what, b" ", name, space, value, b"\n"])
}

// Writes which limit a text or a block passes.
fn write_count_limit<E: Sink>(err: &mut E, limit: &PassedLimit<LimitKind, u128>)
    ensures { WritesLine (E.written err.old) (E.written err.new) (E.faults err.old) (E.faults err.new)
        (count_limit_words limit.now ++ 10 ∷ []) }
{
    let mut buffer = Buffer::new();
    let value = buffer.format(limit.value).as_bytes();
    write_limit(err, word_of_kind(limit.what), &limit.name, value)
}

// A name and a space, or nothing twice.
fn name_pieces(name: &Option<Name>) -> (&[u8], &[u8])
    ensures { result.0.now ++ result.1.now ≡ name_field name.now }
{
    match name {
        Some(name) => (name.bytes(), b" "),
        None => (b"", b""),
    }
}

// Writes pieces one after another, as far as the sink takes them.
fn write_pieces<E: Sink>(err: &mut E, pieces: &[&[u8]])
    ensures { WritesLine (E.written err.old) (E.written err.new) (E.faults err.old) (E.faults err.new)
        (flat_map (λ piece. piece.now) pieces.now) }
{
    for piece in pieces {
        let Ok(()) = write_whole(err, piece) else {
            return;
        };
    }
}
