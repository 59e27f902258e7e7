//! The words of small SDC texts, worked out by hand from the rules.

use crate::rows::{at_bar, with_lines};
use sdc_words::{Commands, NameList, Word};
use std::alloc::{AllocError, Global};
use std::test::Fail;
use xt_lex::MOST_BYTES;
use xt_model::Row;

/// Appends what kind of word this is, and its bytes after a space.
fn push_bytes(out: &mut String, kind: &str, bytes: &[u8]) -> Result<(), AllocError> {
    out.push_str(kind)?;
    out.push_str(str::from_utf8(bytes).unwrap_or("?"))
}

/// Appends a list of names.
fn push_list(out: &mut String, kind: &str, list: NameList<'_>) -> Result<(), AllocError> {
    out.push_str(kind)?;
    match list {
        NameList::One(name) => push_bytes(out, " one ", name),
        NameList::Many(names) => push_bytes(out, " many ", names),
    }
}

/// Appends a word.
fn push_word(out: &mut String, word: Word<'_>) -> Result<(), AllocError> {
    match word {
        Word::Bare(bytes) => push_bytes(out, "bare ", bytes),
        Word::Braced(bytes) => push_bytes(out, "braced ", bytes),
        Word::Quoted(bytes) => push_bytes(out, "quoted ", bytes),
        Word::Ports(list) => push_list(out, "ports", list),
        Word::Clocks(list) => push_list(out, "clocks", list),
        Word::AllInputs => out.push_str("inputs"),
        Word::AllOutputs => out.push_str("outputs"),
        Word::Bracketed => out.push_str("bracketed"),
    }
}

/// The words of a command, with ` ¦ ` between them, or `-` where they do not fit.
fn in_words(alloc: Global, words: &Option<Row<Word<'_>>>) -> Result<String, AllocError> {
    let mut out = String::new(alloc);
    match words {
        None => out.push_str("-")?,
        Some(words) => {
            for word in words.as_slice() {
                if !out.is_empty() {
                    out.push_str(" ¦ ")?;
                }
                push_word(&mut out, *word)?;
            }
        }
    }
    Ok(out)
}

/// The line and the words of each command of a text, with ` ; ` between them.
fn commands_of(alloc: Global, text: &str) -> Result<String, Fail> {
    if MOST_BYTES < text.len() {
        return Err(Fail::from("too long"));
    }
    let mut commands = Commands::new(text.as_bytes());
    let mut out = String::new(alloc);
    for _ in 0..9 {
        if let Some(command) = commands.next_command(alloc)? {
            let (line, words) = (command.line, in_words(alloc, &command.words)?);
            let words = words.as_str();
            let one = format!(in alloc; "{line} {words} ; ")?;
            out.push_str(one.as_str())?;
        }
    }
    Ok(out)
}

/// The commands of a text, and the text.
const COMMANDS: &str = "\
1 bare a ¦ bare bus[0]x ¦ bare b ; | a bus[0]x b
1 bare a ¦ braced b c ¦ quoted d ; e ; | a {b c} \"d ; e\"
1 - ; | a\\⏎ {}\"\"
1 bare a ¦ braced  ¦ quoted  ; | a\\⏎ {} \"\"
1 ports one y ¦ clocks many a b ; | [get_ports y] [get_clocks {a b}]
1 inputs ¦ outputs ¦ bracketed ; | [all_inputs] [ all_outputs ] [get_ports]
1 bracketed ¦ bracketed ; | [get_ports [x y]] []
1 - ; | [[]{a}]
1 bare a}\"{ ¦ bare c ; | a}\"{ c
1 - ; | z[0
1 - ; 1 - ; | z[0;1]
1 - ; | z[ 0]
1 - ; | ]
1 - ; | a ]
1 - ; | [a
1 - ; | {a}b
1 - ; | \"a\"[b]
1 - ; | [a]b
1 - ; | a {b}{c}
3 bare a ¦ bare b ; 4 bare c ; 6 bare d ¦ braced e⏎ ¦ bare f ; | # c \\⏎ d⏎ ;; a \\⏎ b; c⏎⏎d {e⏎} f
";

#[test]
fn words_are_bare_braced_quoted_or_bracketed(rt: HostRuntime) -> Result<(), Fail> {
    for row in COMMANDS.lines() {
        let (want, text) = at_bar(row)?;
        let (want, text) = (with_lines(rt.alloc(), want)?, with_lines(rt.alloc(), text)?);
        let words = commands_of(rt.alloc(), text.as_str())?;
        assert!(rt; words.as_str().trim() == want.as_str(), "{words} at {row}");
    }
    Ok(())
}
