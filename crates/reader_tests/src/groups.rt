//! The groups of short libraries, worked out by hand.

use crate::rows::{Reader, Texts, compare, with_lines};
use liberty_groups::{Group, Span, read_groups};
use std::alloc::{AllocError, Global};
use std::test::*;
use xt_lex::MOST_BYTES;

/// Appends the words and strings of some spans, each after a space, and a line end.
fn push_spans(out: &mut String, text: &str, spans: &[Span]) -> Result<(), AllocError> {
    for span in spans {
        let part = text.get(span.from as usize..span.to as usize);
        out.push_str(" ")?;
        out.push_str(part.unwrap_or("?"))?;
    }
    out.push_str("\n")
}

/// Appends a group: its line and its arguments, and the line and the values of each attribute.
fn push_group(
    alloc: Global,
    out: &mut String,
    text: &str,
    group: &Group,
) -> Result<(), AllocError> {
    let line = group.line();
    let head = format!(in alloc; "group {line}")?;
    out.push_str(head.as_str())?;
    push_spans(out, text, group.args())?;
    for attribute in group.attributes() {
        let line = attribute.line;
        let head = format!(in alloc; "attribute {line}")?;
        out.push_str(head.as_str())?;
        push_spans(out, text, attribute.values())?;
    }
    Ok(())
}

/// Appends a library and the groups in it, each with the number of groups in it.
fn push_library(
    alloc: Global,
    out: &mut String,
    text: &str,
    library: &Group,
) -> Result<(), AllocError> {
    push_group(alloc, out, text, library)?;
    for group in library.inner() {
        push_spans(out, text, &[group.name()])?;
        push_group(alloc, out, text, group)?;
        let count = group.inner().len();
        let count = format!(in alloc; "groups {count}\n")?;
        out.push_str(count.as_str())?;
    }
    Ok(())
}

/// The library of a text.
fn shown(alloc: Global, text: &str) -> Result<String, Fail> {
    if MOST_BYTES < text.len() {
        return Err(Fail::from("too long"));
    }
    let library = read_groups(alloc, text.as_bytes())?;
    let mut out = String::new(alloc);
    push_library(alloc, &mut out, text, &library)?;
    Ok(out)
}

/// A library with a group, on five lines.
const LIBRARY: &str =
    "library (x, \"y\") {\n a : 1 \"b c\";\n b (2 : \"3\")\n g (h) { c : d; }\n;}\n;";

/// What it is.
const SHOWN: &str = "\
group 1 x \"y\"
attribute 2 1 \"b c\"
attribute 3 2 \"3\"
 g
group 4 h
attribute 4 d
groups 0
";

#[test]
fn a_library_has_its_attributes_and_groups_in_order(rt: HostRuntime) -> Result<(), Fail> {
    let shown = shown(rt.alloc(), LIBRARY)?;
    assert_eq!(rt; shown.as_str(), SHOWN);
    Ok(())
}

/// Libraries with a token that does not fit, and texts that end too early.
const TOKENS: &str = "\
read | library (x) { }
read | ⏎library (x) { }⏎;;⏎
read | library (x) { a (1) b (2); c () g () { } }
L2 1 |
L2 3 | library (x) {⏎ a : 1;⏎
L2 3 | library (x) {⏎ a : \"1;⏎}
L1 2 | library (x) {⏎\u{1} a : \"1;⏎}
L1 1 | library (x) { } y
L1 1 | lib (x) { }
L1 1 | library (x);
L1 2 | library (x) {⏎ a : ;⏎}
L1 3 | library (x) {⏎ a⏎}
L1 2 | library (x) {⏎ \"a\" : 1; }
L1 2 | library (x) { }⏎}
";

/// Libraries with 63, 64 and 65 groups within one another.
const DEPTHS: &str = "\
read | library (x) {⟨62:g () {⟩⟨63:}⟩
read | library (x) {⟨63:g () {⟩⟨64:}⟩
L1 1 | library (x) {⟨64:g () {⟩⟨65:}⟩
";

/// All tables.
const TEXTS: [Texts; 2] = [
    (Reader::Groups, "", TOKENS, ""),
    (Reader::Groups, "", DEPTHS, ""),
];

#[test]
fn texts_are_read_or_refused_at_their_lines(rt: HostRuntime) -> Result<(), Fail> {
    compare(&rt, rt.alloc(), &TEXTS)
}

/// A library with 10,000 attributes, one a line from line 2 on.
const ATTRIBUTES: &str = "library (x) {⏎⟨10000: a : 1;⏎⟩}⏎";

/// How many attributes a library has, and the line of the last.
fn last_attribute(library: &Group) -> (usize, u32) {
    match library.attributes().last() {
        Some(last) => (library.attributes().len(), last.line),
        None => (0, 0),
    }
}

/// The same of the library of a text.
fn attributes_of(alloc: Global, text: &[u8]) -> Result<(usize, u32), Fail> {
    if MOST_BYTES < text.len() {
        return Err(Fail::from("too long"));
    }
    let library = read_groups(alloc, text)?;
    Ok(last_attribute(&library))
}

/// The same of the library with many.
fn attributes_of_many(alloc: Global) -> Result<(usize, u32), Fail> {
    let text = with_lines(alloc, ATTRIBUTES)?;
    attributes_of(alloc, text.as_bytes())
}

#[test]
fn a_group_may_have_many_attributes(rt: HostRuntime) -> Result<(), Fail> {
    assert_eq!(rt; attributes_of_many(rt.alloc())?, (10_000, 10_001));
    Ok(())
}
