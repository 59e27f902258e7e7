//! Small libraries, each worked out by hand from the rules.

mod example;

use crate::rows::{Reader, Texts, answer, at_bar, compare, in_words, with_lines};
use example::{EXAMPLE, EXAMPLE_SHOWN};
use liberty_cells::{Cell, Library, Pin, Timing, read_library};
use std::alloc::{AllocError, Global};
use std::process::Abort;
use std::test::*;
use xt_lex::{MOST_BYTES, TextFault};
use xt_model::Table;

/// Reads a library.
fn read(alloc: Global, text: &[u8]) -> Result<Library, TextFault> {
    if MOST_BYTES < text.len() {
        return Err(TextFault::NoMemory);
    }
    read_library(alloc, text)
}

/// The scales of time and of capacitance, after units.
const UNITS: &str = "\
6 6 |
3 3 | time_unit : \"1ps\"; capacitive_load_unit (1, ff);
4 5 | time_unit : 10ps; capacitive_load_unit (\"0.1\", \"pF\");
5 6 | time_unit (100ps); capacitive_load_unit (1000.0, FF);
6 0 | time_unit : 5ps; time_unit : 1ns; capacitive_load_unit (1e-3, ff);
";

/// The two scales of a library with this content.
fn scales(alloc: Global, content: &str) -> Result<String, Fail> {
    let text = format!(in alloc; "library (x) {{{content}}}")?;
    let library = read(alloc, text.as_bytes())?;
    let (time, cap) = (library.time_scale, library.cap_scale);
    Ok(format!(in alloc; "{time} {cap}")?)
}

#[test]
fn units_have_their_scales(rt: HostRuntime) -> Result<(), Fail> {
    for row in UNITS.lines() {
        let (want, content) = at_bar(row)?;
        let words = scales(rt.alloc(), content)?;
        assert!(rt; words.as_str() == want, "{words} at {row}");
    }
    Ok(())
}

/// Units, and names of templates and cells.
const NAMES: &str = "\
L8 1 | time_unit : 5ps;
L8 1 | time_unit : 1NS;
L8 1 | time_unit : 1 ns;
L8 2 | ⏎capacitive_load_unit (2, pf);
L8 2 | ⏎capacitive_load_unit (1, pf, 1);
L8 2 | ⏎capacitive_load_unit (10000, pf);
L8 2 | ⏎capacitive_load_unit (2, pf);⏎time_unit : 2ns;
L8 1 | lu_table_template () { } time_unit : 2ns;
L1 2 | cell () { }⏎lu_table_template (t, u) { }
L1 2 | ⏎lu_table_template (\"a b\") { }
L7 2 | cell (A) { }⏎cell (\"A\") { }⏎cell (A) { }
L1 2 | cell (A) { }⏎cell (A, B) { }
read | cell (A) { } cell (\"\\A\\B\") { } cell (a) { }
";

/// Pins.
const PINS: &str = "\
L1 2 | cell (A) {⏎pin () { } }
L1 2 | cell (A) {⏎pin (B, \"\") {⏎capacitance : x; } }
read | cell (A) { pin (B, B) { } pin (B) { } }
L3 2 | cell (A) { pin (B) {⏎capacitance : x; } }
L3 2 | cell (A) { pin (B) {⏎capacitance : 1 2; } }
L3 2 | cell (A) { pin (B) {⏎capacitance : -0.001; } }
read | cell (A) { pin (B) { capacitance : x;⏎capacitance : 1; } }
read | cell (A) { pin (B) { capacitance : -0.0000000001; } }
read | cell (A) { pin (B) { capacitance : 1099511.627776; } }
L3 1 | cell (A) { pin (B) { capacitance : 1099511.627777; } }
L3 2 | cell (A) { pin (B) { timing () { }⏎capacitance : x; } }
read | cell (A) { bundle (B) { pin () { } } }
";

/// What comes before a name on line 2 and after it: that of a template, a cell, a pin and a related pin.
const PLACES: [(&[u8], &[u8]); 4] = [
    (b"library (x) {\nlu_table_template (", b") { } }"),
    (b"library (x) {\ncell (", b") { } }"),
    (b"library (x) {cell (A) {\npin (", b") { } } }"),
    (
        b"library (x) {cell (A) { pin (Z) { timing () {\nrelated_pin : ",
        b"; } } } }",
    ),
];

/// What becomes of a library with this name in a place.
fn answer_named(alloc: Global, before: &[u8], name: &[u8], after: &[u8]) -> Result<String, Fail> {
    let mut text = Vec::from_slice(alloc, before)?;
    text.extend_from_slice(name)?;
    text.extend_from_slice(after)?;
    answer(alloc, Reader::Library, text.as_slice())
}

/// Compares what becomes of libraries with this name in each place.
fn compare_named(rt: &impl Abort, alloc: Global, name: &[u8], want: &str) -> Result<(), Fail> {
    for (before, after) in &PLACES {
        let words = answer_named(alloc, before, name, after)?;
        assert!(rt; words.as_str() == want, "{words} at {want}");
    }
    Ok(())
}

/// The same of a name by its pattern.
fn compare_long(rt: &impl Abort, alloc: Global, name: &str, want: &str) -> Result<(), Fail> {
    let name = with_lines(alloc, name)?;
    compare_named(rt, alloc, name.as_bytes(), want)
}

/// Names in quotes: of the least and the greatest byte that may be in one, of those beyond these, and beyond ASCII.
const BYTES: [(&[u8], &str); 4] = [
    (b"\"!~\"", "read"),
    (b"\"a\x7f\"", "L1 2"),
    (b"\"\xff\"", "L1 2"),
    (b"\"\x1fa\"", "L1 2"),
];

#[test]
fn a_name_is_printable_and_has_at_most_1024_bytes(rt: HostRuntime) -> Result<(), Fail> {
    let alloc = rt.alloc();
    for (name, want) in &BYTES {
        compare_named(&rt, alloc, name, want)?;
    }
    compare_long(&rt, alloc, "⟨1024:x⟩", "read")?;
    compare_long(&rt, alloc, "⟨1025:x⟩", "L1 2")
}

/// The kind of the only timing group of a library.
fn only_kind(alloc: Global, library: &Library) -> Result<String, Fail> {
    let kind = only_timing(library)?.kind;
    Ok(format!(in alloc; "{kind:?}")?)
}

/// What a library with one timing group means: the kind of the group, or the refusal.
fn kind_in_words(alloc: Global, direction: &str, content: &str) -> Result<String, Fail> {
    let content = with_lines(alloc, content)?;
    let content = content.as_str();
    let text = format!(in alloc;
        "library (x) {{ cell (A) {{ pin (Z) {{ direction : {direction}; timing () {{\n{content}}} }} }} }}"
    )?;
    match read(alloc, text.as_bytes()) {
        Ok(library) => only_kind(alloc, &library),
        Err(fault) => in_words(alloc, Err::<(), TextFault>(fault)),
    }
}

/// The first timing group of the first pin of the first cell.
fn only_timing(library: &Library) -> Result<&Timing, Fail> {
    let cell = library.cells.as_slice().first().ok_or("no cell")?;
    let pin = cell.pins.as_slice().first().ok_or("no pin")?;
    Ok(pin.timings().first().ok_or("no timing group")?)
}

/// Kinds of timing groups, by the direction of the pin and what the group has.
const KINDS: &str = "\
Combinational | output | related_pin : A;
Unsupported | input | related_pin : A;
Unsupported | inout | timing_type : rising_edge;
RisingEdge | output | related_pin : A; timing_type : \"rising_edge\";
SetupRising | input | related_pin : A; timing_type : setup_rising;
HoldRising | input | related_pin : A; timing_type : hold_rising;
Unsupported | output | timing_type : hold_rising;
Unsupported | output | timing_type : falling_edge;
Unsupported | output | timing_type : clear rising_edge;
Unsupported | output | timing_type : combinational_rise;
Skipped | output | timing_type : clear; cell_rise (u) { }
Combinational | output | related_pin : A; rise_constraint (u) { }
";

/// Types of timing groups that have no use.
const UNUSED: &str = "\
Skipped | input | timing_type : clear;
Skipped | output | timing_type : clear;
Skipped | input | timing_type : preset;
Skipped | output | timing_type : preset;
Skipped | input | timing_type : recovery_rising;
Skipped | output | timing_type : recovery_rising;
Skipped | input | timing_type : recovery_falling;
Skipped | output | timing_type : recovery_falling;
Skipped | input | timing_type : removal_rising;
Skipped | output | timing_type : removal_rising;
Skipped | input | timing_type : removal_falling;
Skipped | output | timing_type : removal_falling;
Skipped | input | timing_type : three_state_enable;
Skipped | output | timing_type : three_state_enable;
Skipped | input | timing_type : three_state_disable;
Skipped | output | timing_type : three_state_disable;
Skipped | input | timing_type : three_state_enable_rise;
Skipped | output | timing_type : three_state_enable_rise;
Skipped | input | timing_type : three_state_enable_fall;
Skipped | output | timing_type : three_state_enable_fall;
Skipped | input | timing_type : three_state_disable_rise;
Skipped | output | timing_type : three_state_disable_rise;
Skipped | input | timing_type : three_state_disable_fall;
Skipped | output | timing_type : three_state_disable_fall;
Skipped | input | timing_type : min_pulse_width;
Skipped | output | timing_type : min_pulse_width;
Skipped | input | timing_type : minimum_period;
Skipped | output | timing_type : minimum_period;
";

/// Timing groups that are refused.
const TIMINGS: &str = "\
L4 1 | output |
L4 1 | input | timing_type : setup_rising;
L1 2 | output | timing_type : clear; related_pin : \" \";
L1 2 | output | related_pin (); cell_rise (scalar) { }
L1 2 | output | related_pin : A B;
L4 1 | output | related_pin : A; cell_rise (u) { }
L4 1 | output | related_pin : A; rise_transition (u) { }
L4 1 | output | related_pin : A; cell_fall (u) { }
L4 1 | output | related_pin : A; fall_transition (u) { }
L6 2 | output | related_pin : A; cell_rise (u) { }⏎rise_transition (v) { }
L6 2 | input | related_pin : A; timing_type : hold_rising; fall_constraint (u) { }
";

#[test]
fn timing_groups_have_their_kinds_or_are_refused(rt: HostRuntime) -> Result<(), Fail> {
    for rows in [KINDS, UNUSED, TIMINGS] {
        for row in rows.lines() {
            let (want, rest) = at_bar(row)?;
            let (direction, content) = at_bar(rest)?;
            let words = kind_in_words(rt.alloc(), direction, content)?;
            assert!(rt; words.as_str() == want, "{words} at {row}");
        }
    }
    Ok(())
}

/// Slews in rows on lines 3 and 5, loads in columns on lines 4 and 6; the cell is on line 7.
const SLEWS_FIRST: &str = "lu_table_template (t) {\nvariable_1 : input_net_transition;\n\
    variable_2 : total_output_net_capacitance;\nindex_1 (\"0.1, 0.2\");\nindex_2 (\"1 2,3\"); }";

/// The same with the loads first.
const LOADS_FIRST: &str = "lu_table_template (t) {\nvariable_1 : total_output_net_capacitance;\n\
    variable_2 : input_net_transition;\nindex_1 (\"1 2 3\");\nindex_2 (\"0.1,0.2\"); }";

/// A template, by its text or by what it has first.
fn template_of(words: &str) -> &str {
    match words {
        "slews first" => SLEWS_FIRST,
        "loads first" => LOADS_FIRST,
        text => text,
    }
}

/// Appends numbers, each after a space.
fn push_numbers(alloc: Global, out: &mut String, numbers: &[i64]) -> Result<(), AllocError> {
    for number in numbers {
        let text = format!(in alloc; " {number}")?;
        out.push_str(text.as_str())?;
    }
    Ok(())
}

/// A table: its slews, its loads and its values.
fn table_in_words(alloc: Global, table: &Table) -> Result<String, AllocError> {
    let mut out = String::from_str(alloc, "slews")?;
    push_numbers(alloc, &mut out, table.slews())?;
    out.push_str("; loads")?;
    push_numbers(alloc, &mut out, table.loads())?;
    out.push_str("; values")?;
    push_numbers(alloc, &mut out, table.values())?;
    Ok(out)
}

/// The first of the two tables of a library, which are those of a timing group's rise and its slew.
fn first_table(alloc: Global, library: &Library) -> Result<String, Fail> {
    let timing = only_timing(library)?;
    if (timing.rise, timing.rise_slew) != (Some(0), Some(1)) {
        return Err(Fail::from("other tables"));
    }
    let [first, _] = library.tables.as_slice() else {
        return Err(Fail::from("not two tables"));
    };
    Ok(table_in_words(alloc, first)?)
}

/// What a library of a template, which begins on line 2, and of two tables means, the arguments of the first of which
/// begin on the line after the template: that table, or the refusal.
fn tables_in_words(alloc: Global, template: &str, table: &str) -> Result<String, Fail> {
    let template = with_lines(alloc, template_of(template))?;
    let table = with_lines(alloc, table)?;
    let (template, table) = (template.as_str(), table.as_str());
    let text = format!(in alloc;
        "library (x) {{\n{template}\ncell (A) {{ pin (Z) {{ direction : output; timing () {{ related_pin : B; \
        cell_rise {table}rise_transition (scalar) {{ values (1); }} }} }} }} }}"
    )?;
    match read(alloc, text.as_bytes()) {
        Ok(library) => first_table(alloc, &library),
        Err(fault) => in_words(alloc, Err::<(), TextFault>(fault)),
    }
}

/// Tables with templates.
const TABLES: &str = "\
slews 0; loads 0; values 500000 |  | (scalar) { values (\"0.5\"); }
slews 100000 200000; loads 1000000 2000000 3000000; values 1000000 2000000 3000000 4000000 5000000 6000000 \
    | slews first | (t) { values (\"1,2,3\", \"4,5,6\"); }
slews 100000 200000; loads 1000000 2000000 3000000; values 1000000 3000000 5000000 2000000 4000000 6000000 \
    | loads first | (t) { values (\"1,2\", \"3,4\", \"5,6\"); }
slews 300000; loads 4000000; values 8000000 | slews first \
    | (t) { index_1 (0.3); index_2 (\"4\"); values (7); values (8); }
slews 300000 400000; loads -1000000 5000000; values 1000000 2000000 3000000 4000000 | slews first \
    | (t) { index_1 (\" ,0.3,,0.4 \"); index_2 (\"-1\", \"\\5\"); values (\"1,\\⏎2\", 3, \".4e1\"); }
slews 40000 50000; loads 1000 2000 3000; values 10000 30000 50000 20000 40000 60000 \
    | time_unit : 10ps; capacitive_load_unit (1, ff); lu_table_template (t) {variable_1 : \
    total_output_net_capacitance; variable_2 : input_net_transition;index_1 (1, 2, 3); index_2 (9); } | (t) \
    { index_2 (4, 5); values (\"1,2\", \"3,4\", \"5,6\"); }
";

/// Tables with templates of one axis or none.
const AXES: &str = "\
slews 0; loads 1000000 2000000; values 3000000 4000000 \
    | lu_table_template (t) { variable_1 : total_output_net_capacitance; index_1 (1, 2); } | (t) { values \
    (3, 4); }
slews 1000000 2000000; loads 0; values 3000000 4000000 \
    | lu_table_template (t) { variable_2 : input_net_transition; index_2 (1, 2); } | (t) { values (3, 4); }
slews 0; loads 0; values 3000000 | lu_table_template (t) { variable_1 : x; } lu_table_template (t) { } \
    | (\"t\") { values (3); }
slews 0; loads 0; values 3000000 | lu_table_template (scalar) { variable_1 : x; } | (scalar) { values (3); }
";

/// Tables that are refused.
const REFUSED_TABLES: &str = "\
L6 3 |  | (t) { values (x); }
L6 3 |  | () { values (1); }
L6 3 |  | (scalar, scalar) { values (1); }
L3 4 |  | (scalar) {⏎values (1.); }
L4 4 |  | (scalar) {⏎values (1, 2); }
L4 3 |  | (scalar) {⏎}
L4 4 |  | (scalar) {⏎index_1 (0); values (1); }
L4 8 | slews first | (t) {⏎values (1, 2); }
L3 8 | slews first | (t) { index_1 (0.2, 0.1);⏎values (1, x); }
L5 8 | slews first | (t) { values (1);⏎index_2 (2, 2); }
L3 8 | slews first | (t) { values (1);⏎index_2 (2, y); }
L4 8 | slews first | (t) {⏎values (1);⏎index_2 (); }
L4 9 | slews first | (t) {⏎values ();⏎index_2 (); }
";

/// Templates that are refused.
const REFUSED_TEMPLATES: &str = "\
L4 3 | lu_table_template (t) {⏎variable_1 : input_net_transition; } | (t) { values (1); }
L4 3 | lu_table_template (t) {⏎index_2 (1); } | (t) { values (1); }
L4 3 | lu_table_template (t) {⏎variable_1 : related_pin_transition; index_1 (1); } | (t) { values (1); }
L4 3 | lu_table_template (t) { variable_1 : input_net_transition; index_1 (1); index_2 (1);⏎variable_2 : \
    input_net_transition; } | (t) { values (1); }
L5 3 | lu_table_template (t) { variable_1 : input_net_transition; values (1);⏎index_1 (1, 0); } \
    | (t) { values (1); }
L5 3 | lu_table_template (t) { variable_1 : input_net_transition; values (1);⏎index_1 (0.1, 0.1); } \
    | (t) { values (1); }
L3 3 | lu_table_template (t) { variable_1 : input_net_transition;⏎index_1 (1, z); } \
    | (t) { index_2 (1);⏎values (z); }
L4 3 | time_unit : 1ps; lu_table_template (t) {⏎variable_1 : x; index_1 (1.2e6); } | (t) { values (1); }
L3 3 | capacitive_load_unit (1, ff); lu_table_template (t) {⏎variable_1 : x; index_1 (1.2e6); } \
    | (t) { values (1); }
";

#[test]
fn tables_are_row_by_row_or_refused_at_their_lines(rt: HostRuntime) -> Result<(), Fail> {
    for rows in [TABLES, AXES, REFUSED_TABLES, REFUSED_TEMPLATES] {
        for row in rows.lines() {
            let (want, rest) = at_bar(row)?;
            let (template, table) = at_bar(rest)?;
            let words = tables_in_words(rt.alloc(), template, table)?;
            assert!(rt; words.as_str() == want, "{words} at {row}");
        }
    }
    Ok(())
}

/// Indexes of 64 and of 65 numbers, on line 7, each with a number as the other index and as many values.
const INDEXES: &str = "\
read | ⟨64: #⟩\"); index_2 (0);⏎index_1 (\"⟨64: #⟩
read | ⟨64: #⟩\"); index_1 (0);⏎index_2 (\"⟨64: #⟩
L4 7 | ⟨65: #⟩\"); index_2 (0);⏎index_1 (\"⟨65: #⟩
L4 7 | ⟨65: #⟩\"); index_1 (0);⏎index_2 (\"⟨65: #⟩
";

/// What comes before them, with the template of slews first.
const BEFORE_INDEXES: &str =
    "library (x) {\nlu_table_template (t) {\nvariable_1 : input_net_transition;\n\
    variable_2 : total_output_net_capacitance;\nindex_1 (\"0.1, 0.2\");\nindex_2 (\"1 2,3\"); }\
    cell (A) { pin (Z) { direction : output; timing () { related_pin : B; \
    rise_transition (scalar) { values (1); } cell_rise (t) { values (\"";

/// All tables of texts.
const TEXTS: [Texts; 3] = [
    (Reader::Library, "library (x) {", NAMES, "}"),
    (Reader::Library, "library (x) {", PINS, "}"),
    (Reader::Library, BEFORE_INDEXES, INDEXES, "\"); } } } } }"),
];

#[test]
fn texts_are_read_or_refused_at_their_lines(rt: HostRuntime) -> Result<(), Fail> {
    compare(&rt, rt.alloc(), &TEXTS)
}

/// The number of a table, or `-`.
fn number_in_words(alloc: Global, number: Option<u32>) -> Result<String, AllocError> {
    match number {
        Some(number) => format!(in alloc; "{number}"),
        None => format!(in alloc; "-"),
    }
}

/// Appends a name after a space.
fn push_name(out: &mut String, name: &[u8]) -> Result<(), Fail> {
    out.push_str(" ")?;
    Ok(out.push_str(str::from_utf8(name).unwrap_or("?"))?)
}

/// Appends a timing group: its kind, its sense, the numbers of its tables, and its related pins.
fn push_timing(alloc: Global, out: &mut String, timing: &Timing) -> Result<(), Fail> {
    let (kind, sense) = (timing.kind, timing.sense);
    let head = format!(in alloc; "timing {kind:?} {sense:?}")?;
    out.push_str(head.as_str())?;
    for number in [timing.rise, timing.fall, timing.rise_slew, timing.fall_slew] {
        let number = number_in_words(alloc, number)?;
        out.push_str(" ")?;
        out.push_str(number.as_str())?;
    }
    let mut names = timing.related.names();
    while let Some(name) = names.next() {
        push_name(out, name)?;
    }
    Ok(out.push_str("\n")?)
}

/// Appends a pin: its name, its role, its capacitance and its timing groups.
fn push_pin(alloc: Global, out: &mut String, pin: &Pin) -> Result<(), Fail> {
    out.push_str("pin")?;
    push_name(out, pin.name().bytes())?;
    let (role, cap) = (pin.role(), pin.cap());
    let tail = format!(in alloc; " {role:?} {cap}\n")?;
    out.push_str(tail.as_str())?;
    for timing in pin.timings() {
        push_timing(alloc, out, timing)?;
    }
    Ok(())
}

/// Appends a cell: its name, whether it is a latch, and its pins.
fn push_cell(alloc: Global, out: &mut String, cell: &Cell) -> Result<(), Fail> {
    out.push_str(if cell.latch { "latch" } else { "cell" })?;
    push_name(out, cell.name.bytes())?;
    out.push_str("\n")?;
    for pin in cell.pins.as_slice() {
        push_pin(alloc, out, pin)?;
    }
    Ok(())
}

/// What a library is: its scales, its cells and its tables.
fn shown(alloc: Global, library: &Library) -> Result<String, Fail> {
    let (time, cap) = (library.time_scale, library.cap_scale);
    let mut out = format!(in alloc; "scales {time} {cap}\n")?;
    for cell in library.cells.as_slice() {
        push_cell(alloc, &mut out, cell)?;
    }
    for table in library.tables.as_slice() {
        let line = table_in_words(alloc, table)?;
        out.push_str(line.as_str())?;
        out.push_str("\n")?;
    }
    Ok(out)
}

/// What the library of a text is.
fn shown_of(alloc: Global, text: &str) -> Result<String, Fail> {
    let library = read(alloc, text.as_bytes())?;
    shown(alloc, &library)
}

/// Pins of several directions.
const DIRECTIONS: &str = "library (x) { time_unit : 10ps; capacitive_load_unit (1, ff); cell (A) {\
    pin (B) { direction : inout; capacitance : 2; } pin (C) { direction : internal; } pin (D) { } } }";

/// What the library is.
const DIRECTIONS_SHOWN: &str = "\
scales 4 3
cell A
pin B Inout 2000
pin C Other 0
pin D Other 0
";

/// A check on an input pin, its template with the constrained pin first.
const CHECK: &str = "library (x) { time_unit : 1ps; lu_table_template (c) {\
    variable_1 : constrained_pin_transition; variable_2 : related_pin_transition;\
    index_1 (1, 2, 3); index_2 (4, 5); } lu_table_template (unused) { variable_1 : x; index_2 (y); }\
    cell (A) { latch (IQ, IQN) { } pin (D, E) { direction : input; timing () { timing_type : setup_rising;\
    timing_sense : positive_unate; related_pin : \"CK  CL\"; fall_constraint (c) { values (1, 2, 3, 4, 5, 6); }\
    fall_constraint (scalar) { values (7); } cell_rise (u) { } } } } }";

/// What the library is: the related pin is in the rows.
const CHECK_SHOWN: &str = "\
scales 3 6
latch A
pin D Input 0
timing SetupRising Positive - 1 - - CK CL
pin E Input 0
timing SetupRising Positive - 1 - - CK CL
slews 4000 5000; loads 1000 2000 3000; values 1000 3000 5000 2000 4000 6000
slews 0; loads 0; values 7000
";

/// Texts of libraries and what they are.
const LIBRARIES: [(&str, &str); 3] = [
    (DIRECTIONS, DIRECTIONS_SHOWN),
    (CHECK, CHECK_SHOWN),
    (EXAMPLE, EXAMPLE_SHOWN),
];

#[test]
fn libraries_have_their_cells_and_tables(rt: HostRuntime) -> Result<(), Fail> {
    for (text, want) in &LIBRARIES {
        let shown = shown_of(rt.alloc(), text)?;
        assert!(rt; shown.as_str() == *want, "{shown}");
    }
    Ok(())
}
