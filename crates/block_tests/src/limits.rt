//! Designs at limits and past them, and past one of them before another fault.

use crate::call::{compare_line, field};
use crate::small::{outcome_of, outcome_of_texts};
use itoa::Buffer;
use std::alloc::{AllocError, Global};
use std::test::Fail;
use std::thread::Threads;

/// Appends a piece, in which each `#` is a number.
fn push_piece(out: &mut String, piece: &str, number: u32) -> Result<(), AllocError> {
    let mut digits = Buffer::new();
    let digits = digits.format(number);
    let mut is_first = true;
    for part in piece.split('#') {
        if !is_first {
            out.push_str(digits)?;
        }
        is_first = false;
        out.push_str(part)?;
    }
    Ok(())
}

/// Appends a piece as often as the number before its colon says; `#` in it is the number of times before. Where there
/// is no number it appends `⟨`, which no text may have.
fn push_pieces(out: &mut String, pieces: &str) -> Result<(), AllocError> {
    let (count, piece) = pieces.split_once(':').unwrap_or(("", pieces));
    let Some(count) = count.parse::<u32>().ok() else {
        return out.push_str("⟨");
    };
    for number in 0..count {
        push_piece(out, piece, number)?;
    }
    Ok(())
}

/// The text of a pattern, in which `⟨5: a#⟩` denotes ` a0 a1 a2 a3 a4`.
fn text_of(alloc: Global, pattern: &str) -> Result<String, AllocError> {
    let mut out = String::new(alloc);
    for part in pattern.split('⟨') {
        let (pieces, behind) = part.split_once('⟩').unwrap_or(("0:", part));
        push_pieces(&mut out, pieces)?;
        out.push_str(behind)?;
    }
    Ok(out)
}

/// What a design shows, the line of its refusal, and patterns of a netlist after `module m` and of parasitics after
/// their units.
const SIZES: &str = "\
Nets, and then no such cell | 5 limit: nets 262145 | (a); input [262144:0] a; NOPE u ();
As many nets as there may be | 4 link: K1 u NOPE | (a); input [262143:0] a; NOPE u ();
Nets before instances | 5 limit: nets 262145 | (a); input [262144:0] a; NOPE⟨262144: u#(),⟩ v();
Instances before their cells | 5 limit: instances 262145 | ; NOPE⟨262144: u#(),⟩ v();
As many instances as there may be, of no cell | 4 link: K1 u0 NOPE | ; NOPE⟨262143: u#(),⟩ v();
Thirty modules that double: instances before those of the last are there | 5 limit: instances 262145 | \
    ; D u (), v (); endmodule module a; endmodule module b; a u (), v (); endmodule module c; b u (), v (); \
    endmodule module d; c u (), v (); endmodule module e; d u (), v (); endmodule module f; e u (), v (); endmodule \
    module g; f u (), v (); endmodule module h; g u (), v (); endmodule module i; h u (), v (); endmodule module j; \
    i u (), v (); endmodule module k; j u (), v (); endmodule module l; k u (), v (); endmodule module n; \
    l u (), v (); endmodule module o; n u (), v (); endmodule module p; o u (), v (); endmodule module q; \
    p u (), v (); endmodule module r; q u (), v (); endmodule module s; r u (), v (); endmodule module t; \
    s u (), v (); endmodule module u; t u (), v (); endmodule module v; u u (), v (); endmodule module w; \
    v u (), v (); endmodule module x; w u (), v (); endmodule module y; x u (), v (); endmodule module z; \
    y u (), v (); endmodule module A; z u (), v (); endmodule module B; A u (), v (); endmodule module C; \
    B u (), v (); endmodule module D; C u (), v ();
Bits of nets before the fourth of four modules, whose own are not yet there | 5 limit: nets 262145 | \
    ; h⟨3: u#(),⟩ v(); endmodule module h; wire [131071:0] n;
Bits of three modules, which are met by linking | 5 limit: nets 393216 | \
    ; h⟨2: u#(),⟩ v(); endmodule module h; wire [131071:0] n;
As many instances as there may be, each module's with one of a cell | 4 link: K1 u0/i NOPE | \
    ; h⟨131071: u#(),⟩ v(); endmodule module h; NOPE i ();
One of a cell before them is one too many at the last | 5 limit: instances 262145 | \
    ; NOPE i (), j (); h⟨131071: u#(),⟩ v(); endmodule module h; NOPE i ();
64 capacitors of 2^40 aF are as much as a net may have, and then a pin of 1000 aF | \
    5 limit: load a 70368744178664 | (a); input a; INV u (.A(a)); | *D_NET a 0 *CAP⟨64: # a 1099511627.776⟩ *END
Each coupling counts twice | 5 limit: load a 70368744178664 | (a, b); input a, b; INV u (.A(a)); | \
    *D_NET a 0 *CAP⟨32: # a b 1099511627.776⟩ *END
As much between two nets as there may be, and a loop of arcs | 4 link: K4 c | \
    (a, b); input a, b; INV w (.A(c), .Y(c)); | *D_NET a 0 *CAP⟨32: # a b 1099511627.776⟩ *END
A load before resistors that are no tree | 5 limit: load a 70368744178664 | (a); input a; INV u (.A(a)); | \
    *D_NET a 0 *CAP⟨64: # a 1099511627.776⟩ *RES 1 a a 1 *END
The driver and 65,536 other nodes, before the load of their capacitors | 5 limit: nodes a 65537 | (a); input a; | \
    *D_NET a 0 *CAP⟨65536: 1 a:# 1099511627.776⟩ *END
The same by resistors | 5 limit: nodes a 65537 | (a); input a; | *D_NET a 0 *RES⟨65536: 1 a a:# 1⟩ *END
A million nodes, each with a name of its own | 5 limit: nodes a 1000001 | (a); input a; | \
    *D_NET a 0 *CAP⟨1000000: 1 a:# 1⟩ *END
A net with 262,143 sinks, and a loop of arcs | 4 link: K4 c | \
    (a); input a; INV w (.A(c), .Y(c)), ⟨262142: u#(.A(a)),⟩ v(.A(a));
As many nodes as there may be, and a loop of arcs | 4 link: K4 c | (a); input a; INV w (.A(c), .Y(c)); | \
    *D_NET a 0 *RES⟨65535: 1 a a:# 1⟩ *END
Nodes of an earlier net after the wire of a later one: nets in order | 5 limit: nodes a 65537 | \
    (a, b); input a, b; INV u (.A(b)); | *D_NET b 0 *RES 1 b b 1 *END *D_NET a 0 *RES⟨65536: 1 a a:# 1⟩ *END
4,097 sinks by 4,096 couplings | 5 limit: coefficients 16781312 | \
    (a, b); input a, b; INV⟨4096: u#(.A(a)),⟩ v(.A(a)); | *D_NET a 0 *CAP⟨4096: # a b 1⟩ *END
As many coefficients as there may be, and a loop of arcs | 4 link: K4 c | \
    (a, b); input a, b; INV w (.A(c), .Y(c)), ⟨4095: u#(.A(a)),⟩ v(.A(a)); | *D_NET a 0 *CAP⟨4096: # a b 1⟩ *END
A node that is not reached before coefficients | 4 link: K6 b b:7 | \
    (a, b); input a, b; INV⟨4096: u#(.A(a)),⟩ v(.A(a)); | \
    *D_NET a 0 *CAP⟨4096: # a b 1⟩ *END *D_NET b 0 *CAP 1 b:7 1 *RES 1 b b:1 1 *END
Couplings before coefficients | 5 limit: couplings 1048577 | (a, b); input a, b; INV⟨20: u#(.A(a)),⟩ v(.A(a)); | \
    *D_NET a 0 *CAP⟨1048577: # a b 0⟩ *END
Coefficients before a loop of arcs | 5 limit: coefficients 16781312 | \
    (a, b); input a, b; INV w (.A(c), .Y(c)), ⟨4096: u#(.A(a)),⟩ v(.A(a)); | *D_NET a 0 *CAP⟨4096: # a b 1⟩ *END
";

/// What `link` says of the design of a row.
fn outcome_of_size<R: Threads + Sync>(rt: &R, alloc: Global, row: &str) -> Result<String, Fail> {
    let netlist = text_of(alloc, field(row, 2))?;
    let spef = text_of(alloc, field(row, 3))?;
    outcome_of(rt, alloc, "link", netlist.as_str(), spef.as_str(), "")
}

#[test]
fn a_design_past_a_limit_is_refused(rt: HostRuntime) -> Result<(), Fail> {
    for row in SIZES.lines() {
        let seen = outcome_of_size(&rt, rt.alloc(), row)?;
        compare_line(&rt, seen.as_str(), field(row, 1), row);
    }
    Ok(())
}

/// Before the groups of a library's cells.
const UNITS: &str = "library (l) { time_unit : \"1ps\"; capacitive_load_unit (1, ff);";

/// A cell whose output has 4,096 arcs, one whose output has one arc, a flip-flop with 1,024 checks, and one with one.
const MANY_ARCS: &str = "\
    \x20cell (MANY) { pin (A) { direction : input; } pin (Y) { direction : output; timing () { related_pin : \
    \"A⟨1023: A⟩\"; cell_rise (scalar) { values (\"1\"); } rise_transition (scalar) { values (\"1\"); } cell_fall \
    (scalar) { values (\"1\"); } fall_transition (scalar) { values (\"1\"); } } } } cell (ONE) { pin (A) { \
    direction : input; } pin (Y) { direction : output; timing () { related_pin : \"A\"; timing_sense : \
    positive_unate; cell_rise (scalar) { values (\"1\"); } rise_transition (scalar) { values (\"1\"); } } } } cell \
    (FLOPS) { pin (A) { direction : input; } pin (D) { direction : input; timing () { timing_type : hold_rising; \
    related_pin : \"A⟨1023: A⟩\"; } } } cell (FLOP) { pin (A) { direction : input; } pin (D) { direction : input; \
    timing () { related_pin : \"A\"; timing_type : setup_rising; } } } }";

/// A cell whose output has 20,000 arcs, in ten thousand bytes.
const VERY_MANY_ARCS: &str = "\
    \x20cell (MANY) { pin (A) { direction : input; } pin (Y) { direction : output; timing () { related_pin : \
    \"A⟨4999: A⟩\"; cell_rise (scalar) { values (\"1\"); } rise_transition (scalar) { values (\"1\"); } cell_fall \
    (scalar) { values (\"1\"); } fall_transition (scalar) { values (\"1\"); } } } } }";

/// A cell whose output has 11,585 arcs, and one whose output has one.
const MANY_READS: &str = "\
    \x20cell (MANY) { pin (A) { direction : input; } pin (Y) { direction : output; timing () { timing_sense : \
    positive_unate; related_pin : \"A⟨11584: A⟩\"; cell_rise (scalar) { values (\"1\"); } rise_transition (scalar) \
    { values (\"1\"); } } } } cell (ONE) { pin (A) { direction : input; } pin (Y) { direction : output; timing () { \
    related_pin : \"A\"; timing_sense : positive_unate; cell_rise (scalar) { values (\"1\"); } rise_transition \
    (scalar) { values (\"1\"); } } } } }";

/// A library of 262,145 tables, and one of 262,144.
const TABLES_PAST: &str = "\
    \x20cell (ONE) { pin (A) { direction : input; } pin (Y) { direction : output; timing () { related_pin : \"A\"; \
    rise_transition (scalar) { values (\"1\"); }⟨262144: cell_rise (scalar) { values (\"1\"); }⟩ } } } }";

const TABLES_WITHIN: &str = "\
    \x20cell (ONE) { pin (A) { direction : input; } pin (Y) { direction : output; timing () { related_pin : \"A\"; \
    rise_transition (scalar) { values (\"1\"); }⟨262143: cell_rise (scalar) { values (\"1\"); }⟩ } } } }";

/// The pattern of the cells that a row names.
fn cells(name: &str) -> &'static str {
    match name {
        "many arcs" => MANY_ARCS,
        "very many arcs" => VERY_MANY_ARCS,
        "many reads" => MANY_READS,
        "tables past" => TABLES_PAST,
        "tables within" => TABLES_WITHIN,
        _ => "",
    }
}

/// What a design shows, the line of its refusal, the name of its cells, and patterns of a netlist and of parasitics
/// after their units.
const COUNTS: &str = "\
1,024 instances of 4,096 arcs, of which one drives itself | 4 link: K4 n | many arcs | \
    module m (a); input a; MANY⟨1023: u#(.A(a), .Y(n#)),⟩ v(.A(n), .Y(n)); endmodule
One arc more | 5 limit: arcs 4194305 | many arcs | \
    module m (a); input a; ONE w(.A(a), .Y(m)); MANY⟨1023: u#(.A(a), .Y(n#)),⟩ v(.A(a), .Y(n)); endmodule
1,024 instances of 1,024 checks, without a clock | 4 link: K7 u0/D | many arcs | \
    module m (a); input a; FLOPS⟨1023: u#(.A(a), .D(a)),⟩ v(.A(a), .D(a)); endmodule
One check more | 5 limit: checks 1048577 | many arcs | \
    module m (a); input a; FLOP w(.D(a), .A(a)); FLOPS⟨1023: u#(.A(a), .D(a)),⟩ v(.A(a), .D(a)); endmodule
2,500 instances of 20,000 arcs, of which none is made | 5 limit: arcs 50000000 | very many arcs | \
    module m (a); input a; MANY⟨2499: u#(.A(a), .Y(n#)),⟩ v(.A(a), .Y(n)); endmodule
262,143 instances of 20,000 arcs: a sum beyond 32 bits | 5 limit: arcs 5242860000 | very many arcs | \
    module m (a); input a; MANY⟨262142: u#(.A(a), .Y(n#)),⟩ v(.A(a), .Y(n)); endmodule
A wire before arcs | 4 link: K5 n | very many arcs | \
    module m (a); input a; MANY⟨2499: u#(.A(a), .Y(n#)),⟩ v(.A(a), .Y(n)); endmodule | *D_NET n 0 *RES 1 v:Y v:Y 1 *END
5,000 instances of 1,024 checks | 5 limit: checks 5120000 | many arcs | \
    module m (a); input a; FLOPS⟨4999: u#(.A(a), .D(a)),⟩ v(.A(a), .D(a)); endmodule
Tables of the library, before a loop of arcs | 5 limit: tables 262145 | tables past | \
    module m; ONE u(.A(a), .Y(a)); endmodule
As many tables as there may be | 4 link: K4 a | tables within | module m; ONE u(.A(a), .Y(a)); endmodule
1 + 5,500 + 11,585 · 11,585 reads, and two of a net that drives itself | 4 link: K4 c | many reads | \
    module m (a, b); input a, b; MANY u(.A(a), .Y(y)); ONE w(.A(c), .Y(c)); endmodule | \
    *D_NET a 0 *CAP⟨11584: # a b 0⟩ *END *D_NET y 0 *CAP⟨5500: # y b 0⟩ *END
One read more | 5 limit: reads 134217729 | many reads | \
    module m (a, b); input a, b; MANY u(.A(a), .Y(y)); ONE w(.A(c), .Y(c)); endmodule | \
    *D_NET a 0 *CAP⟨11584: # a b 0⟩ *END *D_NET y 0 *CAP⟨5501: # y b 0⟩ *END
";

/// The text of a pattern after this beginning.
fn behind(alloc: Global, beginning: &str, pattern: &str) -> Result<String, AllocError> {
    let text = text_of(alloc, pattern)?;
    let text = text.as_str();
    format!(in alloc; "{beginning}{text}")
}

/// What `link` says of the design of a row, whose library is its own.
fn outcome_of_count<R: Threads + Sync>(rt: &R, alloc: Global, row: &str) -> Result<String, Fail> {
    let lib = behind(alloc, UNITS, cells(field(row, 2)))?;
    let netlist = text_of(alloc, field(row, 3))?;
    let spef = behind(
        alloc,
        "*SPEF \"x\" *C_UNIT 1 FF *R_UNIT 1 OHM ",
        field(row, 4),
    )?;
    let (lib, netlist, spef) = (lib.as_str(), netlist.as_str(), spef.as_str());
    outcome_of_texts(rt, alloc, "link", lib, netlist, spef, "")
}

#[test]
fn a_library_that_makes_too_much_is_refused(rt: HostRuntime) -> Result<(), Fail> {
    for row in COUNTS.lines() {
        let seen = outcome_of_count(&rt, rt.alloc(), row)?;
        compare_line(&rt, seen.as_str(), field(row, 1), row);
    }
    Ok(())
}
