//! Texts of small designs over one library.

use crate::call::{calm, outcome};
use std::alloc::{AllocError, Global};
use std::test::Fail;
use std::thread::Threads;

/// A cell of every kind that linking tells apart. Times are in ps, capacitances in fF.
pub const CELLS: &str = "\
    library (l) { time_unit : \"1ps\"; capacitive_load_unit (1, ff);\n\
    \x20 cell (INV) { pin (A) { direction : input; capacitance : 1; }\n\
    \x20   pin (Y) { direction : output; timing () { related_pin : \"A\"; timing_sense : negative_unate;\n\
    \x20     cell_rise (scalar) { values (\"10\"); } cell_fall (scalar) { values (\"20\"); }\n\
    \x20     rise_transition (scalar) { values (\"1\"); } fall_transition (scalar) { values (\"2\"); } }\n\
    \x20       } }\n\
    \x20 cell (BUF) { pin (A) { direction : input; capacitance : 1; }\n\
    \x20   pin (Y) { direction : output; timing () { related_pin : \"A\"; timing_sense : positive_unate;\n\
    \x20     cell_rise (scalar) { values (\"30\"); } cell_fall (scalar) { values (\"40\"); }\n\
    \x20     rise_transition (scalar) { values (\"3\"); } fall_transition (scalar) { values (\"4\"); } }\n\
    \x20       } }\n\
    \x20 cell (GATE) { pin (A) { direction : input; capacitance : 1; } pin (B) { direction : input;\n\
    \x20   capacitance : 2; }\n\
    \x20   pin (Y) { direction : output;\n\
    \x20     timing () { related_pin : \"A B\"; cell_rise (scalar) { values (\"50\"); } rise_transition\n\
    \x20       (scalar) { values (\"5\"); } }\n\
    \x20     timing () { related_pin : \"B\"; timing_sense : positive_unate;\n\
    \x20       cell_fall (scalar) { values (\"60\"); } fall_transition (scalar) { values (\"6\"); } } } }\n\
    \x20 cell (FF) { pin (CK) { direction : input; capacitance : 1; }\n\
    \x20   pin (D) { direction : input; capacitance : 2;\n\
    \x20     timing () { related_pin : \"CK\"; timing_type : setup_rising;\n\
    \x20       rise_constraint (scalar) { values (\"7\"); } fall_constraint (scalar) { values (\"8\"); } }\n\
    \x20     timing () { related_pin : \"CK\"; timing_type : hold_rising; } }\n\
    \x20   pin (Q) { direction : output;\n\
    \x20     timing () { related_pin : \"CK\"; timing_type : rising_edge; timing_sense : negative_unate;\n\
    \x20       cell_rise (scalar) { values (\"70\"); } cell_fall (scalar) { values (\"80\"); }\n\
    \x20       rise_transition (scalar) { values (\"7\"); } fall_transition (scalar) { values (\"8\"); } }\n\
    \x20     timing () { related_pin : \"D\"; timing_type : clear; cell_fall (scalar) { values (\"1\");\n\
    \x20       } } } }\n\
    \x20 cell (AWAY) { pin (A) { direction : input; }\n\
    \x20   pin (Y) { direction : output; timing () { related_pin : \"Q A\"; timing_sense : positive_unate;\n\
    \x20     cell_rise (scalar) { values (\"90\"); } rise_transition (scalar) { values (\"9\"); } } } }\n\
    \x20 cell (TIE) { pin (Y) { direction : output; } }\n\
    \x20 cell (ODD) { pin (P) { direction : internal; capacitance : 9; } pin (A) { direction : input;\n\
    \x20   capacitance : 4; } }\n\
    \x20 cell (LAT) { latch (Q, QN) { } pin (D) { direction : input; } }\n\
    \x20 cell (IO) { pin (P) { direction : inout; } }\n\
    \x20 cell (FALL) { pin (A) { direction : input; }\n\
    \x20   pin (Y) { direction : output; timing () { related_pin : \"A\"; timing_type : falling_edge; } } }\n\
    \x20 cell (BACK) { pin (A) { direction : input; } pin (Z) { direction : output; }\n\
    \x20   pin (Y) { direction : output; timing () { related_pin : \"Z\"; } } }\n\
    }\n";

/// Its tables in linked text, in fs.
const TABLES: &str = "\
    table 1 1\n\
    slews 0\n\
    loads 0\n\
    row 10000\n\
    table 1 1\n\
    slews 0\n\
    loads 0\n\
    row 20000\n\
    table 1 1\n\
    slews 0\n\
    loads 0\n\
    row 1000\n\
    table 1 1\n\
    slews 0\n\
    loads 0\n\
    row 2000\n\
    table 1 1\n\
    slews 0\n\
    loads 0\n\
    row 30000\n\
    table 1 1\n\
    slews 0\n\
    loads 0\n\
    row 40000\n\
    table 1 1\n\
    slews 0\n\
    loads 0\n\
    row 3000\n\
    table 1 1\n\
    slews 0\n\
    loads 0\n\
    row 4000\n\
    table 1 1\n\
    slews 0\n\
    loads 0\n\
    row 50000\n\
    table 1 1\n\
    slews 0\n\
    loads 0\n\
    row 5000\n\
    table 1 1\n\
    slews 0\n\
    loads 0\n\
    row 60000\n\
    table 1 1\n\
    slews 0\n\
    loads 0\n\
    row 6000\n\
    table 1 1\n\
    slews 0\n\
    loads 0\n\
    row 7000\n\
    table 1 1\n\
    slews 0\n\
    loads 0\n\
    row 8000\n\
    table 1 1\n\
    slews 0\n\
    loads 0\n\
    row 70000\n\
    table 1 1\n\
    slews 0\n\
    loads 0\n\
    row 80000\n\
    table 1 1\n\
    slews 0\n\
    loads 0\n\
    row 7000\n\
    table 1 1\n\
    slews 0\n\
    loads 0\n\
    row 8000\n\
    table 1 1\n\
    slews 0\n\
    loads 0\n\
    row 90000\n\
    table 1 1\n\
    slews 0\n\
    loads 0\n\
    row 9000\n";

/// What a command says of these files.
pub fn outcome_of_texts<R: Threads + Sync>(
    rt: &R,
    alloc: Global,
    command: &str,
    lib: &str,
    netlist: &str,
    spef: &str,
    sdc: &str,
) -> Result<String, Fail> {
    let texts = [
        ("x.lib", lib.as_bytes()),
        ("x.v", netlist.as_bytes()),
        ("x.spef", spef.as_bytes()),
        ("x.sdc", sdc.as_bytes()),
    ];
    let words = format!(in alloc; "{command} x.lib x.v x.spef x.sdc")?;
    outcome(rt, alloc, words.as_str(), texts.as_slice(), calm(alloc))
}

/// What a command says of a netlist after `module m`, parasitics after their units, and constraints.
pub fn outcome_of<R: Threads + Sync>(
    rt: &R,
    alloc: Global,
    command: &str,
    netlist: &str,
    spef: &str,
    sdc: &str,
) -> Result<String, Fail> {
    let netlist = format!(in alloc; "module m {netlist} endmodule\n")?;
    let spef = format!(in alloc; "*SPEF \"x\" *C_UNIT 1 FF *R_UNIT 1 OHM {spef}\n")?;
    outcome_of_texts(
        rt,
        alloc,
        command,
        CELLS,
        netlist.as_str(),
        spef.as_str(),
        sdc,
    )
}

/// The linked text over the library's tables.
pub fn linked_text(
    alloc: Global,
    counts: &str,
    period: &str,
    lines: &str,
) -> Result<String, AllocError> {
    Ok(format!(in alloc;
        "0 xtalk-design 1\ncounts 20 {counts}\nperiod {period}\n{TABLES}{lines}\nend\n"
    )?)
}
