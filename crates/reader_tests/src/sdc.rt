//! Constraints: small texts and one whole example, with what they mean worked out by hand.

use crate::rows::{at_bar, with_lines};
use sdc_read::{Constraints, PortSet, Sides, read_sdc};
use std::alloc::{AllocError, Global};
use std::process::Abort;
use std::test::*;
use verilog_net::{Netlist, read_netlist};
use xt_lex::{MOST_BYTES, TextFault};

/// The netlist of the small texts: nets 0 to 5, the last of which is no port.
const NETLIST: &str =
    "module t (ck, a, b, y, z); input ck, a; input [1:0] b; output y; output [0:1] z; \
    wire n; endmodule";

/// The netlist of the example.
const EXAMPLE: &str = "module r (ck, d, y); input ck; input d; output y; endmodule";

/// A netlist.
fn netlist(alloc: Global, text: &'static str) -> Result<Netlist, Fail> {
    if MOST_BYTES < text.len() {
        return Err(Fail::from("too long"));
    }
    Ok(read_netlist(alloc, text.as_bytes())?)
}

/// A number, if there is one.
fn number(alloc: Global, number: Option<i64>) -> Result<String, AllocError> {
    match number {
        Some(number) => format!(in alloc; "{number}"),
        None => format!(in alloc; "-"),
    }
}

/// Appends the numbers of edges and sides after a word.
fn push_sides(
    alloc: Global,
    out: &mut String,
    word: &str,
    port: &PortSet,
    sides: &Sides,
) -> Result<(), AllocError> {
    let (rise_min, rise_max) = (
        number(alloc, sides.rise_min)?,
        number(alloc, sides.rise_max)?,
    );
    let (fall_min, fall_max) = (
        number(alloc, sides.fall_min)?,
        number(alloc, sides.fall_max)?,
    );
    let (decl, bit) = (port.decl, port.bit);
    let text = format!(in alloc;
        "; {decl}.{bit} {word} {rise_min} {rise_max} {fall_min} {fall_max}"
    )?;
    out.push_str(text.as_str())
}

/// Whether some number is there, which may be 0.
fn has_delays(sides: &Sides) -> bool {
    sides.rise_min.is_some()
        || sides.rise_max.is_some()
        || sides.fall_min.is_some()
        || sides.fall_max.is_some()
}

/// Whether some number is there and not 0.
fn has_slews(sides: &Sides) -> bool {
    sides.rise_min.unwrap_or(0) != 0
        || sides.rise_max.unwrap_or(0) != 0
        || sides.fall_min.unwrap_or(0) != 0
        || sides.fall_max.unwrap_or(0) != 0
}

/// Appends what is set for a port.
fn push_port(alloc: Global, out: &mut String, port: &PortSet) -> Result<(), AllocError> {
    if has_delays(&port.input) {
        push_sides(alloc, out, "input", port, &port.input)?;
    }
    if has_delays(&port.output) {
        push_sides(alloc, out, "output", port, &port.output)?;
    }
    if has_slews(&port.slew) {
        push_sides(alloc, out, "slew", port, &port.slew)?;
    }
    if port.load != 0 {
        let (decl, bit, load) = (port.decl, port.bit, port.load);
        let text = format!(in alloc; "; {decl}.{bit} load {load}")?;
        out.push_str(text.as_str())?;
    }
    Ok(())
}

/// The constraints in words: the clock, and then the ports in order of their nets and bits, each after a `; `.
fn in_words(alloc: Global, constraints: &Constraints) -> Result<String, AllocError> {
    let mut out = String::new(alloc);
    if let Some(clock) = &constraints.clock {
        out.push_str("; clock ")?;
        match str::from_utf8(clock.name.bytes()) {
            Ok(name) => out.push_str(name)?,
            Err(_) => {}
        }
        let (decl, bit, period, fall) = (clock.decl, clock.bit, clock.period, clock.fall);
        let text = format!(in alloc; " {decl} {bit} {period} {fall}")?;
        out.push_str(text.as_str())?;
    }
    for decl in 0..6 {
        for bit in 0..2 {
            if let Some(port) = constraints.ports.find(decl, bit) {
                push_port(alloc, &mut out, &port)?;
            }
        }
    }
    Ok(out)
}

/// What a text means for a netlist, in words: constraints, or a code and a line after `; `.
fn meaning(
    alloc: Global,
    netlist: &Netlist,
    text: &str,
    time: i32,
    cap: i32,
) -> Result<String, AllocError> {
    if text.len() > MOST_BYTES || !(-12 <= time && time <= 12 && -12 <= cap && cap <= 12) {
        return format!(in alloc; "; no text");
    }
    match read_sdc(alloc, text.as_bytes(), netlist, time, cap) {
        Ok(constraints) => in_words(alloc, &constraints),
        Err(TextFault::Refused { line, code }) => {
            let code = code.text();
            format!(in alloc; "; {code} {line}")
        }
        Err(TextFault::NoMemory) => Err(AllocError),
    }
}

/// Compares what the text of each row means for a netlist, at the scales of time and of capacitance of its table.
fn compare(
    rt: &impl Abort,
    alloc: Global,
    netlist: &Netlist,
    tables: &[(i32, i32, &'static str)],
) -> Result<(), Fail> {
    for (time, cap, rows) in tables {
        for row in rows.lines() {
            let (want, text) = at_bar(row)?;
            let text = with_lines(alloc, text)?;
            let words = meaning(alloc, netlist, text.as_str(), *time, *cap)?;
            let words = words.as_str().strip_prefix("; ").unwrap_or("nothing");
            assert!(rt; words == want, "{words} at {row}");
        }
    }
    Ok(())
}

/// Scales of time and of capacitance at their ends, and a row for each.
const SCALES: [(i32, i32, &str); 6] = [
    (
        6,
        -12,
        "3.0 load 1; 4.1 load 1 | set_load 1e12 y; set_load 4e11 z[0]; set_load 5e11 z[1]",
    ),
    (
        6,
        12,
        "3.0 load 1000000000000; 4.0 load 1099511627776 | set_load 1 y; set_load 1.099511627776 z[0]",
    ),
    (-12, 6, "clock ck 0 0 1 0 | create_clock -period 1e12 ck"),
    (
        12,
        6,
        "clock ck 0 0 1000000000000 500000000000 | create_clock -period 1 ck",
    ),
    (
        12,
        6,
        "clock ck 0 0 1099511627776 549755813888 | create_clock -period 1.0995116277764 ck",
    ),
    (12, 6, "C4 1 | create_clock -period 1.0995116277765 ck"),
];

/// Words of commands.
const WORDS: &str = "\
nothing |
clock ck 0 0 1000000 500000 | \"create_clock\" -period {1} {ck}
clock ck 0 0 1000000 500000 | {create_clock} -period \"1\" [get_ports ck]
C3 1 | create_clock {-period} 1 ck
C1 1 | [create_clock] -period 1 ck
clock ck 0 0 1000000 500000 | create_clock \\⏎ -period 1\\⏎ ck
C2 3 | create_clock \\⏎ -period 1 \\⏎ ck; foo
C6 1 | set_load 5 \\⏎ no
3.0 load 1000000 | # foo \\⏎ bar⏎set_load 1 y
C3 1 | set_load 1 y # c
3.0 load 1000000 | set_load 1 y; # c ; foo
3.0 load 1000000; 4.0 load 1000000; 4.1 load 1000000 | set_load 1 {y⏎ z}
C6 1 | set_load 1 {y ;z}
C1 1 | set_load 1 \"y\"
C1 4 | set_load 1 y⏎set_load 1 {y⏎⏎
C1 2 | foo⏎é
4.1 load 1000000 | set_load 1 z[1]
C1 1 | set_load 1 z[1
C1 1 | set_load 1 z[;1]
C1 1 | foo z[ 1]
C1 1 | set_max_area ]
nothing | set_max_area [a [b]] {c} \"d\"
C1 1 | set_load 1 {y}z
3.0 load 2000000 | set_load 1 {y};set_load 2 {y}
3.0 load 1000000 | set_load 1 [get_ports {y}]
C1 1 | set_load 1 [get_ports y]z
C1 1 | set_load 1 [get_ports y⏎]
C2 1 | foo⏎set_load 1 [get_ports y
C1 1 | set_load 1 [get_ports \"y\"]
3.0 load 1000000; 4.0 load 1000000 | set_load 1 [ get_ports {y z[0]} ]
nothing | ;; ⏎ ;\t;
";

/// Lists of objects.
const LISTS: &str = "\
3.0 load 1000000; 4.0 load 1000000; 4.1 load 1000000 | set_load 1 [all_outputs]
C6 1 | set_load 1 [all_inputs]
C6 1 | set_load 1 [get_clocks y]
nothing | set_load 1 {}
C6 1 | set_load 1 a
C6 1 | set_load 1 n
C6 1 | set_load 1 z[2]
C6 1 | set_load 1 z[01]
C6 1 | set_load 1 y[0]
4.0 load 2000000; 4.1 load 1000000 | set_load 1 {z z[0]}; set_load 2 z[0]
C1 1 | set_load 1 [all_clocks]
3.0 load 1000000; 4.0 load 1000000 | set_load 1 {y \\⏎ z[0]}
";

/// Units.
const UNITS: &str = "\
nothing | set sdc_version 2.0
nothing | set sdc_version [x]
C3 1 | set sdc_version
C3 1 | set sdc_version 1 2
C3 1 | set
C2 1 | set x 1
C1 1 | set [x] 1
clock ck 0 0 7000 3500 | set_units -time ps; create_clock -period 7 ck
clock ck 0 0 70000 35000 | set_units -time 10PS; create_clock -period 7 ck
clock ck 0 0 700000 350000 | set_units -time \"100ps\"; create_clock -period 7 ck
C3 1 | set_units -time 2ns
C3 1 | set_units -time pf
C3 1 | set_units -time {1 ns}
3.0 load 5000 | set_units -capacitance 1fF; set_load 5 y
3.0 load 5000000000 | set_units -capacitance 1000.0PF; set_load 5 y
3.0 load 5000 | set_units -capacitance 0.001pf; set_load 5 y
3.0 load 5000000; 4.0 load 3000; 4.1 load 3000 | set_load 5 y; set_units -capacitance ff; set_load 3 z
3.0 load 3000 | set_units -capacitance ff; set_units -time ps; set_load 3 y
nothing | set_units -resistance \"k O\" -voltage [v] -current {m A} -power -time
C3 1 | set_units -time
C1 1 | set_units -time [x]
C3 1 | set_units ns
C3 1 | set_units -mass kg
C3 1 | set_units -time ns -time ns
";

/// Clocks.
const CLOCKS: &str = "\
clock ck 0 0 3 1 | create_clock -period 0.000003 ck
clock ck 0 0 1 0 | create_clock -period 0.0000005 ck
C4 1 | create_clock -period 0.00000049 ck
C4 1 | create_clock -period 0 [get_ports ck]
clock ck 0 0 3 2 | create_clock -period 0.000003 -waveform {0 0.0000024} ck
C4 1 | create_clock -period 0.000003 -waveform {0 0.0000025} ck
C4 1 | create_clock -period 0.000003 -waveform {0 0.0000004} ck
clock ck 0 0 3 1 | create_clock -period 0.000003 -waveform {-0.0000001 0.000001} ck
C4 1 | create_clock -period 3 -waveform {1 2} ck
C4 1 | create_clock -period 3 -waveform {0} ck
clock ck 0 0 3000000 1000000 | create_clock -waveform { 0⏎ 1 } ck -period 3
clock k 0 0 1000000 500000 | create_clock -name k -period 1 ck
C1 1 | create_clock -name \"\" -period 1 ck
C1 1 | create_clock -name {a b} -period 1 ck
clock -period 0 0 1000000 500000 | create_clock -name -period -period 1 ck
C6 1 | create_clock -period 1 b
clock b[0] 2 0 1000000 500000 | create_clock -period 1 b[0]
C6 1 | create_clock -period 1 {ck ck}
C6 1 | create_clock -period 1 {}
C6 1 | create_clock -period 1 y
C6 1 | create_clock -period 1 [get_clocks ck]
C3 1 | create_clock ck
C3 1 | create_clock -period ck
C4 1 | create_clock -period -name ck
C3 1 | create_clock -period 1 ck -add
";

/// Delays at ports.
const DELAYS: &str = "\
clock ck 0 0 1000000 500000; 1.0 input 2000000 2000000 2000000 2000000 \
    | create_clock -period 1 ck⏎set_input_delay 2 -clock ck a
clock ck 0 0 1000000 500000; 1.0 input 2000000 2000000 2000000 2000000 \
    | create_clock -period 1 ck⏎set_input_delay 2 -min -clock ck a
clock ck 0 0 1000000 500000; 1.0 input 2000000 2000000 - - \
    | create_clock -period 1 ck⏎set_input_delay 2 a -max -rise -clock ck
clock ck 0 0 1000000 500000; 1.0 input - - 2000000 2000000 \
    | create_clock -period 1 ck⏎set_input_delay -min -max 2 -fall a -clock [get_clocks {ck}]
clock ck 0 0 1000000 500000; 1.0 input 2000000 2000000 2000000 -3000000 \
    | create_clock -period 1 ck⏎set_input_delay 2 -clock ck a -rise -fall; set_input_delay -3 -clock ck \
    -fall -max a
C3 2 | create_clock -period 1 ck⏎set_input_delay 2 a
C6 2 | create_clock -period 1 ck⏎set_input_delay 2 -clock k a
C6 2 | create_clock -period 1 ck⏎set_input_delay 2 -clock {} a
clock ck 0 0 1000000 500000; 1.0 input 2000000 2000000 2000000 2000000 \
    | create_clock -period 1 ck⏎set_input_delay 2 -clock {ck ck} {a a}
C6 2 | create_clock -period 1 ck⏎set_input_delay 2 -clock {ck k} a
C1 2 | create_clock -period 1 ck⏎set_input_delay 2 -clock \"ck\" a
C6 2 | create_clock -period 1 ck⏎set_input_delay 2 -clock [all_inputs] a
clock ck 0 0 1000000 500000; 1.0 input -500000 -500000 -500000 -500000 \
    | create_clock -period 1 ck⏎set_input_delay -.5 -clock ck a
C3 2 | create_clock -period 1 ck⏎set_input_delay 1 -clock ck a -add_delay
C4 2 | create_clock -period 1 ck⏎set_input_delay 1. -clock ck a
C4 2 | create_clock -period 1 ck⏎set_input_delay 1.1e6 -clock ck a
C6 2 | create_clock -period 1 ck⏎set_input_delay 1 -clock ck y
C3 2 | create_clock -period 1 ck⏎set_input_delay 1 -clock ck -min -min a
clock ck 0 0 1000000 500000; 3.0 output - 1000000 - 1000000 \
    | create_clock -period 1 ck⏎set_output_delay 1 -clock ck -max y
clock ck 0 0 1000000 500000; 3.0 output -2000000 -2000000 1000000 - \
    | create_clock -period 1 ck⏎set_output_delay 1 -clock ck -fall -min y; set_output_delay -2 -clock ck y \
    -rise
C6 2 | create_clock -period 1 ck⏎set_output_delay 1 -clock ck a
clock ck 0 0 1000000 500000; 1.0 input 2000000 2000000 2000000 2000000 \
    | create_clock -period 1 ck⏎set_input_delay 2 -clock ck {ck a}
clock ck 0 0 1000000 500000; 1.0 input 0 0 - - \
    | create_clock -period 1 ck⏎set_input_delay 0 -clock ck -rise -max a
";

/// Slews and loads of ports.
const SLEWS: &str = "\
C6 1 | set_input_delay 2 -clock ck a⏎create_clock -period 1 ck
C6 2 | create_clock -name k -period 1 ck⏎set_input_delay 2 -clock ck a
2.0 slew 1000000 1000000 0 0; 2.1 slew 1000000 1000000 0 0 | set_input_transition 1 -min -rise b
1.0 slew 0 0 1000000 1000000 | set_input_transition 1 -max -fall a
nothing | set_input_transition -0.0000001 a
C4 1 | set_input_transition -0.000001 a
C3 1 | set_input_transition 1 -clock ck a
3.0 load 2000 | set_load -pin_load 0.002 y
C4 1 | set_load -pin_load -1 y
C3 1 | set_load -max 1 y
3.0 load 1000000 | set_load 0000000000000000000000000000000001 y
C4 1 | set_load 1.000000000000000000000000000000 y
";

/// Texts with several faults.
const ORDER: &str = "\
C1 1 | set_load -zz 1 \"y\"
C1 1 | set_load [get_ports y]
C3 1 | set_load x
C3 1 | set_load 1 no -zz
C4 1 | set_load x no
C5 2 | create_clock -period 1 ck⏎create_clock -period 1 a
C6 2 | create_clock -period 1 ck⏎create_clock -period 1 no
C4 2 | create_clock -period 1 ck⏎create_clock -period 0 no
C3 2 | create_clock -period 1 ck⏎create_clock -period 1 ck -period x
C1 2 | create_clock -period 1 ck⏎create_clock -period 1 ck \"x\"
C2 1 | set_false_path
C2 13 | current_design [x {y}] -q⏎set_driving_cell [x {y}] -q⏎set_propagated_clock [x {y}] \
    -q⏎set_operating_conditions [x {y}] -q⏎set_max_fanout [x {y}] -q⏎set_max_transition [x {y}] \
    -q⏎set_max_capacitance [x {y}] -q⏎set_min_capacitance [x {y}] -q⏎set_max_area [x {y}] \
    -q⏎set_wire_load_mode [x {y}] -q⏎set_wire_load_model [x {y}] -q⏎set_wire_load_selection_group [x {y}] \
    -q⏎foo
C1 1 | set_driving_cell -lib_cell [x
C4 1 | set_input_delay x -clock no no
";

/// Names of 1,024 and of 1,025 bytes, in a command with an option that it does not have.
const LONG: &str = "\
C3 1 | set_load 1 ⟨1024:x⟩ -zz
C1 1 | set_load 1 ⟨1025:x⟩ -zz
";

/// All tables of small texts.
const TEXTS: [(i32, i32, &str); 9] = [
    (6, 6, WORDS),
    (6, 6, LISTS),
    (
        3,
        6,
        "clock ck 0 0 700000 350000 | set_units -time 0.1nS; create_clock -period 7 ck",
    ),
    (6, 6, UNITS),
    (6, 6, CLOCKS),
    (6, 6, DELAYS),
    (6, 6, SLEWS),
    (6, 6, ORDER),
    (6, 6, LONG),
];

#[test]
fn texts_mean_constraints_or_are_refused(rt: HostRuntime) -> Result<(), Fail> {
    let netlist = netlist(rt.alloc(), NETLIST)?;
    compare(&rt, rt.alloc(), &netlist, &SCALES)?;
    compare(&rt, rt.alloc(), &netlist, &TEXTS)
}

/// Constraints of the example, and 150,000 lines that set the load of its output, of which the last counts; a period of
/// 0 is refused at its line.
const EXAMPLES: [(i32, i32, &str); 2] = [
    (
        3,
        3,
        "clock ck 0 0 1000000 500000; 0.0 slew 20000 20000 20000 20000; 1.0 input 74000 100000 74000 100000; \
        1.0 slew 20000 20000 20000 20000; 2.0 output 10000 50000 10000 50000; 2.0 load 2000 | \
        set sdc_version 2.0⏎\
        set_units -time ns -resistance kOhm -capacitance pF -voltage V -current mA⏎\
        create_clock -name ck -period 1.0 -waveform {0 0.5} [get_ports ck]⏎\
        set_input_delay 0.074 -clock [get_clocks ck] -min [get_ports {d}]⏎\
        set_input_delay 0.100 -clock [get_clocks ck] -max [get_ports {d}]⏎\
        set_input_transition 0.02 [all_inputs]⏎\
        set_output_delay 0.05 -clock ck -max [get_ports y]⏎\
        set_output_delay 0.01 -clock ck -min [get_ports y]⏎\
        set_load -pin_load 0.002 [get_ports y]⏎",
    ),
    (
        6,
        6,
        "2.0 load 3000 | ⟨149999:set_load 0.002 [get_ports y]⏎⟩set_load 0.003 [get_ports y]⏎
C4 150001 | ⟨149999:set_load 0.002 [get_ports y]⏎⟩set_load 0.003 [get_ports y]⏎create_clock -period 0 ck⏎",
    ),
];

#[test]
fn the_example_sets_a_clock_and_two_ports(rt: HostRuntime) -> Result<(), Fail> {
    let netlist = netlist(rt.alloc(), EXAMPLE)?;
    compare(&rt, rt.alloc(), &netlist, &EXAMPLES)
}
