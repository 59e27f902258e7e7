//! Netlists: short texts, worked out by hand.

use crate::rows::{Reader, Texts, at_bar, compare};
use std::alloc::{AllocError, Global};
use std::process::Abort;
use std::test::*;
use verilog_net::{Name, Netlist, PortFound, Wire, read_modules, read_netlist};
use xt_lex::MOST_BYTES;

/// Texts with a token that does not fit, and texts that end too early.
const TOKENS: &str = "\
read | module m; endmodule
read | module m (a); input a; endmodule // end
V2 1 |
V2 3 | ⏎⏎
V2 2 | module m;⏎
V2 1 | module m; INV u (.A(
V2 2 | module m; /* ⏎
V2 2 | module m; (* ⏎
V1 2 | module m (a);⏎\u{1} /*
V1 1 | assign
V1 1 | wire a;
V1 1 | module m ();⏎endmodule
V1 1 | module m (a,); input a; endmodule
V1 1 | module wire; endmodule
V1 2 | module m; endmodule⏎assign
V1 2 | module m; endmodule⏎endmodule
";

/// Statements that go wrong.
const STATEMENTS: &str = "\
V1 1 | module m; input wire a; endmodule
V1 2 | module m; wire a⏎b; endmodule
V1 1 | module m; wire [3] a; endmodule
V1 1 | module m; wire [3:0] a, [3:0] b; endmodule
V1 1 | module m; INV (.A(a)); endmodule
V1 1 | module m; INV u; endmodule
V1 1 | module m; INV u (.A(a),); endmodule
V1 1 | module m; INV u (.A(0)); endmodule
V1 1 | module m; INV u (.A(2'b0)); endmodule
V1 1 | module m; INV u (.A(a b)); endmodule
V1 1 | module m; INV u (0); endmodule
V1 1 | module m; wire \\ ; endmodule
V1 1 | module m; = endmodule
V1 1 | module m; module n; endmodule
V1 1 | module m; wire tri; endmodule
read | module m; wire \\tri ; begin \\wire (.or(not)); endmodule
";

/// Statements that are not read.
const NOT_READ: &str = "\
V3 1 | module m; assign a = b; endmodule
V3 2 | module m;⏎inout a; endmodule
V3 1 | module m #(1); endmodule
V3 2 | module m; INV⏎#(2) u (.A(a));
V3 2 | module m; wire a,⏎reg;
V3 2 | module m (a,⏎input b);
V3 2 | module m⏎output a;
V1 1 | module m (wire a);
V3 2 | module m; INV u⏎[3:0] (.A(a));
V3 2 | module m; INV u (⏎a, b);
V3 2 | module m; INV u (.A(a),⏎1'b0);
V3 2 | module m; INV u (.A(⏎{a, b}));
V1 1 | module m; wire {a, b};
V3 2 | module m; wire [3:0] b; INV u (.A(b[1⏎:0]));
V3 2 | module m; wire [3:0] b; INV u (.A(b⏎));
V1 2 | module m; wire [3:0] b; INV u (.A(b⏎.
V3 2 | module m; INV u (.A(b[1⏎:
V1 2 | module m; INV u (.A(b[1⏎.
V3 2 | module m; endmodule⏎module n; endmodule
read | module m; \\assign u (.\\inout (a)); endmodule
";

/// Names and bits.
const NAMES: &str = "\
V4 1 | module m (a); endmodule
V4 2 | module m (a); wire a;⏎endmodule
V4 2 | module m; INV u (.A(b[0⏎]));
V1 2 | module m; INV u (.A(b[0⏎[
V4 1 | module m; INV u (.A(b), .Y(b[0]));
V4 1 | module m; INV u (.A(b[0])); wire [1:0] b;
V6 2 | module m; wire [3:0] b; INV u (.A(b[4⏎]));
V6 2 | module m; wire [0:3] b; INV u (.A(b[4⏎]));
V1 2 | module m; wire [3:0] b; INV u (.A(b[4⏎;
V6 2 | module m; wire b; INV u (.A(b[0⏎]));
V6 2 | module m; wire [⏎1048576:0] b;
V6 2 | module m; wire [0:⏎1048576⏎]
read | module m; wire [1048575:01048575] b; endmodule
V5 1 | module m; INV u (.A(x), .A⏎(y));
V5 2 | module m; INV u (.A(x), .B(y),⏎.A(y));
V5 2 | module m; INV u (.A(x)),⏎u (.A(y));
V5 2 | module m; INV u (); INV v ();⏎BUF u [
V3 2 | module m; INV u (); INV v ();⏎BUF w [
V1 1 | module m (b[0]); input [1:0] b; endmodule
read | module m (\\b[0] ); input [1:0] b; endmodule
";

/// Two declarations of a name.
const DECLARATIONS: &str = "\
V3 2 | module m; input a; output⏎a;
V3 2 | module m; wire [1:0] a; wire [0:1]⏎a;
V3 2 | module m; wire [1:0] a; input⏎a;
V3 2 | module m; INV u (.A(a)); wire [1:0]⏎a;
read | module m; INV u (.A(a)); wire a; input a; endmodule
read | module m (a); wire a; input a; supply0 a; endmodule
read | module m; wire [1:0] a; output [01:00] a; endmodule
V3 2 | module m; wire [1:0] a; wire⏎\\a[0] ;
read | module m; wire [1:0] a; wire \\a[2] , \\a[00] ; endmodule
V3 2 | module m; wire \\a[0] ; wire [1:0]⏎a⏎;
V3 2 | module m; INV u (.A(\\a[0] )); wire [1:0]⏎a⏎;
read | module m; INV u (.A(\\a[2] )); wire [1:0] a; endmodule
V3 2 | module m; INV u (.A(\\a[2] ), .B(\\a[0] )); wire [1:0]⏎a⏎;
";

/// Several modules.
const MODULES: &str = "\
read | module a; wire x; endmodule module b; wire [1:0] x; endmodule
read | module a; INV u (); endmodule module b; INV u (); endmodule
read | module a; wire [1:0] x; b u (.x(x)); endmodule
V5 2 | module a; endmodule module⏎a; endmodule
V1 2 | module a; endmodule⏎assign
V4 2 | module a; input x; endmodule module b (x);⏎endmodule
V3 2 | module a; wire [1:0] x; b u (.x(x[1⏎:0]));
V2 1 |
";

/// A module with names of 1,023, 1,024 and 1,025 bytes.
const LONG: &str = "\
read | module ⟨1023:n⟩; endmodule
read | module ⟨1024:n⟩; endmodule
V1 1 | module ⟨1025:n⟩; endmodule
";

/// All tables.
const TEXTS: [Texts; 7] = [
    (Reader::Netlist, "", TOKENS, ""),
    (Reader::Netlist, "", STATEMENTS, ""),
    (Reader::Netlist, "", NOT_READ, ""),
    (Reader::Netlist, "", NAMES, ""),
    (Reader::Netlist, "", DECLARATIONS, ""),
    (Reader::Modules, "", MODULES, ""),
    (Reader::Netlist, "", LONG, ""),
];

#[test]
fn texts_are_read_or_refused_at_their_tokens(rt: HostRuntime) -> Result<(), Fail> {
    compare(&rt, rt.alloc(), &TEXTS)
}

/// A name as text.
fn word(name: &[u8]) -> Result<&str, Fail> {
    match str::from_utf8(name) {
        Ok(word) => Ok(word),
        Err(_) => Err(Fail::from("a name beyond ASCII")),
    }
}

/// Appends a line for each net: its name, its role, and its range if it has one.
fn push_nets(alloc: Global, out: &mut String, netlist: &Netlist) -> Result<(), Fail> {
    for number in 0..netlist.nets.len() {
        let Some((name, net)) = netlist.nets.get(number) else {
            return Err(Fail::from("a net is missing"));
        };
        let (name, role) = (word(name)?, net.role);
        let line = match net.range {
            Some((left, right)) => format!(in alloc; "net {name} {role:?} {left} {right}\n")?,
            None => format!(in alloc; "net {name} {role:?}\n")?,
        };
        out.push_str(line.as_str())?;
    }
    Ok(())
}

/// Appends a pin and what it is connected to: a bit of a net, by the number of the net, or the whole net.
fn push_pin(alloc: Global, out: &mut String, pin: &Name, wire: Wire) -> Result<(), Fail> {
    let pin = word(pin.bytes())?;
    let text = match wire {
        Wire::Bit { decl, bit } => format!(in alloc; " {pin} {decl}.{bit}")?,
        Wire::Whole { decl } => format!(in alloc; " {pin} {decl}")?,
        Wire::Constant => format!(in alloc; " {pin} constant")?,
        Wire::Open => format!(in alloc; " {pin} open")?,
    };
    out.push_str(text.as_str())?;
    Ok(())
}

/// Appends a line for each instance: its cell, its name, its line and its pins.
fn push_instances(alloc: Global, out: &mut String, netlist: &Netlist) -> Result<(), Fail> {
    for instance in netlist.instances.as_slice() {
        let (cell, name) = (word(instance.cell.bytes())?, word(instance.name.bytes())?);
        let line = instance.line;
        let head = format!(in alloc; "{cell} {name} {line}")?;
        out.push_str(head.as_str())?;
        for (pin, wire) in instance.pins.as_slice() {
            push_pin(alloc, out, pin, *wire)?;
        }
        out.push_str("\n")?;
    }
    Ok(())
}

/// Appends a module: its name, its nets and its instances.
pub fn push_module(alloc: Global, out: &mut String, netlist: &Netlist) -> Result<(), Fail> {
    let name = word(netlist.module.bytes())?;
    let head = format!(in alloc; "module {name}\n")?;
    out.push_str(head.as_str())?;
    push_nets(alloc, out, netlist)?;
    push_instances(alloc, out, netlist)
}

/// Compares the modules of a text with a list of lines.
fn compare_modules(rt: &impl Abort, alloc: Global, text: &str, want: &str) -> Result<(), Fail> {
    if MOST_BYTES < text.len() {
        return Err(Fail::from("too long"));
    }
    let Ok(modules) = read_modules(alloc, text.as_bytes()) else {
        panic!(rt; "refused");
    };
    let mut out = String::new(alloc);
    for module in modules.list.as_slice() {
        push_module(alloc, &mut out, module)?;
    }
    assert!(rt; out.as_str() == want, "{out}");
    Ok(())
}

/// Compares the one module of a text with a list of lines.
fn compare_module(rt: &impl Abort, alloc: Global, text: &str, want: &str) -> Result<(), Fail> {
    if MOST_BYTES < text.len() {
        return Err(Fail::from("too long"));
    }
    let Ok(netlist) = read_netlist(alloc, text.as_bytes()) else {
        panic!(rt; "refused");
    };
    let mut out = String::new(alloc);
    push_module(alloc, &mut out, &netlist)?;
    assert!(rt; out.as_str() == want, "{out}");
    Ok(())
}

/// Two modules, the first with a whole bus at a pin.
const TWO: &str = "\
module a (y); output [1:0] y; wire s; b u (.p(y), .q(y[0]), .r(s)); endmodule
module b; input [7:0] p; INV u (.A(\\p[8] )); endmodule
";

/// What they are.
const TWO_MEANT: &str = "\
module a
net y Output 1 0
net s Inner
b u 1 p 0 q 0.0 r 1.0
module b
net p Input 7 0
net p[8] Inner
INV u 2 A 1.0
";

#[test]
fn modules_have_their_nets_and_instances(rt: HostRuntime) -> Result<(), Fail> {
    compare_modules(&rt, rt.alloc(), TWO, TWO_MEANT)
}

/// A module with two ports.
const PORTS: &str = "module m (a, b); input a; output [0:3] b; wire c; wire [1:0] d; endmodule";

/// What is found by a name: the number of the net, its first and its last bit, and its role.
const FOUND: &str = "\
0 0 0 Input | a
1 0 3 Output | b
1 2 2 Output | b[2]
3 1 1 Inner | d[1]
absent | b[4]
absent | b[02]
absent | a[0]
absent | c
absent | e
";

/// What is found in a module by a name.
fn found_in_words(alloc: Global, netlist: &Netlist, name: &str) -> Result<String, AllocError> {
    match netlist.port(name.as_bytes()) {
        PortFound::Bits {
            decl,
            first,
            last,
            role,
        } => format!(in alloc; "{decl} {first} {last} {role:?}"),
        PortFound::Absent => format!(in alloc; "absent"),
    }
}

/// Compares what is found in a module by the name of each row.
fn compare_found(
    rt: &impl Abort,
    alloc: Global,
    netlist: &Netlist,
    rows: &str,
) -> Result<(), Fail> {
    for row in rows.lines() {
        let (want, name) = at_bar(row)?;
        let words = found_in_words(alloc, netlist, name)?;
        assert!(rt; words.as_str() == want, "{words} at {row}");
    }
    Ok(())
}

/// A module with a port of 4,096 bits, which are those of a pin each.
const WIDE: &str =
    "module m (a); input [4095:0] a; INV u (.A(a[4095])); INV v (.A(a[0])); endmodule";

/// What is found there.
const FOUND_WIDE: &str = "\
0 4095 0 Input | a
0 4095 4095 Input | a[4095]
0 0 0 Input | a[0]
absent | a[4096]
";

/// Compares what is found in a module.
fn compare_found_in(
    rt: &impl Abort,
    alloc: Global,
    text: &'static str,
    rows: &str,
) -> Result<(), Fail> {
    if MOST_BYTES < text.len() {
        return Err(Fail::from("too long"));
    }
    let Ok(netlist) = read_netlist(alloc, text.as_bytes()) else {
        panic!(rt; "refused");
    };
    compare_found(rt, alloc, &netlist, rows)
}

#[test]
fn ports_are_found_by_name(rt: HostRuntime) -> Result<(), Fail> {
    for (text, rows) in [(PORTS, FOUND), (WIDE, FOUND_WIDE)] {
        compare_found_in(&rt, rt.alloc(), text, rows)?;
    }
    Ok(())
}

/// A netlist with what a synthesiser may write.
const WRITTEN: &str = "\
`timescale 1ns/1ps
module top (ck, \\in[0] , y);
  input ck; input \\in[0] ; output [11:8] y;
  wire ck; wire [0:3] b; supply0 g; tri \\t\\x ;
  (* keep = \"1\" *) DFF \\f[1] (.CK(ck), .D(\\in[0] ), .Q(b[2]));
  CELL c1 (.A(1'h0), .B(), .C(\\b[1] ), .D(g), .E(n)), c2 ();
  wire n; /* late */ BUF
  c3 (.Z(y[8]));
endmodule
";

/// What it means.
const WRITTEN_MEANT: &str = "\
module top
net ck Input
net in[0] Input
net y Output 11 8
net b Inner 0 3
net g Inner
net t\\x Inner
net n Inner
DFF f[1] 5 CK 0.0 D 1.0 Q 3.2
CELL c1 6 A constant B open C 3.1 D 4.0 E 6.0
CELL c2 6
BUF c3 8 Z 2.8
";

/// A small netlist.
const SMALL: &str = "\
`timescale 1ns/1ps
module top (ck, d, y);
  input ck; input d; output y; // ports
  wire q1, n1;
  wire \\bus[0] ;
  (* keep = 1 *) DFF f1 (.CK(ck), .D(\\bus[0] ), .Q(q1));
  DFF f2 (.CK(ck), .D(n1), .Q(y));
  INV g1 (.A(q1), .Y(n1));
  INV g2 (.A(d), .Y(\\bus[0] ));
endmodule
";

/// What it means.
const SMALL_MEANT: &str = "\
module top
net ck Input
net d Input
net y Output
net q1 Inner
net n1 Inner
net bus[0] Inner
DFF f1 6 CK 0.0 D 5.0 Q 3.0
DFF f2 7 CK 0.0 D 4.0 Q 2.0
INV g1 8 A 3.0 Y 4.0
INV g2 9 A 1.0 Y 5.0
";

/// The two netlists and what they mean.
const WHOLE: [(&str, &str); 2] = [(WRITTEN, WRITTEN_MEANT), (SMALL, SMALL_MEANT)];

#[test]
fn netlists_are_read_whole(rt: HostRuntime) -> Result<(), Fail> {
    for (text, meant) in &WHOLE {
        compare_module(&rt, rt.alloc(), text, meant)?;
        compare_modules(&rt, rt.alloc(), text, meant)?;
    }
    Ok(())
}
