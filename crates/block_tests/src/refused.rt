//! Small designs that are refused, of one fault and of two.

use crate::call::{compare_line, field};
use crate::small::outcome_of;
use std::test::Fail;

/// What a design shows, the line of the refusal, a netlist after `module m`, parasitics after their units, and
/// constraints.
const REFUSED: &str = "\
No such cell | 4 link: K1 u NOPE | (a); input a; NOPE u (.A(a));
A latch | 4 link: K9 l LAT | (a); input a; LAT l (.D(a));
An inout pin, though it is open | 4 link: K9 l IO | (a); input a; IO l (.P());
An unsupported timing group | 4 link: K9 l FALL | ; FALL l ();
A related pin that its cell has, but not as an input | 4 link: K9 l BACK | ; BACK l ();
No such pin, also where it is open | 4 link: K2 u Z | (a); input a; INV u (.A(a), .Z());
Two output pins drive a net | 4 link: K3 y | (a, y); input a; output y; INV u (.A(a), .Y(y)), v (.A(a), .Y(y));
An input port and an output pin drive a net | 4 link: K3 a | (a); input a; INV u (.A(a), .Y(a));
A loop of resistors from a node to itself | 4 link: K5 a | (a); input a; INV u (.A(a)); | \
    *D_NET a 0 *RES 1 a u:A 5 2 a a 5 *END
Two ways to a node | 4 link: K5 a | (a); input a; INV u (.A(a)); | *D_NET a 0 *RES 1 a u:A 5 2 u:A a:1 5 3 a:1 a 5 *END
A sink that is not reached | 4 link: K6 a u:A | (a); input a; INV u (.A(a)); | *D_NET a 0 *RES 1 a a:1 5 *END
An output port that is not reached, told by the port's name | 4 link: K6 y y | \
    (a, y); input a; output y; BUF u (.A(a), .Y(y)); | *D_NET y 0 *RES 1 u:Y y:1 5 *END
A coupling's own node that is of another net | 4 link: K6 a b | (a, b, c); input a, b, c; | \
    *D_NET a 0 *CAP 1 b c 1 *RES 1 a a:1 5 *END
A coupling of value 0 counts as a need, ground of value 0 does not | 4 link: K6 a a:4 | (a, b); input a, b; | \
    *D_NET a 0 *CAP 1 a:3 0 2 a:4 b 0 *RES 1 a a:1 5 *END
The least node that is not reached: sinks first, then as they appear in capacitors, then resistors | \
    4 link: K6 a a:5 | (a); input a; | *D_NET a 0 *CAP 1 a:5 1 2 a:3 1 *RES 1 a a:1 5 *END
A loop of arcs; the least endless net is not on it | 4 link: K4 q | \
    (c); input c; INV u (.Y(p), .A(q)), v (.A(r), .Y(q)), w (.A(q), .Y(r));
Two inverters in a loop | 4 link: K4 b | (a); input a; wire b, c; INV u1 (.A(b), .Y(c)); INV u2 (.A(c), .Y(b));
A loop through the second related pin; the first input ends | 4 link: K4 y | \
    (a); input a; GATE g (.A(a), .B(y), .Y(y));
A check and no clock | 4 link: K7 f/D | (ck, d); input ck, d; FF f (.CK(ck), .D(d), .Q());
Instances in text order: a pin before a later cell | 4 link: K2 u Z | (a); input a; INV u (.Z(a)); NOPE v ();
In one instance a latch before a pin | 4 link: K9 u LAT | (a); input a; LAT u (.Z(a));
Pins in text order | 4 link: K2 u X | (a); input a; INV u (.A(a), .X(), .W());
An instance's pin before two drivers | 4 link: K2 w Q | \
    (a, y); input a; output y; INV u (.A(a), .Y(y)), v (.A(a), .Y(y)); INV w (.Q());
Two drivers, the first net in order, though the later instance is met first | 4 link: K3 y | \
    (a, y, z); input a; output y, z; INV t (.A(a), .Y(z)), u (.A(a), .Y(z)), v (.A(a), .Y(y)), w (.A(a), .Y(y));
Two drivers before a wire | 4 link: K3 y | (a, y); input a; output y; INV u (.A(a), .Y(y)), v (.A(a), .Y(y)); | \
    *D_NET a 0 *RES 1 a a 1 *END
Nets in order: one not reached before a later ring | 4 link: K6 a u:A | \
    (a, b); input a, b; INV u (.A(a)), v (.A(b)); | \
    *D_NET b 0 *RES 1 b v:A 1 2 b v:A 1 *END *D_NET a 0 *RES 1 a a:1 5 *END
In one net a ring before what is not reached | 4 link: K5 a | (a); input a; INV u (.A(a)); | \
    *D_NET a 0 *RES 1 a a:1 5 2 a a:1 5 *END
A wire before a loop of arcs | 4 link: K6 a v:A | (a); input a; INV u (.A(n), .Y(n)), v (.A(a)); | \
    *D_NET a 0 *RES 1 a a:1 5 *END
A loop of arcs before a check without clock | 4 link: K4 n | \
    (ck, d); input ck, d; FF f (.CK(ck), .D(d), .Q()); INV u (.A(n), .Y(n));
A whole bus at a cell, which is no module | 3 x.v:1: V7 | (a); input [0:0] a; INV u (.A(a));
A port of another width, before a module that contains itself | 3 x.v:1: V7 | \
    (a); input a; h u (.p(a)); endmodule module h (p); input [1:0] p; h v (.p(p));
A module that contains itself, so that none is the top | 3 x.v:1: V8 | ; m u ();
Two modules that no other has | 3 x.v:2: V9 | ; endmodule module b;
A net below the top with the name of a bit at the top | 3 x.v:2: V5 | \
    (\\h/b[1] ); input \\h/b[1] ; h h (); endmodule module h; wire [3:0] b;
An instance below the top with the name of one at the top | 3 x.v:2: V5 | \
    (a); input a; INV \\h/i (.A(a)); h h (); endmodule module h; INV i ();
A module with a cell's name is the module | 3 x.v:1: V7 | \
    (a); input a; INV u (.A(a)); endmodule module INV (B); input B;
Netlists before parasitics | 3 x.v:1: V8 | ; m u (); | *D_NET
No such cell below the top | 4 link: K1 g/h/u NOPE | \
    ; g g (); endmodule module h; NOPE u (); endmodule module g; h h ();
No such pin below the top | 4 link: K2 h/u Z | ; h h (); endmodule module h; INV u (.Z());
Instances in the order of the text, those of a module where it is | 4 link: K2 h/u Z | \
    ; h h (); INV u (.X()); endmodule module h; INV u (.Z());
Two drivers, one below the top | 4 link: K3 y | \
    (a, y); input a; output y; h h (.a(a), .y(y)); INV v (.A(a), .Y(y)); endmodule \
    module h (a, y); input a; output y; INV u (.A(a), .Y(y));
A loop through two modules | 4 link: K4 p | \
    ; h g (.a(p), .y(q)), h (.a(q), .y(p)); endmodule module h (a, y); input a; output y; INV u (.A(a), .Y(y));
A sink below the top that is not reached | 4 link: K6 a h/u:A | \
    (a); input a; h h (.a(a)); endmodule module h (a); input a; INV u (.A(a)); | *D_NET a 0 *RES 1 a a:1 5 *END
Two ends of one text: the first of them has it | 4 link: K5 u:A | (\\u:A ); input \\u:A ; INV u (.A(\\u:A )); | \
    *D_NET u:A 0 *RES 1 u:A u:A 5 *END
Two ends of one text: the other is met by no resistor | 4 link: K6 u:A u:A | \
    (\\u:A ); input \\u:A ; INV u (.A(\\u:A )); | *D_NET u:A 0 *RES 1 u:A x:1 5 *END
";

#[test]
fn a_small_design_is_refused(rt: HostRuntime) -> Result<(), Fail> {
    for row in REFUSED.lines() {
        for command in ["link", "report"] {
            let (netlist, spef, sdc) = (field(row, 2), field(row, 3), field(row, 4));
            let seen = outcome_of(&rt, rt.alloc(), command, netlist, spef, sdc)?;
            compare_line(&rt, seen.as_str(), field(row, 1), row);
        }
    }
    Ok(())
}
