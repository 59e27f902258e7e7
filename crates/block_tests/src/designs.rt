//! Small designs, and the linked text of each, worked out by hand.

use crate::call::{compare, field};
use crate::small::{linked_text, outcome_of};
use std::test::Fail;

/// Designs, with an empty line between each and the next. The first line of one has what it shows, of the linked text
/// the counts of nets and of checks and the period, a netlist after `module m`, parasitics after their units, and
/// constraints; the others are those of the linked text after its tables.
const DESIGNS: &str = "\
An inverter, nothing said of wires | 2 0 | none | (a, y); input a; output y; INV u (.A(a), .Y(y));
net a i 1000 0 1 0
net y w 0 0 1 2
rise quiet
fall quiet
sink u/A 0
sink y 0
arc 0 0 rise fall 1 3
arc 0 0 fall rise 0 2

Constraints: a clock, a side alone, a slew alone, a load, an output side alone | 3 1 | 100000 | \
    (ck, a, y); input ck, a; output y; BUF u (.A(a), .Y(y)); | | \
    create_clock -period 100 ck; set_input_delay 5 -max -rise -clock ck a; set_input_transition 0.5 -min a; set_load \
    3 y; set_output_delay 10 -rise -max -clock ck y
net ck i 0 0 0 0
net a i 1000 0 1 0
net y w 3000 0 1 2
rise 0 0 0 0
fall 50000 50000 0 0
rise 5000 5000 500 500
fall quiet
sink u/A 0
sink y 0
arc 1 0 rise rise 4 6
arc 1 0 fall fall 5 7
port setup y 2 0 10000 -

Windows span the two numbers, whichever is greater; the clock's own delay is ignored; hold before nothing | 3 1 | \
    100000 | (ck, a, y); input ck, a; output y; BUF u (.A(a), .Y(y)); | | \
    create_clock -period 100 -waveform {0 30} ck; set_input_delay 9 -min -clock ck {a ck}; set_input_delay 4 -max \
    -clock ck a; set_input_transition 2 -max [all_inputs]; set_input_transition 3 -min a; set_output_delay 1 -fall \
    -min -clock ck y
net ck i 0 0 0 0
net a i 1000 0 1 0
net y w 0 0 1 2
rise 0 0 2000 2000
fall 30000 30000 2000 2000
rise 4000 9000 2000 3000
fall 4000 9000 2000 3000
sink u/A 0
sink y 0
arc 1 0 rise rise 4 6
arc 1 0 fall fall 5 7
port hold y 2 0 - 1000

Groups in order, related pins in order, edge pairs; a side without tables | 3 0 | none | \
    (a, b, y); input a, b; output y; GATE g (.B(b), .Y(y), .A(a));
net a i 1000 0 1 0
net b i 2000 0 1 0
net y w 0 0 1 5
rise quiet
fall quiet
sink g/A 0
rise quiet
fall quiet
sink g/B 0
sink y 0
arc 0 0 rise rise 8 9
arc 0 0 fall rise 8 9
arc 1 0 rise rise 8 9
arc 1 0 fall rise 8 9
arc 1 0 fall fall 10 11

A flip-flop: rising edge whatever its sense, skipped group, a hold group without tables | 3 2 | 100000 | \
    (ck, d, q); input ck, d; output q; FF f (.CK(ck), .D(d), .Q(q)); | | create_clock -period 100 ck
net ck i 1000 0 1 0
net d i 2000 0 1 0
net q w 0 0 1 2
rise 0 0 0 0
fall 50000 50000 0 0
sink f/CK 0
rise quiet
fall quiet
sink f/D 0
sink q 0
arc 0 0 rise rise 14 16
arc 0 0 rise fall 15 17
flop setup f/D 1 0 0 0 12 13
flop hold f/D 1 0 0 0 - -

Pins that are open, constant, and two pins on one net | 3 0 | none | \
    (a, y, z); input a; output y, z; GATE g (.A(a), .B(), .Y(y)), h (.A(1'b0), .B(a), .Y(1'b1)), i (.A(a), .B(a), \
    .Y(z));
net a i 6000 0 4 0
net y w 0 0 1 2
net z w 0 0 1 5
rise quiet
fall quiet
sink g/A 0
sink h/B 0
sink i/A 0
sink i/B 0
sink y 0
arc 0 0 rise rise 8 9
arc 0 0 fall rise 8 9
sink z 0
arc 0 2 rise rise 8 9
arc 0 2 fall rise 8 9
arc 0 3 rise rise 8 9
arc 0 3 fall rise 8 9
arc 0 3 fall fall 10 11

A driver without arcs, and nets in order of first declaration or use | 2 0 | none | \
    (y); output y; TIE t (.Y(n)); BUF u (.A(n), .Y(y));
net y w 0 0 1 2
net n w 1000 0 1 0
sink y 0
arc 1 0 rise rise 4 6
arc 1 0 fall fall 5 7
rise quiet
fall quiet
sink u/A 0

A bus from its left bound; a related pin that is no pin of the cell; an odd direction is neither sink nor driver | \
    3 0 | none | (b); input [1:0] b; AWAY u (.A(b[0]), .Y(n)); ODD o (.P(n), .A(b[1]));
net b[1] i 4000 0 1 0
net b[0] i 0 0 1 0
net n w 0 0 0 1
rise quiet
fall quiet
sink o/A 0
rise quiet
fall quiet
sink u/A 0
arc 1 0 rise rise 18 19

A flop without a clock net or without data has no point, and then no clock is needed | 3 0 | none | \
    (ck, d); input ck, d; FF f (.CK(ck), .D(), .Q()), g (.CK(), .D(d), .Q(q)), h (.CK(1'b1), .D(d), .Q());
net ck i 1000 0 1 0
net d i 4000 0 2 0
net q w 0 0 0 0
rise quiet
fall quiet
sink f/CK 0
rise quiet
fall quiet
sink g/D 0
sink h/D 0
rise quiet
fall quiet

Three ways of finding a node's net, in this order; an unknown net is ground | 4 0 | none | \
    (x, n, \\p:q , y); input x, n; input \\p:q ; output y; BUF n (.A(x), .Y(y)); | \
    *D_NET y 99 *CAP 1 y n:A 1 2 y n:B 2 3 y n 3 4 y p:q 4 5 y z 5 6 y x:9 6 *END
net x i 1000 0 1 0
net n i 0 0 0 0
net p:q i 0 0 0 0
net y w 5000 5 1 2
rise quiet
fall quiet
sink n/A 0
rise quiet
fall quiet
rise quiet
fall quiet
couple 0 1000
couple 1 2000
couple 1 3000
couple 2 4000
couple 0 6000
sink y 0 0 0 0 0 0
arc 0 0 rise rise 4 6
arc 0 0 fall fall 5 7

Before the last delimiter is a net, and the whole text is one too: the second way counts | 3 0 | none | \
    (p, \\p:q , y); input p; input \\p:q ; output y; BUF u (.A(p), .Y(y)); | *D_NET y 0 *CAP 1 y p:q 4 *END
net p i 1000 0 1 0
net p:q i 0 0 0 0
net y w 0 1 1 2
rise quiet
fall quiet
sink u/A 0
rise quiet
fall quiet
couple 0 4000
sink y 0 0
arc 0 0 rise rise 4 6
arc 0 0 fall fall 5 7

A pin that is open or constant finds no net: the next way is tried | 2 0 | none | \
    (x, y); input x; output y; BUF u (.A(x), .Y(y)); GATE x (.A(), .B(1'b0)); | \
    *D_NET y 0 *CAP 1 y x:A 1 2 y x:B 2 3 y u:Z 3 *END
net x i 1000 0 1 0
net y w 3000 2 1 2
rise quiet
fall quiet
sink u/A 0
couple 0 1000
couple 0 2000
sink y 0 0 0
arc 0 0 rise rise 4 6
arc 0 0 fall fall 5 7

Whose node a capacitor has: the first of the net, or the first of the two | 3 0 | none | \
    (x, n, y); input x, n; output y; BUF u (.A(x), .Y(y)); | \
    *D_NET y 0 *CAP 1 x y 7 2 x n 8 3 z y 9 4 n z 1 5 y u:Y 2 6 z w 4 7 x x:1 5 *END
net x i 1000 0 1 0
net n i 0 0 0 0
net y w 16000 3 1 2
rise quiet
fall quiet
sink u/A 0
rise quiet
fall quiet
couple 0 7000
couple 1 8000
couple 0 5000
sink y 0 0 0 0
arc 0 0 rise rise 4 6
arc 0 0 fall fall 5 7

A total alone is ground at the driver | 2 0 | none | (a, y); input a; output y; BUF u (.A(a), .Y(y)); | \
    *D_NET y 5 *RES 1 u:Y y 10 *END | set_load 3 y
net a i 1000 0 1 0
net y w 8000 0 1 2
rise quiet
fall quiet
sink u/A 0
sink y 30000000
arc 0 0 rise rise 4 6
arc 0 0 fall fall 5 7

A total is not looked at where there are capacitors, though they are of value 0 | 2 0 | none | \
    (a, y); input a; output y; BUF u (.A(a), .Y(y)); | *D_NET y 5 *CAP 1 y 0 *RES 1 u:Y y 10 *END
net a i 1000 0 1 0
net y w 0 0 1 2
rise quiet
fall quiet
sink u/A 0
sink y 0
arc 0 0 rise rise 4 6
arc 0 0 fall fall 5 7

A tree from an input port to two sinks: shared resistance 10 ohm, then 20 and 30 | 3 0 | none | \
    (a); input a; BUF u (.A(a), .Y(p)), v (.A(a), .Y(q)); | \
    *D_NET a 0 *CAP 1 a:1 2 *RES 1 a a:1 10 2 a:1 u:A 20 3 v:A a:1 30 *END
net a i 4000 0 2 0
net p w 0 0 0 2
net q w 0 0 0 2
rise quiet
fall quiet
sink u/A 60000000
sink v/A 70000000
arc 0 0 rise rise 4 6
arc 0 0 fall fall 5 7
arc 0 1 rise rise 4 6
arc 0 1 fall fall 5 7

The same tree with a coupling at the middle and one at the end, listed on one side alone | 4 0 | none | \
    (a, b); input a, b; BUF u (.A(a), .Y(p)), v (.A(a), .Y(q)); | \
    *D_NET a 0 *CAP 1 a:1 b 2 2 b v:A 1 *RES 1 a a:1 10 2 a:1 u:A 20 3 v:A a:1 30 *END
net a i 2000 2 2 0
net b i 0 0 0 0
net p w 0 0 0 2
net q w 0 0 0 2
rise quiet
fall quiet
couple 1 2000
couple 1 1000
sink u/A 40000000 20000000 10000000
sink v/A 50000000 20000000 40000000
rise quiet
fall quiet
arc 0 0 rise rise 4 6
arc 0 0 fall fall 5 7
arc 0 1 rise rise 4 6
arc 0 1 fall fall 5 7

A coupling that both sides list is one entry on each | 2 0 | none | (a, b); input a, b; | \
    *D_NET a 0 *CAP 1 a b 4 *END *D_NET b 0 *CAP 1 a b 4 *END
net a i 0 1 0 0
net b i 0 1 0 0
rise quiet
fall quiet
couple 1 4000
rise quiet
fall quiet
couple 0 4000

A coupling that one side lists twice is two entries | 2 0 | none | (a, b); input a, b; | \
    *D_NET a 0 *CAP 1 a b 4 2 b a 3 *END
net a i 0 2 0 0
net b i 0 0 0 0
rise quiet
fall quiet
couple 1 4000
couple 1 3000
rise quiet
fall quiet

Parasitics of a net without a driver and of an unknown net are left out | 2 0 | none | \
    (y); output y; BUF u (.A(n), .Y(y)); | *D_NET n 5 *CAP 1 n 5 2 n y 3 *RES 1 n n 9 *END *D_NET y 2 *CAP 1 u:Y 1 2 \
    y n 4 *END *D_NET k 1 *CAP 1 k y 3 *END
net y w 1000 1 1 2
net n w 1000 0 1 0
couple 1 4000
sink y 0 0
arc 1 0 rise rise 4 6
arc 1 0 fall fall 5 7
rise quiet
fall quiet
sink u/A 0

A ring that is joined to nothing and holds no capacitor above 0 | 2 0 | none | \
    (a); input a; BUF u (.A(a), .Y(p)); | *D_NET a 0 *CAP 1 a:8 0 *RES 1 a u:A 10 2 a:8 a:9 5 3 a:9 a:8 5 *END
net a i 1000 0 1 0
net p w 0 0 0 2
rise quiet
fall quiet
sink u/A 10000000
arc 0 0 rise rise 4 6
arc 0 0 fall fall 5 7

A whole bus is no net; a bus bit is; a name through the map, brackets of another kind | 3 0 | none | \
    (b, y); input [1:0] b; output y; BUF u (.A(b[0]), .Y(y)); | \
    *BUS_DELIMITER < > *NAME_MAP *1 b<1> *2 u *D_NET y 0 *CAP 1 *2:Y b 3 2 *2:Y *1 4 3 y b<0> 5 *END
net b[1] i 0 0 0 0
net b[0] i 1000 0 1 0
net y w 3000 2 1 2
rise quiet
fall quiet
rise quiet
fall quiet
sink u/A 0
couple 0 4000
couple 1 5000
sink y 0 0 0
arc 1 0 rise rise 4 6
arc 1 0 fall fall 5 7

A wire's name is the name of a net, and no pin's | 1 0 | none | (a); input a; INV u (.A(a)); | \
    *D_NET u:A 5 *RES 1 a a:1 5 *END *D_NET a:1 7 *END
net a i 1000 0 1 0
rise quiet
fall quiet
sink u/A 0

A net without a driver keeps the loads of its pins and of its port | 1 0 | none | (y); output y; BUF u (.A(y)); | \
    *D_NET y 5 *CAP 1 y 7 *END | set_load 3 y
net y w 4000 0 2 0
rise quiet
fall quiet
sink u/A 0
sink y 0

Two instances of one module, whose inner nets couple | 3 0 | none | \
    (a); input a; h u1 (.a(a)), u2 (.a(a)); endmodule module h (a); input a; INV i (.A(a), .Y(n)); INV j (.A(n)); | \
    *D_NET u1/n 0 *CAP 1 u1/n:1 2 2 u1/n:1 u2/n:1 5 *END *D_NET u2/n 0 *CAP 1 u2/j:A u1/i:Y 5 *END
net a i 2000 0 2 0
net u1/n w 3000 1 1 2
net u2/n w 1000 1 1 2
rise quiet
fall quiet
sink u1/i/A 0
sink u2/i/A 0
couple 2 5000
sink u1/j/A 0 0
arc 0 0 rise fall 1 3
arc 0 0 fall rise 0 2
couple 1 5000
sink u2/j/A 0 0
arc 0 1 rise fall 1 3
arc 0 1 fall rise 0 2

The same where the divider of the parasitics is a point | 3 0 | none | \
    (a); input a; h u1 (.a(a)), u2 (.a(a)); endmodule module h (a); input a; INV i (.A(a), .Y(n)); INV j (.A(n)); | \
    *DIVIDER . *D_NET u1.n 0 *CAP 1 u1.n:1 2 2 u1.n:1 u2.n:1 5 *END *D_NET u2.n 0 *CAP 1 u2.j:A u1.i:Y 5 *END
net a i 2000 0 2 0
net u1/n w 3000 1 1 2
net u2/n w 1000 1 1 2
rise quiet
fall quiet
sink u1/i/A 0
sink u2/i/A 0
couple 2 5000
sink u1/j/A 0 0
arc 0 0 rise fall 1 3
arc 0 0 fall rise 0 2
couple 1 5000
sink u2/j/A 0 0
arc 0 1 rise fall 1 3
arc 0 1 fall rise 0 2

A bus through three modules: bits by their places from the left | 7 0 | none | \
    (b, y); input [0:3] b; output [5:3] y; p u (.p(b), .q(y)); endmodule module p (p, q); input [9:6] p; \
    output [0:2] q; n v (.r(p), .s(q)); endmodule module n (r, s); input [1:4] r; output [3:1] s; \
    l w (.a(r), .o(s)); endmodule module l (a, o); input [7:4] a; output [0:2] o; INV i (.A(a[6]), .Y(o[2]));
net b[0] i 0 0 0 0
net b[1] i 1000 0 1 0
net b[2] i 0 0 0 0
net b[3] i 0 0 0 0
net y[5] w 0 0 1 0
net y[4] w 0 0 1 0
net y[3] w 0 0 1 2
rise quiet
fall quiet
rise quiet
fall quiet
sink u/v/w/i/A 0
rise quiet
fall quiet
rise quiet
fall quiet
rise quiet
fall quiet
sink y[5] 0
rise quiet
fall quiet
sink y[4] 0
sink y[3] 0
arc 1 0 rise fall 1 3
arc 1 0 fall rise 0 2

A port on a constant, and an open one, which is a net below | 2 0 | none | \
    (y); output y; h u (.c(1'b0), .y(y)); endmodule \
    module h (c, d, y); input c, d; output y; GATE g (.A(c), .B(d), .Y(y));
net y w 0 0 1 3
net u/d w 2000 0 1 0
sink y 0
arc 1 0 rise rise 8 9
arc 1 0 fall rise 8 9
arc 1 0 fall fall 10 11
rise quiet
fall quiet
sink u/g/B 0

Nets of the top, then those of each instance of a module in order; checks in the order of instances | 8 6 | 100000 | \
    (ck, d); input ck, d; h u (.ck(ck), .d(d)); FF f (.CK(ck), .D(n), .Q()); wire n; h v (.ck(ck)); endmodule \
    module h (ck, d); input ck, d; wire q; FF f (.CK(ck), .D(d), .Q(q)); INV i (.A(q), .Y(y)); | | \
    create_clock -period 100 ck
net ck i 3000 0 3 0
net d i 2000 0 1 0
net n w 2000 0 1 0
net u/q w 1000 0 1 2
net u/y w 0 0 0 2
net v/d w 2000 0 1 0
net v/q w 1000 0 1 2
net v/y w 0 0 0 2
rise 0 0 0 0
fall 50000 50000 0 0
sink u/f/CK 0
sink f/CK 0
sink v/f/CK 0
rise quiet
fall quiet
sink u/f/D 0
rise quiet
fall quiet
sink f/D 0
sink u/i/A 0
arc 0 0 rise rise 14 16
arc 0 0 rise fall 15 17
arc 3 0 rise fall 1 3
arc 3 0 fall rise 0 2
rise quiet
fall quiet
sink v/f/D 0
sink v/i/A 0
arc 0 2 rise rise 14 16
arc 0 2 rise fall 15 17
arc 6 0 rise fall 1 3
arc 6 0 fall rise 0 2
flop setup u/f/D 1 0 0 0 12 13
flop hold u/f/D 1 0 0 0 - -
flop setup f/D 2 0 0 1 12 13
flop hold f/D 2 0 0 1 - -
flop setup v/f/D 5 0 0 2 12 13
flop hold v/f/D 5 0 0 2 - -

A net without a listed wire between two that couple to it | 3 0 | none | (a, b, c); input a, b, c; | \
    *D_NET c 1 *CAP 1 c b 1 *END *D_NET a 1 *CAP 1 b:2 a:1 2 *END
net a i 0 1 0 0
net b i 0 0 0 0
net c i 0 1 0 0
rise quiet
fall quiet
couple 1 2000
rise quiet
fall quiet
rise quiet
fall quiet
couple 1 1000
";

#[test]
fn a_small_design_is_linked(rt: HostRuntime) -> Result<(), Fail> {
    let alloc = rt.alloc();
    for design in DESIGNS.split("\n\n") {
        let (head, lines) = design.split_once('\n').unwrap_or((design, ""));
        let (netlist, spef, sdc) = (field(head, 3), field(head, 4), field(head, 5));
        let seen = outcome_of(&rt, alloc, "link", netlist, spef, sdc)?;
        let want = linked_text(alloc, field(head, 1), field(head, 2), lines.trim())?;
        compare(&rt, seen.as_str(), want.as_str(), head);
    }
    Ok(())
}
