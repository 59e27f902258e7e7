//! Netlists of several modules: what their flat netlist is, worked out by hand.

use crate::rows::{at_bar, with_lines};
use crate::verilog::push_module;
use hier_flatten::{FlatFault, flatten};
use std::alloc::Global;
use std::process::Abort;
use std::test::*;
use verilog_net::read_modules;
use xt_lex::MOST_BYTES;

/// The flat netlist of a text's modules, line by line; or the code and the line of its refusal, or the limit.
fn flat_in_words(alloc: Global, text: &str) -> Result<String, Fail> {
    if MOST_BYTES < text.len() {
        return Err(Fail::from("too long"));
    }
    let Ok(modules) = read_modules(alloc, text.as_bytes()) else {
        return Err(Fail::from("not read"));
    };
    let last_line = text.split('\n').count() as u32;
    match flatten(alloc, &modules, last_line) {
        Ok(flat) => {
            let mut out = String::new(alloc);
            push_module(alloc, &mut out, &flat)?;
            Ok(out)
        }
        Err(FlatFault::Refused { line, code }) => {
            let code = code.text();
            Ok(format!(in alloc; "{code} {line}")?)
        }
        Err(FlatFault::Limit { what }) => Ok(format!(in alloc; "{what:?}")?),
        Err(FlatFault::NoMemory) => Err(Fail::from("out of memory")),
    }
}

/// Compares the flat netlist of the text of each row.
fn compare_flat(rt: &impl Abort, alloc: Global, rows: &str) -> Result<(), Fail> {
    for row in rows.lines() {
        let (want, text) = at_bar(row)?;
        let (want, text) = (with_lines(alloc, want)?, with_lines(alloc, text)?);
        let words = flat_in_words(alloc, text.as_str())?;
        assert!(rt; words.as_str() == want.as_str(), "{words} at {row}");
    }
    Ok(())
}

/// Hierarchies and their flat netlists: bits by their places in buses, constants and open pins, names and order.
const FLAT: &str = "\
module t⏎net a Inner⏎net b Inner 3 0⏎I g 1 Y 0.0⏎I h 1 A 1.2⏎ | module t; I g (.Y(a)); wire [3:0] b; wire a; I \
    h (.A(b[2])); endmodule
module t⏎net p Input⏎net q Output⏎net r Inner⏎net h/n Inner⏎I i 1 A 0.0⏎D h/f 1 D 3.0 Q 1.0⏎I h/g 1 A 0.0 Y \
    3.0⏎I j 1 A 2.0⏎ | module t (p, q); input p; output q; wire r; I i (.A(p)); half h (.x(p), .y(q)); I j \
    (.A(r)); endmodule module half (x, y); input x; output y; wire n; D f (.D(n), .Q(y)); I g (.A(x), .Y(n)); \
    endmodule
module t⏎net m/l/z Inner⏎I m/l/g 1 A constant B 0.0⏎ | module t; mid m (.p(1'b0)); endmodule module mid (p); \
    input p; leaf l (.q(p)); endmodule module leaf (q); input q; I g (.A(q), .B(z)); endmodule
module t⏎net b Inner 0 3⏎I u/i 1 A 0.1⏎ | module t; wire [0:3] b; a u (.a(b)); endmodule module a (a); input \
    [7:4] a; I i (.A(a[6])); endmodule
module t⏎net b Inner 9 6⏎I u/v/i 1 A 0.8⏎ | module t; wire [9:6] b; m u (.m(b)); endmodule module m (m); input \
    [1:4] m; a v (.a(m)); endmodule module a (a); input [7:4] a; I i (.A(a[6])); endmodule
module t⏎net w Inner 5 5⏎I u/i 1 A 0.5⏎ | module t; wire [5:5] w; a u (.p(w)); endmodule module a (p); input p; \
    I i (.A(p)); endmodule
module t⏎net x Inner 7 0⏎I u/i 1 A 0.3⏎ | module t; wire [7:0] x; a u (.p(x[3])); endmodule module a (p); input \
    [0:0] p; I i (.A(p[0])); endmodule
module t⏎net u/a Inner 1 0⏎net u/b Inner⏎I u/i 1 A 0.1 B 1.0 C open⏎ | module t; a u (.b()); endmodule module a \
    (a, b); input [1:0] a; input b; I i (.A(a[1]), .B(b), .C()); endmodule
module t⏎net w Inner⏎I p/i 1⏎I p/q/k 1⏎I p/j 1⏎I b 1⏎ | module t; wire w; x p (); I b (); endmodule module x; I \
    i (); y q (); I j (); endmodule module y; I k (); endmodule
module t⏎net n Inner⏎net p/i Inner⏎net q/k/i Inner⏎I p/i 1 A 1.0⏎I a 1 A 0.0⏎I q/i 1⏎I q/k/i 1 A 2.0⏎I q/j 1⏎I \
    b 1⏎ | module t; x p (); I a (.A(n)); y q (); I b (); endmodule module x; I i (.A(i)); endmodule module y; \
    I i (); x k (); I j (); endmodule
module t⏎net b Input 0 3⏎net y Output 5 3⏎I u/v/w/i 1 A 0.1 Y 1.3⏎ | module t (b, y); input [0:3] b; output \
    [5:3] y; m u (.p(b), .q(y)); endmodule module m (p, q); input [9:6] p; output [0:2] q; n v (.r(p), .s(q)); \
    endmodule module n (r, s); input [1:4] r; output [3:1] s; l w (.a(r), .o(s)); endmodule module l (a, o); \
    input [7:4] a; output [0:2] o; I i (.A(a[6]), .Y(o[2])); endmodule
module t⏎net u/p Inner 2 1⏎I u/v/i 1 A 0.2⏎I u/v/j 1 A 0.1⏎ | module t; m u (); endmodule module m (p); input \
    [2:1] p; l v (.a(p)); endmodule module l (a); input [0:1] a; I i (.A(a[0])); I j (.A(a[1])); endmodule
module t⏎I u/v/i 1 A constant B constant C open⏎ | module t; m u (.p(1'b1)); endmodule module m (p); input \
    [4:4] p; l v (.a(p), .b(p[4]), .c(1'b0)); endmodule module l (a, b, c); input a; input [0:0] b; input c; I \
    i (.A(a), .B(b[0]), .C()); endmodule
module t⏎net s Inner 1 0⏎I h/i 1 A 0.0 Y 0.0⏎I k/i 1 A 0.1 Y 0.0⏎ | module t; wire [1:0] s; x h (.a(s[0]), \
    .y(s[0])), k (.a(s[1]), .y(s[0])); endmodule module x (a, y); input a; output y; I i (.A(a), .Y(y)); \
    endmodule
module t⏎net n Output⏎I u/i 1 Y 0.0⏎I v/i 1 Y 0.0⏎ | module t (n); output n; a u (.o(n)), v (.o(n)); endmodule \
    module a (o); output o; I i (.Y(o)); endmodule
module t⏎net u/n Inner⏎net v/n Inner⏎I u/i 1 A 0.0⏎I v/i 1 A 1.0⏎ | module t; a u (), v (); endmodule module a; \
    wire n; I i (.A(n)); endmodule
module t⏎ | module t; a u (); b \\u/v (); endmodule module a; b v (); endmodule module b; endmodule
module t⏎I u/v/w/i 1⏎I u/v/i 1⏎ | module t; a u (); b \\u/v (); endmodule module a; a2 \\v/w (); endmodule \
    module b; I i (); endmodule module a2; I i (); endmodule
module t⏎net u/a[2] Inner⏎net u/a Inner 1 0⏎ | module t; wire \\u/a[2] ; a u (); endmodule module a; wire [1:0] \
    a; endmodule
";

/// Modules that are refused.
const REFUSED: &str = "\
V7 2 | module t; wire w;⏎a u (.p(w)); endmodule module a (p); input [1:0] p; endmodule
V7 1 | module t; wire [0:0] b; I u (.A(b)); endmodule
V7 2 | module t; I i (); ⏎a u (.q(w)); endmodule module a (p); input p; endmodule
V7 1 | module t; a u (.n(w)); endmodule module a (p); input p; wire n; endmodule
V7 1 | module t; a u (.\\p[0] (w)); endmodule module a (p); input [1:0] p; endmodule
V7 1 | module a; a u (.p()); endmodule
V7 1 | module t; wire [1:0] w; a u (.p(w)); endmodule module a (p); input [2:0] p; endmodule
V7 1 | module t; wire [1:0] w; a u (.p(w)); endmodule module a (p); input p; endmodule
V7 1 | module t; a u (.p(1'b0)); endmodule module a (p); output [1:0] p; endmodule
V7 2 | module t; a u ();⏎a v (.P(w)); endmodule module a (p); output p; endmodule
V7 3 | module t; endmodule module s; ⏎⏎ a u (.p()); endmodule module a; endmodule
V8 1 | ⏎module t; a u (); endmodule module a; b v (); endmodule module b; a w (); endmodule
V8 1 | module m; m u (); endmodule
V8 1 | module t; endmodule module s; endmodule⏎module m; m u (); endmodule⏎
V9 1 | module a; endmodule module b; endmodule
V9 4 | module a; x u (), v (); endmodule⏎module x; I \\u/i (); endmodule module b; x u (); I \\u/i (); \
    endmodule⏎⏎
V5 1 | module t; I \\u/g (); a u (); endmodule module a; I g (); endmodule
V5 2 | module t; a u (); b \\u/v (); endmodule⏎module a; b v (); endmodule module b; I i (); endmodule
V5 1 | module t; wire \\u/a[0] ; a u (); endmodule module a; wire [1:0] a; endmodule
V5 1 | module t; wire \\u/a ; a u (); endmodule module a; wire [1:0] a; endmodule
";

/// Modules with a large flat netlist: thirty that double, nets of many bits, and long names.
const LARGE: &str = "\
Instances | module a; endmodule module b; a u (), v (); endmodule module c; b u (), v (); endmodule module d; c \
    u (), v (); endmodule module e; d u (), v (); endmodule module f; e u (), v (); endmodule module g; f u (), \
    v (); endmodule module h; g u (), v (); endmodule module i; h u (), v (); endmodule module j; i u (), v (); \
    endmodule module k; j u (), v (); endmodule module l; k u (), v (); endmodule module m; l u (), v (); \
    endmodule module n; m u (), v (); endmodule module o; n u (), v (); endmodule module p; o u (), v (); \
    endmodule module q; p u (), v (); endmodule module r; q u (), v (); endmodule module s; r u (), v (); \
    endmodule module t; s u (), v (); endmodule module u; t u (), v (); endmodule module v; u u (), v (); \
    endmodule module w; v u (), v (); endmodule module x; w u (), v (); endmodule module y; x u (), v (); \
    endmodule module z; y u (), v (); endmodule module A; z u (), v (); endmodule module B; A u (), v (); \
    endmodule module C; B u (), v (); endmodule module D; C u (), v (); endmodule module E; D u (), v (); \
    endmodule
module t⏎net u0/n Inner 131071 0⏎net u1/n Inner 131071 0⏎net u2/n Inner 131071 0⏎ | module a; wire [131071:0] \
    n; endmodule module t;⟨3: a u# ();⟩ endmodule
Nets | module a; wire [131071:0] n; endmodule module t;⟨4: a u# ();⟩ endmodule
module t⏎I ⟨511:u⟩/⟨512:g⟩ 1⏎ | module a; I ⟨512:g⟩ (); endmodule module t; a ⟨511:u⟩ (); endmodule
V1 2 | module a; I ⟨512:g⟩ (); endmodule module t; a ⟨512:u⟩ ();⏎endmodule
V1 1 | module a; wire ⟨512:g⟩; endmodule module t; a ⟨512:u⟩ (); endmodule
V5 1 | module a; I ⟨512:g⟩ (); J ⟨512:g⟩2 (); endmodule module t; a ⟨511:u⟩ (); I \\⟨511:u⟩/⟨512:g⟩ (); \
    endmodule
module t⏎ | module a; endmodule module t; a ⟨1024:u⟩ (); endmodule
";

#[test]
fn modules_become_one_netlist(rt: HostRuntime) -> Result<(), Fail> {
    for rows in [FLAT, REFUSED, LARGE] {
        compare_flat(&rt, rt.alloc(), rows)?;
    }
    Ok(())
}
