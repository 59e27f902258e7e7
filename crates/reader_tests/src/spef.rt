//! Parasitics: short texts and one whole example, with what they mean worked out by hand.

use crate::rows::{Reader, Texts, answer, compare, with_lines};
use spef_read::{NameId, Parasitics, read_spef};
use std::alloc::{AllocError, Global};
use std::process::Abort;
use std::test::*;
use xt_lex::MOST_BYTES;

/// The first lines of a text, as far as a net wants them.
const HEAD: &str = "*SPEF \"x\"\n*C_UNIT 1 PF\n*R_UNIT 1 OHM\n";

/// The same with the beginning of a net after it, in line 4.
const NET: &str = "*SPEF \"x\"\n*C_UNIT 1 PF\n*R_UNIT 1 OHM\n*D_NET a 1 ";

/// Beginnings of a text.
const HEADERS: &str = "\
S2 1 |
S2 3 | ⏎⏎
S2 2 | *SPEF⏎
S1 2 | ⏎*SPEF x
S1 1 | *DESIGN \"x\"
S4 2 | *SPEF \"x\"⏎
S2 2 | *SPEF \"x\" *DESIGN⏎
S1 2 | *SPEF \"x\" *DESIGN⏎top
S1 2 | *SPEF \"x\" *DESIGN \"a\"⏎\"b\"
S4 2 | *SPEF \"x\" *DESIGN_FLOW \"a\"⏎\"b\"
S1 2 | *SPEF \"x\" *DESIGN_FLOW⏎*DATE \"d\"
S1 2 | *SPEF \"x\"⏎*SPEF \"x\"
S1 1 | *SPEF \"x\" *INDUC
S1 2 | *SPEF \"x\"⏎é
S2 1 | *SPEF \"é
S2 2 | *SPEF \"x\" /*⏎é\u{20}
";

/// Units, after the first word.
const UNITS: &str = "\
S4 2 | *T_UNIT 1⏎US
S1 1 | *T_UNIT 2⏎NS
S1 2 | *T_UNIT⏎NS 1
S2 2 | *C_UNIT 1⏎
S1 1 | *C_UNIT 10000 PF
read | *C_UNIT 1.0 pf *R_UNIT 1e-1 kOhm *L_UNIT 1 any *T_UNIT 1000.0 Ps
S4 2 | *C_UNIT 1 PF⏎
S4 2 | *R_UNIT 1 OHM *C_UNIT 1⏎OHM
S4 2 | *R_UNIT 1 OHM⏎*D_NET a
S4 3 | *R_UNIT 1 OHM *NAME_MAP *1 a⏎*PORTS⏎*D_NET a
S7 2 | *R_UNIT 1 OHM⏎*R_NET a
S1 2 | *C_UNIT 1 FF *R_UNIT 1 OHM *L_UNIT⏎x HENRY
S1 1 | *C_UNIT \"1\" PF
S1 1 | *C_UNIT 1 \"PF\"
";

/// Marks and brackets, after the first lines.
const MARKS: &str = "\
read | *DIVIDER .
S1 5 | *DIVIDER⏎::
S2 5 | *DIVIDER⏎
S1 4 | *DELIMITER \".\"
read | *DELIMITER 7 *DELIMITER *
read | *BUS_DELIMITER <> *BUS_DELIMITER ( ) *BUS_DELIMITER []
S1 5 | *BUS_DELIMITER⏎{ }
S1 5 | *BUS_DELIMITER⏎{}
S1 5 | *BUS_DELIMITER [⏎>
S1 5 | *BUS_DELIMITER⏎[>
S2 5 | *BUS_DELIMITER [⏎
S1 5 | *BUS_DELIMITER [⏎*DATE \"d\"
S1 5 | *BUS_DELIMITER⏎] [
read | *C_UNIT 1 FF *DESIGN \"a\" *DESIGN \"b\"
S1 5 | *NAME_MAP⏎*DESIGN \"x\"
S1 4 | *END
";

/// Maps of names, after the first lines.
const PAIRS: &str = "\
S2 5 | *NAME_MAP *1⏎
S5 5 | *NAME_MAP *1 a⏎*1 b
S5 5 | *NAME_MAP *1 a⏎*001 b
S5 5 | *NAME_MAP *0 a *1 b⏎*00 c
S1 5 | *NAME_MAP *1 a⏎*2 *1
S1 4 | *NAME_MAP *1 \\*1 *10 b *01x
S1 4 | *NAME_MAP *a b
S1 4 | *NAME_MAP 1 b
S1 4 | *NAME_MAP *1:2 b
S1 4 | *NAME_MAP *1 \\\\
S1 4 | *NAME_MAP *1 \"a\"
S7 4 | *NAME_MAP *1 a *DEFINE x
S1 4 | *NAME_MAP *1 *DEFINE
S1 4 | *NAME_MAP *1 a *INDUC
read | *NAME_MAP *1 a *PORTS x \"y\" *1 *END *NAME_MAP *2 b *GROUND_NETS *INDUC *NAME_MAP
S7 5 | *POWER_NETS x⏎*D_PNET
";

/// Nets, after the first lines.
const NETS: &str = "\
S2 5 | *D_NET⏎
S2 5 | *D_NET a⏎
S2 5 | *D_NET a 1⏎
read | *D_NET a 1 *END *D_NET 7 1 *V 3 *END *D_NET b 1 *V \"x\" *CONN *CAP *RES *END
S2 5 | *D_NET a 1 *V⏎
S1 4 | *D_NET \"a\" 1
S5 5 | *D_NET⏎*1 1 *END
S1 5 | *D_NET⏎*x 1
S1 5 | *D_NET⏎*1x:y 1
S1 5 | *D_NET⏎*DEFINE 1
S6 6 | *D_NET a 1 *END⏎*D_NET⏎a
S6 6 | *NAME_MAP *1 a *D_NET a 1 *END⏎*D_NET⏎*01 x
S6 5 | *D_NET a/b 1 *END⏎*D_NET a\\/b 1
S1 4 | *D_NET a 1 *END a
S1 4 | *D_NET a 1 *END *INDUC
S7 4 | *D_NET a 1 *DEFINE
";

/// Totals, after the first lines.
const VALUES: &str = "\
S1 5 | *D_NET a⏎x
S1 5 | *D_NET a⏎*1
S3 5 | *D_NET a⏎-1
read | *D_NET a -0 *END
read | *D_NET a -4e-7 *END
S3 4 | *D_NET a -5e-7
S1 4 | *D_NET a 1:2
S1 4 | *D_NET a 1:2:3:4
S1 4 | *D_NET a x:2:3
S1 4 | *D_NET a 1:2:
read | *D_NET a -9:1:1e99 *END
S3 4 | *D_NET a 1:-2:3
S3 4 | *D_NET a 1:1e99:3
read | *D_NET a 1099511.627776 *END
S3 4 | *D_NET a 1099511.627777
S3 4 | *D_NET a 0.1111111111111111111111111111111
";

/// Lists of a net, after its beginning.
const LISTS: &str = "\
S1 5 | *CONN⏎*CONN
read | *CONN *I *CONN \"x\" *V *SPEF *END
S1 5 | *CONN *P x⏎*NAME_MAP
S1 5 | *CONN *N x⏎*D_NET
S7 5 | *CONN *N x⏎*R_NET
S7 5 | *CONN *N x⏎*INDUC
S2 5 | *CONN *N⏎
S1 4 | *CONN x
S1 4 | *CAP *CONN
S1 4 | *CAP *CAP
S1 4 | *RES *CAP
S7 4 | *RES *INDUC
S7 4 | *INDUC
S7 4 | *PDEFINE
S2 4 | *RES 1 b c 5 *END *D_NET b 1
";

/// Capacitors and resistors, after the beginning of a net.
const ENTRIES: &str = "\
S1 4 | *CAP x
S1 4 | *CAP +1 b 1
S1 4 | *CAP 1.0 b 1
read | *CAP 1 b 2 *END
read | *CAP 1 2 b 2:3:4 2 b 0 *RES *END
S1 5 | *CAP 1 b⏎*END
S1 5 | *CAP 1 b c⏎*END
S1 5 | *CAP 1⏎*INDUC
S5 4 | *CAP 1 *3:a⏎x
S3 5 | *CAP 1 b⏎-1
S1 5 | *CAP 1 b c⏎d
S1 5 | *CAP 1 b⏎\"c\" 1
read | *RES 1 b 2 3 *END
S2 5 | *RES 1 b 2⏎
S1 5 | *RES 1 b c⏎d
S3 5 | *RES 1 b c⏎-1
S3 4 | *RES 1 b c 1099511627.777
";

/// Long texts, after the first lines: names of 2,049 and 2,050 bytes, each after a backslash; 2.1 MB of nets, and a
/// further one of the name of the first.
const LONG: &str = "\
read | *D_NET ⟨2049:\\a⟩ 1 *END
S1 4 | *D_NET ⟨2050:\\a⟩ 1 *END
read | ⟨100000:*D_NET n# 1⏎*END⏎⟩
S6 200004 | ⟨100000:*D_NET n# 1⏎*END⏎⟩*D_NET n0 1⏎
";

/// All tables.
const TEXTS: [Texts; 9] = [
    (Reader::Spef, "", HEADERS, ""),
    (Reader::Spef, "*SPEF \"x\" ", UNITS, ""),
    (Reader::Spef, HEAD, MARKS, ""),
    (Reader::Spef, HEAD, PAIRS, ""),
    (Reader::Spef, HEAD, NETS, ""),
    (Reader::Spef, HEAD, VALUES, ""),
    (Reader::Spef, NET, LISTS, ""),
    (Reader::Spef, NET, ENTRIES, ""),
    (Reader::Spef, HEAD, LONG, ""),
];

#[test]
fn texts_are_read_or_refused_at_their_lines(rt: HostRuntime) -> Result<(), Fail> {
    compare(&rt, rt.alloc(), &TEXTS)
}

/// An example.
const EXAMPLE: &str = "\
*SPEF \"IEEE 1481-1998\"
*DESIGN \"top\"
*DATE \"today\"
*VENDOR \"none\"
*PROGRAM \"hand\"
*VERSION \"1\"
*DESIGN_FLOW \"NETLIST_TYPE_VERILOG\"
*DIVIDER /
*DELIMITER :
*BUS_DELIMITER [ ]
*T_UNIT 1 NS
*C_UNIT 1 PF
*R_UNIT 1 OHM
*L_UNIT 1 HENRY
*NAME_MAP
*1 n1
*2 bus\\[0\\]
*3 g1
*4 g2
*5 f1
*6 f2
*PORTS
ck I
d I
y O
*D_NET *1 0.003
*CONN
*I *3:Y O *D INV
*I *6:D I *L 0.001
*N *1:1 *C 0 0
*CAP
1 *1:1 0.0019:0.002:0.0021
2 *1:1 *2:1 0.001
*RES
1 *3:Y *1:1 50
2 *1:1 *6:D 50
*END
*D_NET *2 0.003
*CAP
1 *2:1 0.002
2 *2:1 *1:1 0.001
*RES
1 *4:Y *2:1 100
2 *2:1 *5:D 100
*END
";

/// Lines that are in place of those of the example, each with its number from 1 on.
type Changes<'a> = &'a [(usize, &'static str)];

/// The first lines of the example, some of them changed.
fn changed(alloc: Global, count: usize, changes: Changes<'_>) -> Result<String, AllocError> {
    let mut text = String::new(alloc);
    for (at, own) in EXAMPLE.lines().take(count).enumerate() {
        let mut shown = own;
        for (number, line) in changes {
            if *number == at + 1 {
                shown = *line;
            }
        }
        text.push_str(shown)?;
        text.push('\n')?;
    }
    Ok(text)
}

/// What becomes of the first lines of the example, some of them changed.
fn answer_of_changed(alloc: Global, count: usize, changes: Changes<'_>) -> Result<String, Fail> {
    let text = changed(alloc, count, changes)?;
    answer(alloc, Reader::Spef, text.as_bytes())
}

/// What is to become of the example cut before a line: the code of a refusal at this line, or `read`.
fn wanted_of_cut(alloc: Global, line: u32) -> Result<String, AllocError> {
    let code = match line {
        1 => "S2",
        2..=13 => "S4",
        14..=26 | 38 | 46 => return String::from_str(alloc, "read"),
        _ => "S2",
    };
    format!(in alloc; "{code} {line}")
}

#[test]
fn the_example_is_refused_where_it_is_cut(rt: HostRuntime) -> Result<(), Fail> {
    for count in 0..46u32 {
        let words = answer_of_changed(rt.alloc(), count as usize, &[])?;
        let want = wanted_of_cut(rt.alloc(), count + 1)?;
        assert_eq!(rt; words.as_str(), want.as_str(), "{count} lines");
    }
    Ok(())
}

#[test]
fn the_example_is_refused_at_a_changed_line(rt: HostRuntime) -> Result<(), Fail> {
    for (number, line, want) in [
        (40, "1 *2:1 -0.002", "S3 40"),
        (38, "*D_NET *1 0.003", "S6 38"),
        (38, "*D_NET *9 0.003", "S5 38"),
        (17, "*01 x", "S5 17"),
        (36, "2 *1:1 *6:D *INDUC", "S1 36"),
    ] {
        let words = answer_of_changed(rt.alloc(), 45, &[(number, line)])?;
        assert_eq!(rt; words.as_str(), want, "{line}");
    }
    Ok(())
}

/// Appends a name.
fn push_name(parasitics: &Parasitics, name: NameId, out: &mut Vec<u8>) -> Result<(), Fail> {
    let Some(parts) = parasitics.parts(name) else {
        return Err(Fail::from("no name"));
    };
    parts.push_to(out)?;
    out.push(b' ')?;
    Ok(())
}

/// Appends a value and the end of a line.
fn push_value(alloc: Global, value: i64, out: &mut Vec<u8>) -> Result<(), AllocError> {
    let text = format!(in alloc; "{value}\n")?;
    out.extend_from_slice(text.as_bytes())
}

/// The nets with their totals, each with its capacitors and its resistors after it, a line each.
fn shown(alloc: Global, parasitics: &Parasitics) -> Result<Vec<u8>, Fail> {
    let mut out = Vec::new(alloc);
    for net in parasitics.nets.as_slice() {
        push_name(parasitics, net.name, &mut out)?;
        push_value(alloc, net.total, &mut out)?;
        for cap in net.caps.as_slice() {
            out.extend_from_slice(b"C ")?;
            push_name(parasitics, cap.a, &mut out)?;
            if let Some(b) = cap.b {
                push_name(parasitics, b, &mut out)?;
            }
            push_value(alloc, cap.value, &mut out)?;
        }
        for resistor in net.resistors.as_slice() {
            out.extend_from_slice(b"R ")?;
            push_name(parasitics, resistor.a, &mut out)?;
            push_name(parasitics, resistor.b, &mut out)?;
            push_value(alloc, resistor.value, &mut out)?;
        }
    }
    Ok(out)
}

/// Compares what a text means with a list of lines.
fn compare_value(rt: &impl Abort, alloc: Global, text: &str, want: &str) -> Result<(), Fail> {
    if MOST_BYTES < text.len() {
        return Err(Fail::from("too long"));
    }
    let Ok(parasitics) = read_spef(alloc, text.as_bytes()) else {
        panic!(rt; "refused");
    };
    let shown = shown(alloc, &parasitics)?;
    assert!(rt; shown.as_slice() == want.as_bytes());
    Ok(())
}

/// What the example means.
const MEANT: &str = "\
n1 3000
C n1:1 2000
C n1:1 bus[0]:1 1000
R g1:Y n1:1 50000
R n1:1 f2:D 50000
bus[0] 3000
C bus[0]:1 2000
C bus[0]:1 n1:1 1000
R g2:Y bus[0]:1 100000
R bus[0]:1 f1:D 100000
";

#[test]
fn the_example_means_two_nets(rt: HostRuntime) -> Result<(), Fail> {
    let alloc = rt.alloc();
    let changes: [Changes<'static>; 6] = [
        &[],
        &[(16, "*0001 n1")],
        &[(10, "*BUS_DELIMITER ( )")],
        &[(10, "*BUS_DELIMITER < >"), (17, "*2 bus<0>")],
        &[(45, "*END *PORTS *END")],
        &[(8, "*DIVIDER |")],
    ];
    for changes in changes {
        let text = changed(alloc, 45, changes)?;
        compare_value(&rt, alloc, text.as_str(), MEANT)?;
    }
    Ok(())
}

/// Names with marks of their own, and values in other units.
const MARKED: &str = "\
*SPEF \"x\" *DIVIDER . *DELIMITER | *BUS_DELIMITER < > *C_UNIT 10 FF *R_UNIT 0.1 KOHM
*NAME_MAP *1 a.b\\.c<1>\\<2\\> *D_NET *1 1.5 *CAP 1 *01|p.q 0.0005 2 *1|p.q *1 9:2:9
*RES 1 x.y|z *001|a\\|b[0] 3 *END";

/// What it means.
const MARKED_MEANT: &str = "\
a/b.c[1]<2> 15000
C a/b.c[1]<2>|p/q 5
C a/b.c[1]<2>|p/q a/b.c[1]<2> 20000
R x/y|z a/b.c[1]<2>|a|b[0] 300000
";

/// A delimiter that is a digit, and values that are rounded.
const ROUNDED: &str = "\
*SPEF \"x\" *DELIMITER : *DELIMITER 7 *C_UNIT 1 PF *C_UNIT 1 FF *R_UNIT 1 OHM
*NAME_MAP *2 n *D_NET *27x 1 *END *D_NET *2 0.0004:0.0005:0 *END *D_NET \\*2 0.00049 *END";

/// A name map whose one number has 10,000 zeros in front, and a net with the name of this number.
const LONG_NUMBER: &str = "\
*SPEF \"x\" *C_UNIT 1 PF *R_UNIT 1 OHM *NAME_MAP *⟨10000:0⟩31 n *D_NET *31 1 *END";

#[test]
fn names_are_whole_and_values_are_in_base_units(rt: HostRuntime) -> Result<(), Fail> {
    let alloc = rt.alloc();
    compare_value(&rt, alloc, MARKED, MARKED_MEANT)?;
    compare_value(&rt, alloc, ROUNDED, "n7x 1000\nn 1\n*2 0\n")?;
    let number = with_lines(alloc, LONG_NUMBER)?;
    compare_value(&rt, alloc, number.as_str(), "n 1000000\n")
}
