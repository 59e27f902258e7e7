//! The tokens of short texts, worked out by hand.

use crate::rows::{at_bar, with_lines};
use std::alloc::Global;
use std::process::Abort;
use std::test::*;
use xt_lex::{Kind, Lexemes, MOST_BYTES, Rules, find_fault, tokens};

/// The letter that denotes a kind.
fn letter(kind: Kind) -> u8 {
    match kind {
        Kind::Word => b'W',
        Kind::Text => b'T',
        Kind::Mark => b'M',
        Kind::Escaped => b'E',
        Kind::Break => b'B',
    }
}

/// The tokens of a text, with ` ¦ ` between them: of each the letter of its kind, the line of its first byte, a space
/// and its bytes. The cursor finds the same tokens.
fn listed(rt: &impl Abort, alloc: Global, rules: Rules, text: &[u8]) -> Result<Vec<u8>, Fail> {
    if MOST_BYTES < text.len() {
        return Err(Fail::from("too long"));
    }
    let Ok(list) = tokens(alloc, text, rules) else {
        panic!(rt; "refused");
    };
    let mut lexemes = Lexemes::new(text, rules);
    let mut out = Vec::new(alloc);
    for token in list.iter() {
        if !out.is_empty() {
            out.extend_from_slice(" ¦ ".as_bytes())?;
        }
        out.push(letter(token.kind))?;
        let line = token.line;
        let line = format!(in alloc; "{line} ")?;
        out.extend_from_slice(line.as_bytes())?;
        let span = token.from as usize..token.to as usize;
        let Some(part) = text.get(span) else {
            panic!(rt; "no part of the text");
        };
        out.extend_from_slice(part)?;
        let Some(lexeme) = lexemes.next_token() else {
            panic!(rt; "a token is missing");
        };
        assert_eq!(rt; lexeme.text, part);
    }
    assert!(rt; lexemes.next_token().is_none());
    Ok(out)
}

/// The tokens of the text of a row.
fn listed_of(rt: &impl Abort, alloc: Global, rules: Rules, text: &str) -> Result<Vec<u8>, Fail> {
    let text = with_lines(alloc, text)?;
    listed(rt, alloc, rules, text.as_bytes())
}

/// Compares the tokens of the text of each row, which comes before ` ⇒ `, with those after it.
fn compare(rt: &impl Abort, alloc: Global, rules: Rules, rows: &str) -> Result<(), Fail> {
    for row in rows.lines() {
        let Some((text, want)) = row.split_once(" ⇒ ") else {
            return Err(Fail::from("a row without tokens"));
        };
        let listed = listed_of(rt, alloc, rules, text)?;
        let want = with_lines(alloc, want)?;
        assert!(rt; listed.as_slice() == want.as_bytes(), "{row}");
    }
    Ok(())
}

/// The fault of a text, which its tokens have, too.
fn fault_in_words(alloc: Global, rules: Rules, text: &[u8]) -> Result<String, Fail> {
    if MOST_BYTES < text.len() {
        return Err(Fail::from("too long"));
    }
    let fault = find_fault(text, rules);
    if tokens(alloc, text, rules).err() != fault {
        return Err(Fail::from("the tokens have another fault"));
    }
    match fault {
        Some(fault) => Ok(format!(in alloc; "{fault:?}")?),
        None => Err(Fail::from("no fault")),
    }
}

/// Compares the fault of the text of each row.
fn compare_faults(rt: &impl Abort, alloc: Global, rules: Rules, rows: &str) -> Result<(), Fail> {
    for row in rows.lines() {
        let (want, text) = at_bar(row)?;
        let text = with_lines(alloc, text)?;
        let words = fault_in_words(alloc, rules, text.as_bytes())?;
        assert!(rt; words.as_str() == want, "{words} at {row}");
    }
    Ok(())
}

/// Liberty texts and their tokens.
const LIBERTY: &str = "\
a(b){c:\"d\";} ⇒ W1 a ¦ M1 ( ¦ W1 b ¦ M1 ) ¦ M1 { ¦ W1 c ¦ M1 : ¦ T1 \"d\" ¦ M1 ; ¦ M1 }
a/*\"*/b\"/*\"c ⇒ W1 a ¦ W1 b ¦ T1 \"/*\" ¦ W1 c
/*/ a */b/**/c/***/d/*⏎* /*/e ⇒ W1 b ¦ W1 c ¦ W1 d ¦ W2 e
a\\⏎b \\⏎\\⏎c\\⏎ ⇒ W1 a ¦ W2 b ¦ W4 c
a\\\r⏎b\r\rc\r⏎d ⇒ W1 a\\ ¦ W2 b ¦ W2 c ¦ W3 d
\\a\\\\b\\\"c\"\\(\\ d\\;\\ ⇒ W1 \\a\\\\b\\ ¦ T1 \"c\" ¦ W1 \\ ¦ M1 ( ¦ W1 \\ ¦ W1 d\\ ¦ M1 ; ¦ W1 \\
\"\\\"\"\"\\\\\" \"\\(\\/*\"x ⇒ T1 \"\\\"\" ¦ T1 \"\\\\\" ¦ T1 \"\\(\\/*\" ¦ W1 x
\"a\\⏎b\r⏎c\"d \"⏎\"e ⇒ T1 \"a\\⏎b\r⏎c\" ¦ W3 d ¦ T3 \"⏎\" ¦ W4 e
*a/b*/c//d/*e*/f\"g\"h\"\",/ ⇒ W1 *a/b*/c//d ¦ W1 f ¦ T1 \"g\" ¦ W1 h ¦ T1 \"\" ¦ M1 , ¦ W1 /
/*é\u{1}*/ \"é\u{7f}\" ⇒ T1 \"é\u{7f}\"
!#$%&'*+-./\t<=>?@[]^_`|~ ⇒ W1 !#$%&'*+-./ ¦ W1 <=>?@[]^_`|~
";

/// Texts with a fault.
const LIBERTY_FAULTS: &str = "\
Byte(3) | \"é\"⏎/*é*/\r⏎é\"
Byte(1) | \"\u{b}\"\t\u{b}
Unended(3) | a⏎\"b\\\"⏎\\
Unended(2) | a\r⏎/*/
";

/// Verilog texts and their tokens.
const VERILOG: &str = "\
m (a);\r⏎\tendmodule\r\r⏎; ⇒ W1 m ¦ M1 ( ¦ W1 a ¦ M1 ) ¦ M1 ; ¦ W2 endmodule ¦ M3 ;
a/*⏎*/b//c⏎d/*/ x */y/***/z//*⏎w// ⇒ W1 a ¦ W2 b ¦ W3 d ¦ W3 y ¦ W3 z ¦ W4 w
(*) a *)b(**)c(***)d( *e*) ⇒ W1 b ¦ W1 c ¦ W1 d ¦ M1 ( ¦ M1 * ¦ W1 e ¦ M1 * ¦ M1 )
(*/**)a/*(**/b(*\"*)c//(* ⇒ W1 a ¦ W1 b ¦ W1 c
 `x⏎`y /* z⏎w⏎` ⇒ M1 ` ¦ W1 x ¦ W3 w
/*⏎`a*/b(*⏎`c*)`d ⇒ W2 b ¦ M3 ` ¦ W3 d
1'b0 1'b2 1'H1x 1'D01 ⇒ W1 1'b0 ¦ W1 1 ¦ M1 ' ¦ W1 b2 ¦ W1 1'H1 ¦ W1 x ¦ W1 1'D0 ¦ W1 1
2'b0 1'x0 1 'o1 a1'b0 _1$ $12ab ⇒ W1 2 ¦ M1 ' ¦ W1 b0 ¦ W1 1 ¦ M1 ' ¦ W1 x0 ¦ W1 1 ¦ M1 ' ¦ W1 o1 ¦ \
    W1 a1 ¦ M1 ' ¦ W1 b0 ¦ W1 _1$ ¦ M1 $ ¦ W1 12 ¦ W1 ab
\\a+b\tc\\⏎\\//x(* \\ ⇒ E1 \\a+b ¦ W1 c ¦ E1 \\ ¦ E2 \\//x(* ¦ E2 \\
\\ a\\1 \\\\\t\\\"\r⏎\\`x ⇒ E1 \\ ¦ W1 a ¦ E1 \\1 ¦ E1 \\\\ ¦ E1 \\\" ¦ E2 \\`x
\"a//b\"⏎/ /.{~} ⇒ M1 \" ¦ W1 a ¦ M2 / ¦ M2 / ¦ M2 . ¦ M2 { ¦ M2 ~ ¦ M2 }
";

/// Texts with a fault.
const VERILOG_FAULTS: &str = "\
Byte(2) | // é⏎/*é*/(* é
Byte(2) | `a⏎`\u{7f}
Unended(2) | /*/⏎é
Unended(3) | (*)\r⏎\r⏎
";

/// SPEF texts and their tokens.
const SPEF: &str = "\
*CAP\r⏎1 *1:1 0.1:0.2 ⇒ W1 *CAP ¦ W2 1 ¦ W2 *1:1 ¦ W2 0.1:0.2
*1 n1//x⏎//c⏎/*d*/\"e f\"⏎ ⇒ W1 *1 ¦ W1 n1//x ¦ T3 \"e f\"
a/*b c*/ /* d */e ⇒ W1 a/*b ¦ W1 c*/ ¦ W1 e
/*/ a */b/**/ c /***/d ⇒ W1 b/**/ ¦ W1 c ¦ W1 d
a\"b \"c⏎d\"e\" / ⇒ W1 a\"b ¦ T1 \"c⏎d\" ¦ W2 e\" ¦ W2 /
\"//\" \"/*\" //\"⏎/*\"*/\"\" ⇒ T1 \"//\" ¦ T1 \"/*\" ¦ T2 \"\"
\"a\\\"b\\\"c ⇒ T1 \"a\\\" ¦ W1 b\\\"c
bus\\[0\\]\\⏎a\\ \\b\\ ⇒ W1 bus\\[0\\]\\ ¦ W2 a\\ ¦ W2 \\b\\
/ * /a */ *D_NET ⇒ W1 / ¦ W1 * ¦ W1 /a ¦ W1 */ ¦ W1 *D_NET
*/ /*⏎* /\r⏎*/x // ⇒ W1 */ ¦ W3 x
a\rb\r⏎c⏎\rd ⇒ W1 a ¦ W1 b ¦ W2 c ¦ W3 d
//é⏎/*\u{1}é*/ \"é\u{7f}\" ~! ⇒ T2 \"é\u{7f}\" ¦ W2 ~!
";

/// Texts with a fault.
const SPEF_FAULTS: &str = "\
Byte(2) | \"b\"⏎aé \"
Unended(2) | /*/⏎é
Unended(3) | a⏎\"\\\"⏎\"
";

/// SDC texts and their tokens.
const SDC: &str = "\
set x; # c⏎ ⇒ W1 set ¦ W1 x ¦ B1 ; ¦ B1 ⏎
a #b c#d⏎ #e;f ⇒ W1 a ¦ W1 #b ¦ W1 c#d ¦ B1 ⏎
a\\⏎b \\⏎\\⏎c\\⏎ ⇒ W1 a ¦ W2 b ¦ W4 c
# c \\⏎ d⏎e\\⏎#f ⇒ B2 ⏎ ¦ W3 e ¦ W4 #f
;\\⏎#é\\ ⇒ B1 ;
[get {a b} b[0]];[c] ⇒ M1 [ ¦ W1 get ¦ E1 {a b} ¦ W1 b[0] ¦ M1 ] ¦ B1 ; ¦ M1 [ ¦ W1 c ¦ M1 ]
a[b;c] d[e f] ⇒ W1 a[b ¦ B1 ; ¦ W1 c ¦ M1 ] ¦ W1 d[e ¦ W1 f ¦ M1 ]
{a⏎{\"}b{ \"c\r⏎{\"d ⇒ E1 {a⏎{\"} ¦ W2 b{ ¦ T2 \"c\r⏎{\" ¦ W3 d
\"a\\\"b{c} {d\\}e\" ⇒ T1 \"a\\\" ¦ W1 b{c} ¦ E1 {d\\} ¦ W1 e\"
}a]b[c]d[x[y]] ][[e] ⇒ W1 }a ¦ M1 ] ¦ W1 b[c]d[x[y] ¦ M1 ] ¦ M1 ] ¦ M1 [ ¦ M1 [ ¦ W1 e ¦ M1 ]
\\a \\; \\\r⏎\\{ \\\\⏎b\\ ⇒ W1 \\a ¦ W1 \\ ¦ B1 ; ¦ W1 \\ ¦ B1 ⏎ ¦ W2 \\{ ¦ W2 \\ ¦ W3 b\\
";

/// Texts with a fault.
const SDC_FAULTS: &str = "\
Byte(1) | a #é
Byte(4) | \"é\"⏎#é⏎{⏎é
Unended(2) | \"é\\⏎
Unended(2) | a⏎{\"
";

/// The rules of each format, with texts and their tokens, and texts with a fault.
const TEXTS: [(Rules, &str, &str); 4] = [
    (Rules::Liberty, LIBERTY, LIBERTY_FAULTS),
    (Rules::Verilog, VERILOG, VERILOG_FAULTS),
    (Rules::Spef, SPEF, SPEF_FAULTS),
    (Rules::Sdc, SDC, SDC_FAULTS),
];

#[test]
fn texts_have_their_tokens_or_a_fault(rt: HostRuntime) -> Result<(), Fail> {
    for (rules, rows, faults) in &TEXTS {
        compare(&rt, rt.alloc(), *rules, rows)?;
        compare_faults(&rt, rt.alloc(), *rules, faults)?;
    }
    Ok(())
}
