//! The lines of the nets.

ghost use Rattle.std.specs.Prelude.{◌≡◌, ◌≤◌, ◌<◌, ◌^◌, List, ℕ, IfOk, OnOk, ◌++◌, ◌∷◌, ◌⊎◌, [], None, codes};
ghost use Rattle.std.specs.Prelude.{length, map, take};
ghost use Rattle.std.specs.Str.{bytes_eq};
ghost use Rattle.linked_text.specs.EachLine.{head_in};
ghost use Rattle.linked_text.specs.Fields.{fields_of};
ghost use Rattle.linked_text.specs.Fits.{AreFew};
ghost use Rattle.linked_text.specs.Gives.{Gives, LineGives};
ghost use Rattle.linked_text.specs.Meaning.{head_at, heads_at, keeps, newlines, no_sums, sums_kept, sums_with};

use crate::fault::{Fault, HOLDS, LineStop, NUMBERS, Stop, WORDS};
use crate::field::{count, is_name, kind, quantity};
use crate::head::{NetHead, Sums};
use crate::line::{cut_line, seven};
use crate::read_line::refused;
use name_numbers::{Names, TextKey};
use std::alloc::{AllocError, Global};
use xt_model::limits::{MOST_ARCS, MOST_CAP, MOST_COEFFICIENTS, MOST_COUPLINGS};
use xt_model::{Code, LimitKind, Name};

/// A value that keeps the limit of `most`, where what is limited has no name.
pub fn keeps(what: LimitKind, value: u128, most: u128) -> Result<(), Stop>
    ensures { Gives (λ x. x) result (keeps what None value most) }
{
    if value <= most {
        return Ok(());
    }
    Err(Stop::At(Fault::Limit {
        what,
        name: None,
        value,
    }))
}

/// Whether the sums keep their limits.
#[tactic(auto, unfolding(crate::specs::Meaning::sums_kept))]
fn sums_kept(sums: &Sums) -> Result<(), Stop>
    ensures value { Gives (λ x. x) result (sums_kept sums.now) }
    ensures few { OnOk result (AreFew sums.now) }
{
    keeps(LimitKind::Couplings, sums.couplings, MOST_COUPLINGS as u128)?;
    keeps(
        LimitKind::Coefficients,
        sums.coefficients,
        MOST_COEFFICIENTS as u128,
    )?;
    keeps(LimitKind::Arcs, sums.arcs, MOST_ARCS as u128)
}

/// The sums with one more net.
fn sums_with(sums: &Sums, head: &NetHead) -> Sums
    requires { AreFew sums.now }
    ensures { result ≡ sums_with sums.now head.now }
{
    let couplings = head.couplings as u128;
    let sinks = head.sinks as u128;
    let arcs = head.arcs as u128;
    Sums {
        couplings: sums.couplings + couplings,
        coefficients: sums.coefficients + sinks * couplings,
        arcs: sums.arcs + arcs,
    }
}

/// Whether it is the word of a net's line.
fn is_net(word: &[u8]) -> bool
    ensures { result ≡ bytes_eq word.now (codes "net") }
{
    matches!(word, b"net")
}

/// The line of a net after nets of these names.
#[tactic(auto, unfolding(crate::specs::EachLine::head_in))]
fn head_line<'a>(alloc: Global, names: &mut Names<'a>, line: &'a [u8]) -> Result<NetHead, LineStop>
    ensures value { LineGives (λ x. x) result (head_in names.old (fields_of line.entry.now)) }
    ensures entered { IfOk result (λ h. names.new ≡ names.old ++ h.name ∷ []) }
{
    let Some((word, name, input, load, couplings, sinks, arcs)) = seven(line) else {
        return Err(WORDS);
    };
    if !is_net(word) {
        return Err(WORDS);
    }
    let Some(input) = kind(input) else {
        return Err(WORDS);
    };
    let Some(load) = quantity(0, MOST_CAP, load) else {
        return Err(NUMBERS);
    };
    let Some(couplings) = count(couplings) else {
        return Err(NUMBERS);
    };
    let Some(sinks) = count(sinks) else {
        return Err(NUMBERS);
    };
    let Some(arcs) = count(arcs) else {
        return Err(NUMBERS);
    };
    if !is_name(name) {
        return Err(HOLDS);
    }
    let (_, fresh) = names.enter(name)?;
    if !fresh {
        return Err(HOLDS);
    }
    let name = Name::from_slice(alloc, name)?;
    Ok(NetHead {
        name,
        input,
        load,
        couplings,
        sinks,
        arcs,
    })
}

/// The line of a net at the front of `bytes`, after nets of these names with these sums; and the sums with it.
#[tactic(auto, unfolding(crate::specs::Meaning::head_at, crate::specs::Meaning::line_at))]
fn head<'a>(
    alloc: Global,
    names: &mut Names<'a>,
    sums: &Sums,
    bytes: &'a [u8],
) -> Result<(NetHead, Sums, &'a [u8]), Stop>
    requires { AreFew sums.now }
    ensures value { Gives (λ x. (x.0, x.2.now)) result (head_at names.old sums.now bytes.entry.now) }
    ensures entered { IfOk result (λ x. names.new ≡ names.old ++ x.0.name ∷ []) }
    ensures sums { IfOk result (λ x. x.1 ≡ sums_with sums.now x.0) }
    ensures few { IfOk result (λ x. AreFew x.1) }
{
    let Some((line, rest)) = cut_line(bytes) else {
        return Err(refused(bytes, Code::X1));
    };
    let head = match head_line(alloc, names, line) {
        Ok(head) => head,
        Err(LineStop::Refused(code)) => return Err(refused(bytes, code)),
        Err(LineStop::NoMemory) => return Err(Stop::NoMemory),
    };
    let sums = sums_with(sums, &head);
    sums_kept(&sums)?;
    Ok((head, sums, rest))
}

/// The first `count` lines of these bytes, or all bytes where there are fewer.
fn first_lines(count: u32, bytes: &[u8]) -> &[u8]
    ensures front { result.now ≡ take (length result.now) bytes.now }
    ensures lines { (result.now ≡ bytes.now) ⊎ (count ≤ newlines result.now) }
{
    let mut rest = bytes;
    let mut left = count;
    'lines: while left > 0 {
        left -= 1;
        let Some((_, after)) = cut_line(rest) else {
            return bytes;
        };
        rest = after;
    }
    let (lines, _) = bytes.split_at(bytes.len() - rest.len());
    lines
}

/// The lines of `count` nets. Their names are hashed under a key that depends on every byte of these lines, and so on
/// every name.
pub fn heads<'a>(
    alloc: Global,
    count: u32,
    bytes: &'a [u8],
) -> Result<(Vec<NetHead>, &'a [u8]), Stop>
    ensures { Gives (λ x. (x.0.items, x.1.now)) result (heads_at count [] no_sums bytes.entry.now) }
{
    let mut names = Names::new(alloc, TextKey::of(first_lines(count, bytes)));
    let mut sums = Sums {
        couplings: 0,
        coefficients: 0,
        arcs: 0,
    };
    let mut heads = Vec::new(alloc);
    let mut rest = bytes;
    let mut left = count;
    while left > 0 {
        left -= 1;
        let (head, sums_then, after) = head(alloc, &mut names, &sums, rest)?;
        heads.push(head)?;
        sums = sums_then;
        rest = after;
    }
    Ok((heads, rest))
}

/// How many sinks each net has.
pub fn sink_counts(alloc: Global, heads: &[NetHead]) -> Result<Vec<u32>, AllocError>
    ensures { IfOk result (λ v. v.items ≡ map (λ h. h.sinks) heads.now) }
{
    let mut counts = Vec::with_capacity(alloc, heads.len())?;
    for head in heads {
        counts.push(head.sinks)?;
    }
    Ok(counts)
}
