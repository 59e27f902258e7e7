//! The bodies of the nets.

ghost use Rattle.std.specs.Prelude.{◌≡◌, ◌≤◌, ◌^◌, ◌≤ℤ◌, neg_ℤ, pos, unsigned_abs, [], ◌∷◌, length};
ghost use Rattle.std.specs.Prelude.{MatchOption, IfOk, IfErr, OnOk};
ghost use Rattle.xt_model.specs.Sound.{coupling_sum, greatest_load};
ghost use Rattle.linked_text.specs.Gives.{Fails, Gives};
ghost use Rattle.linked_text.specs.Meaning.{coupled_net, couplings_at, net_at, nets_at, nets_behind, pair_at};

use crate::fault::{Fault, Stop};
use crate::head::NetHead;
use crate::net_lines::{ArcReader, CouplingReader, GivenReader, SinkReader};
use crate::read_line::{read_line, read_many};
use std::alloc::Global;
use std::collections::VecDeque;
use xt_model::limits::MOST_CAP;
use xt_model::{Coupling, Edge, GivenPair, LimitKind, Name, Net, Pair, Row};

/// What is given for the edges of a net with `arcs` arcs: nothing where there are any.
#[tactic(auto, unfolding(crate::specs::Meaning::pair_at))]
fn given(alloc: Global, arcs: u32, bytes: &[u8]) -> Result<(GivenPair, &[u8]), Stop>
    ensures { Gives (λ x. (x.0, x.1.now)) result (pair_at arcs bytes.now) }
{
    if arcs > 0 {
        return Ok((GivenPair::quiet(), bytes));
    }
    let (rise, rest) = read_line(alloc, &GivenReader { edge: Edge::Rise }, bytes)?;
    let (fall, rest) = read_line(alloc, &GivenReader { edge: Edge::Fall }, rest)?;
    let given = GivenPair::new(alloc, Pair { rise, fall })?;
    Ok((given, rest))
}

/// The sum of the coupling capacitors in aF.
fn coupling_sum(couplings: &[Coupling]) -> i128
    ensures value { result ≡ coupling_sum couplings.now }
    ensures low { neg_ℤ (pos (2 ^ 125)) ≤ℤ result }
    ensures high { result ≤ℤ pos (2 ^ 125) }
{
    let mut sum: i128 = 0;
    for coupling in couplings {
        sum += i128::from(coupling.cap);
    }
    sum
}

/// The load of a net in aF, each of its couplings counted twice.
fn greatest_load(head: &NetHead, couplings: &[Coupling]) -> u128
    ensures { result ≡ unsigned_abs (greatest_load (coupled_net head.now couplings.now)) }
{
    let sum = coupling_sum(couplings);
    let load = i128::from(head.load) + 2 * sum;
    load.unsigned_abs()
}

/// The couplings of the net of number `own` and this head, of `nets` nets, whose greatest load keeps its limit.
#[tactic(auto, unfolding(crate::specs::Meaning::couplings_at))]
fn couplings<'a>(
    alloc: Global,
    nets: usize,
    own: usize,
    head: &NetHead,
    bytes: &'a [u8],
) -> Result<(Vec<Coupling>, &'a [u8]), Stop>
    ensures { Gives (λ x. (x.0.items, x.1.now)) result (couplings_at nets own head.now bytes.entry.now) }
{
    let reader = CouplingReader { nets, own };
    let (couplings, rest) = read_many(alloc, &reader, head.couplings, bytes)?;
    let value = greatest_load(head, couplings.as_slice());
    if value <= MOST_CAP as u128 {
        return Ok((couplings, rest));
    }
    let name = Name::from_slice(alloc, head.name.bytes())?;
    Err(Stop::At(Fault::Limit {
        what: LimitKind::Load,
        name: Some(name),
        value,
    }))
}

/// The net of number `own` and this head, where the nets have this many sinks and there are `tables` tables.
#[tactic(auto, unfolding(crate::specs::Meaning::net_at))]
fn net<'a>(
    alloc: Global,
    sinks: &[u32],
    tables: u32,
    own: usize,
    head: NetHead,
    bytes: &'a [u8],
) -> Result<(Net, &'a [u8]), Stop>
    ensures { Gives (λ x. (x.0, x.1.now)) result (net_at sinks.now tables own head bytes.entry.now) }
{
    let (given, rest) = given(alloc, head.arcs, bytes)?;
    let (couplings, rest) = couplings(alloc, sinks.len(), own, &head, rest)?;
    let sink_reader = SinkReader {
        couplings: head.couplings,
    };
    let (pins, rest) = read_many(alloc, &sink_reader, head.sinks, rest)?;
    let arc_reader = ArcReader { sinks, tables };
    let (arcs, rest) = read_many(alloc, &arc_reader, head.arcs, rest)?;
    let net = Net {
        name: head.name,
        input: head.input,
        load: head.load,
        given,
        couplings: Row::from_vec(couplings),
        sinks: Row::from_vec(pins),
        arcs: Row::from_vec(arcs),
    };
    Ok((net, rest))
}

/// Takes out the first head, if there is any. The room of the heads shrinks with them.
fn next_head(heads: &mut VecDeque<NetHead>) -> Option<NetHead>
    ensures { MatchOption result ((heads.old.items ≡ []) × (heads.new.items ≡ []))
        (λ h. heads.old.items ≡ h ∷ heads.new.items) }
{
    let head = heads.pop_front()?;
    if heads.len() <= heads.capacity() / 2 {
        heads.shrink_to_fit();
    }
    Some(head)
}

/// Takes out the first head, if there is any, where `left` bytes are at least `least`.
fn head_above(heads: &mut VecDeque<NetHead>, left: usize, least: usize) -> Option<NetHead>
    ensures { MatchOption result (heads.new.items ≡ heads.old.items) (λ h. heads.old.items ≡ h ∷ heads.new.items) }
{
    if left < least {
        return None;
    }
    next_head(heads)
}

/// Reads the net of a head after others, and those of the next heads until less than half of the bytes is left.
/// Gives a copy of the bytes after them.
fn stretch(
    alloc: Global,
    sinks: &[u32],
    tables: u32,
    nets: &mut Vec<Net>,
    head: NetHead,
    heads: &mut VecDeque<NetHead>,
    bytes: &[u8],
) -> Result<Vec<u8>, Stop>
    ensures ok { IfOk result (λ rest. nets_behind sinks.now tables nets.new.items heads.new.items rest.items
        ≡ nets_behind sinks.now tables nets.old.items (head ∷ heads.old.items) bytes.now) }
    ensures err { IfErr result (λ e.
        Fails e (nets_behind sinks.now tables nets.old.items (head ∷ heads.old.items) bytes.now)) }
    ensures fewer { OnOk result (length heads.new.items ≤ length heads.old.items) }
{
    let least = bytes.len() / 2;
    let (first, mut rest) = net(alloc, sinks, tables, nets.len(), head, bytes)?;
    nets.push(first)?;
    while let Some(head) = head_above(heads, rest.len(), least) {
        let (next, after) = net(alloc, sinks, tables, nets.len(), head, rest)?;
        nets.push(next)?;
        rest = after;
    }
    Ok(Vec::from_slice(alloc, rest)?)
}

/// The nets of these heads. The bytes that are read are let go each time half of those that were left is read.
pub fn nets(
    alloc: Global,
    sinks: &[u32],
    tables: u32,
    heads: Vec<NetHead>,
    bytes: Vec<u8>,
) -> Result<(Vec<Net>, Vec<u8>), Stop>
    ensures { Gives (λ x. (x.0.items, x.1.items)) result (nets_at sinks.now tables 0 heads.items bytes.items) }
{
    let mut nets = Vec::with_capacity(alloc, heads.len())?;
    let mut heads = VecDeque::from(heads);
    let mut rest = bytes;
    while let Some(head) = next_head(&mut heads) {
        rest = stretch(
            alloc,
            sinks,
            tables,
            &mut nets,
            head,
            &mut heads,
            rest.as_slice(),
        )?;
    }
    Ok((nets, rest))
}
