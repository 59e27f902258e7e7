//! A net after an edit.

ghost use Rattle.std.specs.Prelude.{◌≡◌, ◌≤◌, ◌≤ℤ◌, ◌+ℤ◌, ◌-ℤ◌, ◌^◌, pos, neg_ℤ, length, map, IfOk, IfErr};
ghost use Rattle.std.specs.List.{All};
ghost use Rattle.xt_model.specs.Limits.{most_couplings};
ghost use Rattle.xt_model.specs.Sound.{IsSoundSink, coupling_sum, greatest_load};
ghost use Rattle.eco_warm.specs.Edits.{net_left, sink_left};
ghost use Rattle.eco_warm.specs.Possible.{AreInBounds, HasProducts, IsImpossible, IsInBounds, IsMove, IsPossible};

use crate::couplings::{can_move, coefs_left, couplings_left, total};
use crate::edit::{EditFault, Move};
use std::alloc::{AllocError, Global};
use xt_model::limits::MOST_PRODUCT;
use xt_model::{Coupling, GivenPair, Name, Net, NetId, Row, SinkPin, TimingArc};

/// A sink after an edit of these couplings of its net.
fn sink_left(
    alloc: Global,
    moving: Move,
    other: NetId,
    couplings: &[Coupling],
    sink: &SinkPin,
) -> Result<SinkPin, EditFault>
    requires moving { IsMove moving }
    requires bounds { AreInBounds couplings.now }
    requires sound { IsSoundSink (length couplings.now) sink.now }
    ensures ok { IfOk result (λ s. s ≡ sink_left moving other.0 couplings.now sink.now) }
    ensures possible { IfOk result HasProducts }
    ensures impossible { IfErr result (IsImpossible
        (HasProducts (sink_left moving other.0 couplings.now sink.now) → ⊥)) }
{
    let before = sink.coefs.as_slice();
    let coefs = coefs_left(alloc, moving, other, couplings, before)?;
    let base = sink.base + total(before) - total(&coefs);
    if base < 0 || base > MOST_PRODUCT {
        return Err(EditFault::E4);
    }
    let name = Name::from_slice(alloc, sink.name.bytes())?;
    Ok(SinkPin {
        name,
        base,
        coefs: Row::from_vec(coefs),
    })
}

/// The sinks of a net after an edit of its couplings.
fn sinks_left(
    alloc: Global,
    moving: Move,
    other: NetId,
    couplings: &[Coupling],
    sinks: &[SinkPin],
) -> Result<Vec<SinkPin>, EditFault>
    requires moving { IsMove moving }
    requires bounds { AreInBounds couplings.now }
    requires sound { All (IsSoundSink (length couplings.now)) sinks.now }
    ensures ok { IfOk result (λ left. left.items ≡ map (sink_left moving other.0 couplings.now) sinks.now) }
    ensures possible { IfOk result (λ left. All HasProducts left.items) }
    ensures impossible { IfErr result (IsImpossible
        (All HasProducts (map (sink_left moving other.0 couplings.now) sinks.now) → ⊥)) }
{
    let mut left = Vec::new(alloc);
    for sink in sinks {
        left.push(sink_left(alloc, moving, other, couplings, sink)?)?;
    }
    Ok(left)
}

/// The sum of coupling capacitances in aF.
fn coupling_sum(couplings: &[Coupling]) -> i128
    requires few { length couplings.now ≤ most_couplings }
    ensures value { result ≡ coupling_sum couplings.now }
    ensures low { neg_ℤ (pos (2 ^ 83)) ≤ℤ result }
    ensures high { result ≤ℤ pos (2 ^ 83) }
{
    let mut sum: i128 = 0;
    for coupling in couplings {
        sum += i128::from(coupling.cap);
    }
    sum
}

/// The load to ground of a net after an edit that leaves these couplings, in aF.
fn load_left(net: &Net, left: &[Coupling]) -> i128
    requires bounds { IsInBounds net.now }
    requires few { length left.now ≤ most_couplings }
    ensures value { result ≡ net.now.load +ℤ (coupling_sum net.now.couplings -ℤ coupling_sum left.now) }
    ensures low { neg_ℤ (pos (2 ^ 85)) ≤ℤ result }
    ensures high { result ≤ℤ pos (2 ^ 85) }
{
    i128::from(net.load) + coupling_sum(net.couplings.as_slice()) - coupling_sum(left)
}

/// The arcs of a net once more.
fn arcs_of(alloc: Global, net: &Net) -> Result<Row<TimingArc>, AllocError>
    ensures { IfOk result (λ arcs. arcs ≡ net.now.arcs) }
{
    Ok(Row::from_vec(Vec::from_slice(alloc, net.arcs.as_slice())?))
}

/// A net after its couplings to the other net are moved.
pub(crate) fn net_left(
    alloc: Global,
    moving: Move,
    other: NetId,
    net: &Net,
) -> Result<Net, EditFault>
    requires moving { IsMove moving }
    requires bounds { IsInBounds net.now }
    ensures ok { IfOk result (λ n. n ≡ net_left moving other.0 net.now) }
    ensures possible { IfOk result (λ _. IsPossible moving other.0 net.now) }
    ensures few { IfOk result (λ n. length n.couplings ≤ most_couplings) }
    ensures impossible { IfErr result (IsImpossible (IsPossible moving other.0 net.now → ⊥)) }
{
    let before = net.couplings.as_slice();
    if !can_move(moving, other, before) {
        return Err(EditFault::E4);
    }
    let couplings = couplings_left(alloc, moving, other, before)?;
    let load = load_left(net, &couplings);
    if load < 0 {
        return Err(EditFault::E4);
    }
    let name = Name::from_slice(alloc, net.name.bytes())?;
    let given = GivenPair::new(alloc, net.given.pair())?;
    let arcs = arcs_of(alloc, net)?;
    let sinks = sinks_left(alloc, moving, other, before, net.sinks.as_slice())?;
    Ok(Net {
        name,
        input: net.input,
        load: load as i64,
        given,
        couplings: Row::from_vec(couplings),
        sinks: Row::from_vec(sinks),
        arcs,
    })
}

/// The load of a net with every coupling counted twice, in aF.
pub(crate) fn greatest_load(net: &Net) -> i128
    requires { length net.now.couplings ≤ most_couplings }
    ensures { result ≡ greatest_load net.now }
{
    i128::from(net.load) + 2 * coupling_sum(net.couplings.as_slice())
}
