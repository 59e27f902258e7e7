//! The envelope of a design of which two nets changed.

ghost use Rattle.std.specs.Prelude.{◌≡◌, ◌<◌, true, false, ◌&&◌, List, length, get_or, IfOk, IfErr};
ghost use Rattle.std.specs.List.{list_all};
ghost use Rattle.xt_model.specs.declared.quad.Pair.{Pair};
ghost use Rattle.xt_model.specs.Assign.{assigned};
ghost use Rattle.xt_meaning.specs.Operator.{step};
ghost use Rattle.xt_meaning.specs.Fixpoint.{IsContained};
ghost use Rattle.xt_meaning.specs.Envelope.{IsEnvelope, IsAccepted};
ghost use Rattle.envelope.specs.Firsts.{IsFaultOfEnvelope};
ghost use Rattle.envelope.specs.Renewal.{IsEnvelopeBut};

use crate::fault::EnvelopeFault;
use crate::limits::test_pair;
use net_eval::eval_widest;
use std::alloc::{AllocError, Global};
use xt_model::{Design, NetId, TimingArc, Windows};

/// A flag for each of this many nets, which says that the net is as before: not so for two of them.
fn kept_but(
    alloc: Global,
    count: usize,
    first: NetId,
    second: NetId,
) -> Result<Vec<bool>, AllocError>
    requires first { first.0 < count }
    requires second { second.0 < count }
    ensures count { IfOk result (λ kept. length kept.items ≡ count) }
    ensures first { IfOk result (λ kept. get_or kept.items first.0 true ≡ false) }
    ensures second { IfOk result (λ kept. get_or kept.items second.0 true ≡ false) }
{
    let mut kept = vec![in alloc; true; count]?;
    kept[first.0 as usize] = false;
    kept[second.0 as usize] = false;
    Ok(kept)
}

/// Whether a net is as before.
fn is_kept(kept: &[bool], net: NetId) -> bool
    ensures { result ≡ get_or kept.now net.0 true }
{
    match kept.get(net.0 as usize) {
        Some(flag) => *flag,
        None => true,
    }
}

/// Whether all nets are as before from which these arcs come.
fn are_kept(kept: &[bool], arcs: &[TimingArc]) -> bool
    ensures { result ≡ list_all (λ a. get_or kept.now a.from.0 true) arcs.now }
{
    arcs.iter().all(|arc| is_kept(kept, arc.from))
}

/// Whether a net with these arcs is as before, and so are all the nets from which its arcs come.
fn is_steady(kept: &[bool], net: NetId, arcs: &[TimingArc]) -> bool
    ensures { result ≡ (get_or kept.now net.0 true && list_all (λ a. get_or kept.now a.from.0 true) arcs.now) }
{
    is_kept(kept, net) && are_kept(kept, arcs)
}

/// The envelope of a design, or the first limit that it passes: `envelope`, from windows that are the envelope but for
/// two nets and those that read them, as those of a design are of which two nets changed. With the nets in order, only
/// those are evaluated that changed, or that read one that changed or whose windows did.
pub fn renewed(
    alloc: Global,
    design: &Design,
    old: Windows,
    first: NetId,
    second: NetId,
) -> Result<Windows, EnvelopeFault>
    requires first { first.0 < length design.now.nets }
    requires second { second.0 < length design.now.nets }
    requires old { IsEnvelopeBut design.now first.0 second.0 old }
    ensures envelope { IfOk result (IsEnvelope design.now) }
    ensures accepted { IfOk result (IsAccepted design.now) }
    ensures contains { IfOk
        result
        (λ top. (v : List Pair)
        → IsContained (assigned v) (step design.now v)
        → IsContained (assigned v) (assigned top)) }
    ensures limit { IfErr result (IsFaultOfEnvelope design.now) }
{
    let mut windows = old;
    let mut kept = kept_but(alloc, design.nets().len(), first, second)?;
    for net in design.order() {
        let number = *net as usize;
        let arcs = design.net(number).arcs.as_slice();
        if is_steady(&kept, NetId(*net), arcs) {
            continue;
        }
        let pair = eval_widest(design, NetId(*net), &windows);
        test_pair(design, &windows, NetId(*net), &pair)?;
        if !pair.same(&windows.pair(number)) {
            kept[number] = false;
            windows.set(number, pair);
        }
    }
    Ok(windows)
}
