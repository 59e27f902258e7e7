//! Looks that evaluate only nets of which the last round moved something that decides them.

ghost use Rattle.std.specs.Prelude.{◌≡◌, ◌↔◌, ℕ, ◌+◌, ◌<◌, ◌≤◌, false, length, IfSome, IsTrue};
ghost use Rattle.std.specs.List.{All, slice_get, slice_index_or};
ghost use Rattle.xt_model.specs.declared.edge.Edge.{Edge};
ghost use Rattle.xt_model.specs.Assign.{assigned};
ghost use Rattle.xt_model.specs.Sound.{IsSound};
ghost use Rattle.xt_meaning.specs.Operator.{step};
ghost use Rattle.xt_meaning.specs.Barrier.{IsWithinEnvelope};
ghost use Rattle.xt_meaning.specs.Fixpoint.{IsWindows};
ghost use Rattle.xt_meaning.specs.Reads.{HoldsOfReads};
ghost use Rattle.table_box.specs.Groups.{AreGroups};
ghost use Rattle.net_eval.specs.Closing.{IsSteadyAt};
ghost use Rattle.chaos_core.specs.Alike.{AreDecidedAlike};
ghost use Rattle.chaos_core.specs.Looks.{AreAlike, AreDecided, AreUnmoved, IsLook};
ghost use Rattle.chaos_core.specs.Spared.{IsInputAlike};

use crate::alike::{Twice, TwoTimes, is_input_alike, is_own_alike};
use net_eval::closed_part_grouped;
use xt_model::{Design, NetId, Windows};

/// Marks each net whose windows are the same before and after a round, and no other.
fn mark_unmoved(marks: &mut [bool], before: &Windows, after: &Windows)
    requires marks { length marks.old ≡ length before.now }
    requires count { length after.now ≡ length before.now }
    ensures { AreUnmoved before.now after.now marks.new }
{
    for net in 0..marks.len() {
        marks[net] = before.pair(net).same(&after.pair(net));
    }
}

/// The windows of all nets before and after a round, and a mark for each net that the round did not move.
#[derive(Drop)]
struct TwoWindows<'a> {
    before: &'a Windows,
    after: &'a Windows,
    unmoved: &'a [bool],
    ghost count: { length after.now ≡ length before.now },
    ghost same: { AreUnmoved before.now after.now unmoved.now },
}

impl<'a> TwoTimes for TwoWindows<'a> {
    ghost has = { λ two net. net < length two.before.now };

    ghost earlier = { λ two. assigned two.before.now };

    ghost later = { λ two. assigned two.after.now };

    fn is_still(&self, net: NetId) -> bool {
        self.unmoved[net.0 as usize]
    }

    fn twice(&self, net: NetId) -> Twice {
        Twice {
            before: self.before.pair(net.0 as usize),
            after: self.after.pair(net.0 as usize),
        }
    }
}

/// Whether the windows of a net are the same before and after a round, and the overlap answers at its couplings, where
/// `unmoved` has a mark for each net that the round did not move, and for no other.
pub fn is_alike(
    design: &Design,
    before: &Windows,
    after: &Windows,
    unmoved: &[bool],
    net: usize,
) -> bool
    requires sound { IsSound design.now }
    requires before { length before.now ≡ length design.now.nets }
    requires after { length after.now ≡ length design.now.nets }
    requires unmoved { AreUnmoved before.now after.now unmoved.now }
    requires there { net < length design.now.nets }
    ensures { IsTrue result → IsInputAlike design.now (assigned before.now) (assigned after.now) net }
{
    let two = TwoWindows {
        before,
        after,
        unmoved,
    };
    is_input_alike(&two, design, NetId(net as u32), None)
}

/// Whether all inputs of a net are marked.
fn are_inputs_marked(marks: &[bool], design: &Design, net: usize) -> bool
    requires there { net < length design.now.nets }
    requires read { HoldsOfReads (λ m. m < length marks.now) design.now net }
    ensures { IsTrue result → IfSome (slice_get design.now.nets net)
        (λ own. All (λ arc. IsTrue (slice_index_or marks.now arc.from.0 false)) own.arcs) }
{
    let own = design.net(net);
    for arc in own.arcs.as_slice() {
        if !marks[arc.from.0 as usize] {
            return false;
        }
    }
    true
}

/// Whether what decides a net is the same before and after a round: its inputs' windows, and the overlap answers at its
/// own couplings and at those of its inputs. Of each net that is marked in `alike` it is known that its windows are the
/// same and the overlap answers at its couplings; windows are looked at only where the net is not marked and its inputs
/// are.
pub fn is_decided(
    design: &Design,
    before: &Windows,
    after: &Windows,
    alike: &[bool],
    net: usize,
) -> bool
    requires sound { IsSound design.now }
    requires before { length before.now ≡ length design.now.nets }
    requires after { length after.now ≡ length design.now.nets }
    requires count { length alike.now ≡ length design.now.nets }
    requires alike { AreAlike design.now before.now after.now alike.now }
    requires there { net < length design.now.nets }
    ensures { IsTrue result → AreDecidedAlike design.now (assigned before.now) (assigned after.now) net }
{
    if !are_inputs_marked(alike, design, net) {
        return false;
    }
    if alike[net] {
        return true;
    }
    let two = TwoWindows {
        before,
        after,
        unmoved: alike,
    };
    is_own_alike(&two, design, NetId(net as u32))
}

/// Marks each net that a round did not move, and of which the overlap answers at its couplings are the same before and
/// after it, and no other.
fn mark_alike(
    design: &Design,
    before: &Windows,
    after: &Windows,
    unmoved: &[bool],
    marks: &mut [bool],
)
    requires sound { IsSound design.now }
    requires before { length before.now ≡ length design.now.nets }
    requires after { length after.now ≡ length design.now.nets }
    requires unmoved { AreUnmoved before.now after.now unmoved.now }
    requires marks { length marks.old ≡ length design.now.nets }
    ensures count { length marks.new ≡ length design.now.nets }
    ensures alike { AreAlike design.now before.now after.now marks.new }
{
    for net in 0..marks.len() {
        marks[net] = is_alike(design, before, after, unmoved, net);
    }
}

/// Marks each net of which what decides it is the same before and after a round, and no other: its inputs' windows, and
/// the overlap answers at its own couplings and at those of its inputs. The answers of a net are asked for it, not for
/// each of its readers. `unmoved` has a mark for each net that the round did not move, and for no other; it is left
/// with other marks.
pub(crate) fn mark_decided(
    design: &Design,
    unmoved: &mut [bool],
    before: &Windows,
    after: &Windows,
    marks: &mut [bool],
)
    requires sound { IsSound design.now }
    requires unmoved { AreUnmoved before.now after.now unmoved.old }
    requires before { length before.now ≡ length design.now.nets }
    requires after { length after.now ≡ length design.now.nets }
    requires marks { length marks.old ≡ length design.now.nets }
    ensures unmoved { length unmoved.new ≡ length unmoved.old }
    ensures decided { AreDecided design.now before.now after.now marks.new }
{
    mark_alike(design, before, after, unmoved, marks);
    for net in 0..unmoved.len() {
        unmoved[net] = is_decided(design, before, after, marks, net);
    }
    marks.copy_from_slice(unmoved);
}

/// Whether the operator gives the windows of a net back. It evaluates no net that is marked.
fn is_steady(
    design: &Design,
    groups: &[usize],
    marks: &[bool],
    windows: &Windows,
    net: u32,
    next: u32,
) -> bool
    requires groups { AreGroups design.now.tables groups.now }
    requires look { IsLook design.now windows.now marks.now }
    requires within { IsWithinEnvelope design.now windows.now }
    requires net { net < length design.now.nets }
    requires next { next ≡ net + 1 }
    ensures { IsTrue result ↔ IsSteadyAt design.now windows.now net }
{
    if marks[net as usize] {
        return true;
    }
    closed_part_grouped(design, groups, windows, net, next)
}

/// Whether the operator gives windows back at each net from number `from` to before number `to`, where it does so at
/// each net that is marked, and where groups of the design's tables are known, as `table_groups` finds them. Evaluates
/// none of the nets that are marked. It looks from the last of these nets down, since what a round left unsteady is
/// mostly far from the inputs.
pub fn closed_where_grouped(
    design: &Design,
    groups: &[usize],
    marks: &[bool],
    windows: &Windows,
    from: u32,
    to: u32,
) -> bool
    requires groups { AreGroups design.now.tables groups.now }
    requires look { IsLook design.now windows.now marks.now }
    requires within { IsWithinEnvelope design.now windows.now }
    requires order { from ≤ to }
    requires end { to ≤ length design.now.nets }
    ensures { IsTrue result ↔ ((n : ℕ) → from ≤ n → n < to → IsSteadyAt design.now windows.now n) }
{
    for step in from..to {
        let net = to - 1 - (step - from);
        if !is_steady(design, groups, marks, windows, net, net + 1) {
            return false;
        }
    }
    true
}

/// Whether the operator gives the windows after a round back at every net, where it does so at each net of which what
/// decides it is the same before and after. There are two marks for each net, whatever they are. Takes no memory.
pub(crate) fn closed_after(
    design: &Design,
    groups: &[usize],
    unmoved: &mut [bool],
    marks: &mut [bool],
    before: &Windows,
    after: &Windows,
) -> bool
    requires sound { IsSound design.now }
    requires groups { AreGroups design.now.tables groups.now }
    requires unmoved { length unmoved.old ≡ length design.now.nets }
    requires marks { length marks.old ≡ length design.now.nets }
    requires before { length before.now ≡ length design.now.nets }
    requires after { IsWindows design.now after.now }
    requires within { IsWithinEnvelope design.now after.now }
    requires kept { (net : ℕ) → AreDecidedAlike design.now (assigned before.now) (assigned after.now) net
        → IsSteadyAt design.now after.now net }
    ensures closed { IsTrue result
        ↔ ((net : ℕ) (e : Edge) → step design.now after.now net e ≡ assigned after.now net e) }
    ensures unmoved { length unmoved.new ≡ length unmoved.old }
    ensures marks { length marks.new ≡ length marks.old }
{
    mark_unmoved(unmoved, before, after);
    mark_decided(design, unmoved, before, after, marks);
    closed_where_grouped(design, groups, marks, after, 0, design.nets().len() as u32)
}
