//! A design after an edit.

ghost use Rattle.std.specs.Prelude.{◌≡◌, ◌<◌, ◌≤◌, ◌≤ℤ◌, ◌⊎◌, length, IfOk, IfErr, IfSome, OnOk};
ghost use Rattle.std.specs.List.{slice_get};
ghost use Rattle.xt_model.specs.Limits.{most_cap, most_couplings};
ghost use Rattle.xt_model.specs.Sound.{greatest_load};
ghost use Rattle.eco_warm.specs.Edits.{change_of, edited, first_of, move_of, net_left, pairs_left, second_of};
ghost use Rattle.eco_warm.specs.Possible.{IsAllowed, IsEditOf, IsImpossible, IsLoadOf, IsMove, IsPossible, IsRefusalOf};
ghost use Rattle.eco_warm.specs.Starts.{IsAfterEdit};

use crate::copy::copied;
use crate::edit::{Change, Edit, EditFault, Edited, Move};
use crate::net::{greatest_load, net_left};
use std::alloc::Global;
use xt_model::limits::MOST_CAP;
use xt_model::{Design, DesignParts, Miller, Net, NetId, Row};

impl Edit {
    /// The two nets.
    pub fn nets(&self) -> (NetId, NetId)
        ensures first { result.0.0 ≡ first_of self.now }
        ensures second { result.1.0 ≡ second_of self.now }
    {
        match self {
            Edit::Shield { a, b } => (*a, *b),
            Edit::Apart { a, b, by: _ } => (*a, *b),
            Edit::Near { a, b, by: _ } => (*a, *b),
        }
    }

    /// What it moves.
    fn moving(&self) -> Move
        ensures { result ≡ move_of self.now }
    {
        match self {
            Edit::Shield { a: _, b: _ } => Move::Whole,
            Edit::Apart { a: _, b: _, by } => Move::ToGround(*by),
            Edit::Near { a: _, b: _, by } => Move::FromGround(*by),
        }
    }

    /// How it moves the windows of a design with these Miller numbers.
    fn change(&self, miller: Miller) -> Change
        ensures { result ≡ change_of miller self.now }
    {
        if miller.mid() != 4 {
            return Change::Neither;
        }
        match self {
            Edit::Near { .. } => Change::Grows,
            _ => Change::Shrinks,
        }
    }
}

/// A net of a design after its couplings to the other net are moved.
fn net_after(
    alloc: Global,
    design: &Design,
    moving: Move,
    net: NetId,
    other: NetId,
) -> Result<Net, EditFault>
    requires moving { IsMove moving }
    requires net { net.0 < length design.now.nets }
    ensures ok { IfOk result (λ n. IfSome (slice_get design.now.nets net.0) (λ old. n ≡ net_left moving other.0 old)) }
    ensures few { IfOk result (λ n. length n.couplings ≤ most_couplings) }
    ensures possible { IfOk result (λ _. IfSome (slice_get design.now.nets net.0) (IsPossible moving other.0)) }
    ensures impossible { IfErr result (IsImpossible
        (IfSome (slice_get design.now.nets net.0) (IsPossible moving other.0) → ⊥)) }
{
    net_left(alloc, moving, other, design.net(net.0 as usize))
}

/// Refuses a net whose load is past 2^46 aF with every coupling counted twice.
fn check_load(net: NetId, after: &Net) -> Result<(), EditFault>
    requires { length after.now.couplings ≤ most_couplings }
    ensures kept { OnOk result (greatest_load after.now ≤ℤ most_cap) }
    ensures heavy { IfErr result (IsLoadOf net.0 after.now) }
{
    let load = greatest_load(after);
    if load > i128::from(MOST_CAP) {
        return Err(EditFault::Load {
            net,
            value: load as u128,
        });
    }
    Ok(())
}

/// Refuses two nets of which one has a load past 2^46 aF with every coupling counted twice, the first before the
/// second.
fn check_loads(a: NetId, first: &Net, b: NetId, second: &Net) -> Result<(), EditFault>
    requires first { length first.now.couplings ≤ most_couplings }
    requires second { length second.now.couplings ≤ most_couplings }
    ensures first { OnOk result (greatest_load first.now ≤ℤ most_cap) }
    ensures second { OnOk result (greatest_load second.now ≤ℤ most_cap) }
    ensures heavy { IfErr result (λ e. IsLoadOf a.0 first.now e
        ⊎ ((greatest_load first.now ≤ℤ most_cap) × IsLoadOf b.0 second.now e)) }
{
    check_load(a, first)?;
    check_load(b, second)
}

/// The two nets of an edit after it, or why the design does not allow it: first `E4` of both nets, then the load of
/// the first net, then that of the second.
pub fn nets_after(alloc: Global, design: &Design, edit: &Edit) -> Result<(Net, Net), EditFault>
    requires { IsEditOf design.now.nets edit.now }
    ensures first { IfOk result (λ p. IfSome (slice_get design.now.nets (first_of edit.now))
        (λ old. p.0 ≡ net_left (move_of edit.now) (second_of edit.now) old)) }
    ensures second { IfOk result (λ p. IfSome (slice_get design.now.nets (second_of edit.now))
        (λ old. p.1 ≡ net_left (move_of edit.now) (first_of edit.now) old)) }
    ensures allowed { IfOk result (λ _. IsAllowed edit.now design.now.nets) }
    ensures refusal { IfErr result (IsRefusalOf edit.now design.now.nets) }
{
    let (a, b) = edit.nets();
    let moving = edit.moving();
    let first = net_after(alloc, design, moving, a, b)?;
    let second = net_after(alloc, design, moving, b, a)?;
    check_loads(a, &first, b, &second)?;
    Ok((first, second))
}

/// How many pairs of nets are coupled after an edit between two coupled nets, of this many.
fn pairs_after(moving: Move, pairs: u64) -> u64
    requires { 0 < pairs }
    ensures { result ≡ pairs_left moving pairs }
{
    match moving {
        Move::Whole => pairs - 1,
        _ => pairs,
    }
}

/// The design with both nets of an edit as they are after it. Its levels stay as they are, and a shield leaves one pair
/// of coupled nets fewer.
fn replaced(design: Design, edit: &Edit, first: Net, second: Net) -> Design
    requires between { IsEditOf design.nets edit.now }
    requires first { IfSome (slice_get design.nets (first_of edit.now))
        (λ old. first ≡ net_left (move_of edit.now) (second_of edit.now) old) }
    requires second { IfSome (slice_get design.nets (second_of edit.now))
        (λ old. second ≡ net_left (move_of edit.now) (first_of edit.now) old) }
    requires allowed { IsAllowed edit.now design.nets }
    ensures { result ≡ edited edit.now design }
{
    let (a, b) = edit.nets();
    let (parts, order, pairs) = design.into_parts();
    let DesignParts {
        period,
        tables,
        nets,
        checks,
        miller,
    } = parts;
    let mut nets = nets.into_vec();
    nets[a.0 as usize] = first;
    nets[b.0 as usize] = second;
    let parts = DesignParts {
        period,
        tables,
        nets: Row::from_vec(nets),
        checks,
        miller,
    };
    Design::from_order(parts, order, pairs_after(edit.moving(), pairs))
}

/// The design after an edit of which both nets are made already, and how the edit moves its windows. The two nets take
/// their places, and all else stays in its own.
pub fn design_after(design: Design, edit: &Edit, first: Net, second: Net) -> Edited
    requires between { IsEditOf design.nets edit.now }
    requires first { IfSome (slice_get design.nets (first_of edit.now))
        (λ old. first ≡ net_left (move_of edit.now) (second_of edit.now) old) }
    requires second { IfSome (slice_get design.nets (second_of edit.now))
        (λ old. second ≡ net_left (move_of edit.now) (first_of edit.now) old) }
    requires allowed { IsAllowed edit.now design.nets }
    ensures design { result.design ≡ edited edit.now design }
    ensures change { result.change ≡ change_of design.miller edit.now }
    ensures after { IsAfterEdit design result.design result.change }
{
    let change = edit.change(design.miller());
    let design = replaced(design, edit, first, second);
    Edited { design, change }
}

/// `apply`, of a design that is no longer wanted: its two nets are made anew, and all else stays in its place.
pub fn edit_design(alloc: Global, design: Design, edit: &Edit) -> Result<Edited, EditFault>
    requires { IsEditOf design.nets edit.now }
    ensures design { IfOk result (λ x. x.design ≡ edited edit.now design) }
    ensures change { IfOk result (λ x. x.change ≡ change_of design.miller edit.now) }
    ensures after { IfOk result (λ x. IsAfterEdit design x.design x.change) }
    ensures allowed { IfOk result (λ _. IsAllowed edit.now design.nets) }
    ensures refusal { IfErr result (IsRefusalOf edit.now design.nets) }
{
    let (first, second) = nets_after(alloc, &design, edit)?;
    Ok(design_after(design, edit, first, second))
}

/// The design after an edit, and how the edit moves its windows; or why the design does not allow it: first `E4` of
/// both nets, then the load of the first net, then that of the second. The edit is made on a copy.
pub fn apply(alloc: Global, design: &Design, edit: &Edit) -> Result<Edited, EditFault>
    requires { IsEditOf design.now.nets edit.now }
    ensures design { IfOk result (λ x. x.design ≡ edited edit.now design.now) }
    ensures change { IfOk result (λ x. x.change ≡ change_of design.now.miller edit.now) }
    ensures after { IfOk result (λ x. IsAfterEdit design.now x.design x.change) }
    ensures allowed { IfOk result (λ _. IsAllowed edit.now design.now.nets) }
    ensures refusal { IfErr result (IsRefusalOf edit.now design.now.nets) }
{
    edit_design(alloc, copied(alloc, design)?, edit)
}
