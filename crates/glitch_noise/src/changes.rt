//! The changes of the share of a net over time.

ghost use Rattle.std.specs.Prelude.{◌≡◌, ◌++◌, ◌<◌, ◌-◌, ◌^◌, length, [], ◌∷◌, OnOk};
ghost use Rattle.std.specs.Prelude.{pos, ◌-ℤ◌, ◌≤ℤ◌, int_le};
ghost use Rattle.std.specs.Int.{int_rem_euclid};
ghost use Rattle.std.specs.List.{All};
ghost use Rattle.xt_model.specs.Assign.{assigned};
ghost use Rattle.xt_model.specs.Quads.{IsInRange};
ghost use Rattle.xt_model.specs.Sound.{IsCap};
ghost use Rattle.xt_meaning.specs.Overlap.{IsRealPeriod};
ghost use Rattle.glitch_noise.specs.Changes.{change, until_end, in_period, periodic_changes, range_changes};
ghost use Rattle.glitch_noise.specs.Changes.{window_changes, changes_of};

use crate::change::Change;
use crate::shares::window_at;
use miller_bits::{active_from, active_to};
use std::alloc::AllocError;
use xt_model::{Design, Edge, Net, Quad, Windows};

/// Appends a change.
fn push(changes: &mut Vec<Change>, at: i64, by: i64) -> Result<(), AllocError>
    ensures { OnOk result (changes.new.items ≡ changes.old.items ++ change at by ∷ []) }
{
    changes.push(Change { at, by })?;
    Ok(())
}

/// Appends the changes of a capacitance that counts from one moment until before another.
fn push_until(changes: &mut Vec<Change>, from: i64, end: i64, cap: i64) -> Result<(), AllocError>
    requires { IsCap cap }
    ensures { OnOk result (changes.new.items ≡ changes.old.items ++ until_end from end cap) }
{
    push(changes, from, cap)?;
    push(changes, end, -cap)
}

/// The same with both moments in one period; an end that is not after the start is meant in the next one.
fn push_in_period(
    changes: &mut Vec<Change>,
    from: i64,
    end: i64,
    cap: i64,
) -> Result<(), AllocError>
    requires { IsCap cap }
    ensures { OnOk result (changes.new.items ≡ changes.old.items ++ in_period from end cap) }
{
    if from < end {
        return push_until(changes, from, end, cap);
    }
    push(changes, 0, cap)?;
    push(changes, end, -cap)?;
    push(changes, from, cap)
}

/// Whether the time in fs from one moment to another is a period or more.
fn is_whole(period: i64, from: i64, end: i64) -> bool
    ensures { result ≡ int_le period (end -ℤ from) }
{
    i128::from(period) <= i128::from(end) - i128::from(from)
}

/// The moment of the first period from 0 on that is some whole number of periods away.
fn in_first(period: i64, moment: i64) -> i64
    requires { pos 1 ≤ℤ period }
    ensures { result ≡ int_rem_euclid moment period }
{
    moment.rem_euclid(period)
}

/// Appends the changes of a capacitance that counts from one moment until before another, and again in every period.
fn push_periodic(
    changes: &mut Vec<Change>,
    period: i64,
    from: i64,
    end: i64,
    cap: i64,
) -> Result<(), AllocError>
    requires period { pos 1 ≤ℤ period }
    requires cap { IsCap cap }
    ensures { OnOk result (changes.new.items ≡ changes.old.items ++ periodic_changes period from end cap) }
{
    if is_whole(period, from, end) {
        return push(changes, 0, cap);
    }
    push_in_period(changes, in_first(period, from), in_first(period, end), cap)
}

/// Appends the changes of a capacitance that counts from one moment to another, both included, and with a period again
/// in every period.
fn push_range(
    changes: &mut Vec<Change>,
    period: Option<i64>,
    from: i64,
    to: i64,
    cap: i64,
) -> Result<(), AllocError>
    requires period { IsRealPeriod period }
    requires room { to ≤ℤ pos (2 ^ 63 - 2) }
    requires cap { IsCap cap }
    ensures { OnOk result (changes.new.items ≡ changes.old.items ++ range_changes period from to cap) }
{
    match period {
        None => push_until(changes, from, to + 1, cap),
        Some(period) => push_periodic(changes, period, from, to + 1, cap),
    }
}

/// Appends the changes of a capacitance that counts while a transition of the window can be under way.
fn push_window(
    changes: &mut Vec<Change>,
    period: Option<i64>,
    window: &Quad,
    cap: i64,
) -> Result<(), AllocError>
    requires period { IsRealPeriod period }
    requires range { IsInRange window.now }
    requires cap { IsCap cap }
    ensures { OnOk result (changes.new.items ≡ changes.old.items ++ window_changes period window.now cap) }
{
    let from = active_from(window);
    let to = active_to(window);
    if window.live() && from <= to {
        push_range(changes, period, from, to, cap)?;
    }
    Ok(())
}

/// Fills in the changes of the share of a net for one edge of its aggressors, in place of what was there.
pub(crate) fn fill(
    changes: &mut Vec<Change>,
    design: &Design,
    high: &Windows,
    net: &Net,
    edge: Edge,
) -> Result<(), AllocError>
    requires count { length high.now ≡ length design.now.nets }
    requires couplings { All (λ k. (k.to.0 < length design.now.nets) × IsCap k.cap) net.now.couplings }
    ensures { OnOk result
        (changes.new.items ≡ changes_of design.now.period (assigned high.now) edge net.now.couplings) }
{
    changes.clear();
    for coupling in net.couplings.as_slice() {
        let window = window_at(high, coupling.to, edge);
        push_window(changes, design.period(), &window, coupling.cap)?;
    }
    Ok(())
}
