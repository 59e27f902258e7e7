ghost use Rattle.std.specs.Prelude.{◌↔◌, IfOk, IsTrue};
ghost use Rattle.xt_model.specs.Miller.{IsMiller};
ghost use Rattle.xt_model.specs.Sound.{IsPeriod, IsSound, IsWithinLimits};
ghost use Rattle.xt_model.specs.Tables.{IsTable};
ghost use Rattle.sound_parts.specs.Items.{HasSoundItems, HasSoundNets, IsSoundButForNames};

use crate::check::is_sound_check;
use crate::limits::is_within_limits;
use crate::names::has_own_names;
use crate::net::is_sound_net;
use crate::range::is_between;
use std::alloc::{AllocError, Global};
use xt_model::limits::MOST_PERIOD;
use xt_model::{DesignParts, Miller, Table};

/// Whether the table is one, which its type sees to.
fn is_table(table: &Table) -> bool
    ensures { IsTrue result ↔ IsTable table.now }
{
    !table.slews().is_empty()
}

/// Whether the clock period in fs is 1 to 2^40, where there is one, and there where a check is.
fn is_period(parts: &DesignParts) -> bool
    ensures { IsTrue result ↔ IsPeriod parts.now }
{
    match parts.period {
        Some(period) => is_between(1, MOST_PERIOD, period),
        None => parts.checks.len() == 0,
    }
}

/// Whether the Miller numbers rise, which their type sees to.
fn is_miller(miller: &Miller) -> bool
    ensures { IsTrue result ↔ IsMiller miller.now }
{
    miller.low() <= miller.high()
}

/// Whether each net is sound under its number.
fn has_sound_nets(parts: &DesignParts) -> bool
    ensures { IsTrue result ↔ HasSoundNets parts.now }
{
    for (number, net) in parts.nets.as_slice().iter().enumerate() {
        if !is_sound_net(parts, number, net) {
            return false;
        }
    }
    true
}

/// Whether each table, net and check is sound by itself.
fn has_sound_items(parts: &DesignParts) -> bool
    ensures { IsTrue result ↔ HasSoundItems parts.now }
{
    parts.tables.as_slice().iter().all(|table| is_table(table))
        && has_sound_nets(parts)
        && parts
            .checks
            .as_slice()
            .iter()
            .all(|check| is_sound_check(parts, check))
}

/// Whether the parts of a design are sound, if names of nets differ.
fn is_sound_but_for_names(parts: &DesignParts) -> bool
    ensures { IsTrue result ↔ IsSoundButForNames parts.now }
{
    is_within_limits(parts)
        && is_period(parts)
        && is_miller(&parts.miller)
        && has_sound_items(parts)
}

/// Whether the parts make a sound design: nothing that they refer to is missing, no quantity is out of
/// range, no two nets share a name, and the limits on size are kept. The period is in fs. Takes memory
/// only for a set of the names.
pub fn is_sound(alloc: Global, parts: &DesignParts) -> Result<bool, AllocError>
    ensures { IfOk result (λ sound. IsTrue sound ↔ IsSound parts.now) }
{
    if !is_sound_but_for_names(parts) {
        return Ok(false);
    }
    has_own_names(alloc, parts.nets.as_slice())
}
