//! Check points where there is no clock.

ghost use Rattle.std.specs.Prelude.{◌≡◌};
ghost use Rattle.link_pins.specs.Answers.{Tests};
ghost use Rattle.link_rules.specs.Refusals.{check_name, unclocked};

use link_rules::{LinkFault, LinkRefusal};
use std::alloc::Global;
use xt_model::{CheckPoint, Name};

/// The name of a check point.
fn name_of(check: &CheckPoint) -> &Name
    ensures { result.now ≡ check_name check.now }
{
    match check {
        CheckPoint::Flop { name, .. } => name,
        CheckPoint::Port { name, .. } => name,
    }
}

/// Refuses the first of some check points, as is right where there is no clock.
pub fn check_unclocked(alloc: Global, checks: &[CheckPoint]) -> Result<(), LinkFault>
    ensures { Tests (unclocked checks.now) result }
{
    match checks {
        [] => Ok(()),
        [first, ..] => Err(LinkFault::Refused(LinkRefusal::K7 {
            check: Name::from_slice(alloc, name_of(first).bytes())?,
        })),
    }
}
