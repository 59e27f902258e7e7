//! Designs by other Miller numbers than their own.

ghost use Rattle.std.specs.Prelude.{◌≡◌};
ghost use Rattle.xt_model.specs.Levels.{AreLevelled};
ghost use Rattle.xt_model.specs.Sound.{IsSound};
ghost use Rattle.call_meaning.specs.Outcome.{counted_by};

use xt_model::{Design, Miller};

/// The design whose couplings count by these Miller numbers, where there are any, in place of its own.
pub fn counted_by(design: Design, miller: Option<Miller>) -> Design
    requires sound { IsSound design }
    requires levelled { AreLevelled design.nets }
    ensures value { result ≡ counted_by miller design }
    ensures sound { IsSound result }
    ensures levelled { AreLevelled result.nets }
{
    match miller {
        Some(miller) => design.with_miller(miller),
        None => design,
    }
}
