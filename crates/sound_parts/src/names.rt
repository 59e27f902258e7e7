ghost use Rattle.std.specs.Prelude.{◌↔◌, IfOk, IsTrue};
ghost use Rattle.xt_model.specs.Sound.{HasOwnNames};

use std::alloc::{AllocError, Global};
use std::collections::HashSet;
use xt_model::Net;

/// Whether no two nets have the same name.
pub(crate) fn has_own_names(alloc: Global, nets: &[Net]) -> Result<bool, AllocError>
    ensures { IfOk result (λ own. IsTrue own ↔ HasOwnNames nets.now) }
{
    let mut seen = HashSet::new(alloc);
    for net in nets {
        if !seen.insert(net.name.bytes())? {
            return Ok(false);
        }
    }
    Ok(true)
}
