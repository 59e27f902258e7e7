//! The names of nets.

ghost use Rattle.std.specs.Prelude.{◌≡◌, ◌<◌, length, IfOk};
ghost use Rattle.std.specs.List.{slice_get};
ghost use Rattle.std.specs.Option.{IsSomeAnd};
ghost use Rattle.verilog_net.specs.Bits.{bits};
ghost use Rattle.verilog_net.specs.Sound.{IsSoundNetlist};

use link_index::NetIndex;
use std::alloc::{AllocError, Global};
use xt_model::Name;

/// The name of the net of this number.
pub fn net_name<'a>(alloc: Global, nets: &NetIndex<'a>, net: u32) -> Result<Name, AllocError>
    requires there { net < length (bits nets.now.nets) }
    requires sound { IsSoundNetlist nets.now }
    ensures { IfOk result (λ name. IsSomeAnd (slice_get (bits nets.now.nets) net) (λ b. name ≡ b.name)) }
{
    match nets.name(net) {
        Some(name) => Name::from_slice(alloc, name),
        None => unreachable!(),
    }
}
