//! What constraints say of the ports.

ghost use Rattle.std.specs.Prelude.{◌≡◌, ℤ, List};
ghost use Rattle.sdc_read.specs.declared.ports.PortSet.{PortSet as SetOfPort};
ghost use Rattle.sdc_read.specs.Ports.{port_at};
ghost use Rattle.link_rules.specs.Circuit.{load_in};

use crate::bits::BitAt;
use sdc_read::Constraints;

/// The load of an output port in aF, 0 where none is set.
pub fn port_load(constraints: &Constraints, bit: BitAt) -> i64
    ensures { result ≡ load_in (port_at bit.decl bit.bit constraints.now.ports) }
{
    match constraints.ports.find(bit.decl, bit.bit) {
        Some(set) => set.load,
        None => 0,
    }
}
