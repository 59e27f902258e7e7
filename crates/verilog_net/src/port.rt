//! Ports by their names.

ghost use Rattle.std.specs.Prelude.{◌≡◌};
ghost use Rattle.verilog_net.specs.Ports.{bits_of, port_of};

use crate::netlist::{Net, Netlist, PortRole};
use crate::nets::named_bit;

/// What a name denotes: the bits of a net from `first` to `last`, each number as the range of a bus has it, and
/// 0 for a net without a range; or nothing. `decl` is the number of the net.
#[derive(Clone, Copy, Debug, PartialEq, Eq)]
pub enum PortFound {
    Absent,
    Bits {
        decl: u32,
        first: u32,
        last: u32,
        role: PortRole,
    },
}

/// The bits of a net: those of a bus, or the one of a port.
fn bits_of(decl: u32, net: Net) -> PortFound
    ensures { result ≡ bits_of decl net }
{
    match (net.range, net.role) {
        (Some((first, last)), role) => PortFound::Bits {
            decl,
            first,
            last,
            role,
        },
        (None, PortRole::Inner) => PortFound::Absent,
        (None, role) => PortFound::Bits {
            decl,
            first: 0,
            last: 0,
            role,
        },
    }
}

impl Netlist {
    /// The port, the bus or the bit of a bus with this name; bit k of a bus `a` has the name `a[k]`. A look-up is by
    /// hash, and takes no memory.
    #[tactic(auto, unfolding(crate::specs::Ports::port_of))]
    pub fn port(&self, name: &[u8]) -> PortFound
        ensures { result ≡ port_of name.now self.now.nets }
    {
        if let Some((decl, net)) = self.nets.find(name) {
            return bits_of(decl, *net);
        }
        match named_bit(&self.nets, name) {
            Some((decl, bit, role)) => PortFound::Bits {
                decl,
                first: bit,
                last: bit,
                role,
            },
            None => PortFound::Absent,
        }
    }
}
