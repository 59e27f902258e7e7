//! The names of the nets of a loop.

ghost use Rattle.std.specs.Prelude.{◌≡◌, ◌<◌, length, map, None, IfOk};
ghost use Rattle.std.specs.List.{All};
ghost use Rattle.verilog_net.specs.Bits.{bits};
ghost use Rattle.link_rules.specs.Limits.{count_fault};
ghost use Rattle.verilog_net.specs.Sound.{IsSoundNetlist};
ghost use Rattle.design_link.specs.Built.{net_name};

use link_index::NetIndex;
use std::alloc::{AllocError, Global};
use verilog_net::Netlist;
use xt_model::{Name, NetId, Row};

/// The names of the nets of these numbers, by the index of their netlist.
fn names_by<'a>(
    alloc: Global,
    index: &NetIndex<'a>,
    nets: &[NetId],
) -> Result<Row<Name>, AllocError>
    requires { All (λ n. n.0 < length (bits index.now.nets)) nets.now }
    ensures { IfOk result (λ names. names ≡ map (λ n. net_name index.now n.0) nets.now) }
{
    let mut names = Vec::new(alloc);
    for net in nets {
        let Some(name) = index.name(net.0) else {
            unreachable!()
        };
        names.push(Name::from_slice(alloc, name)?)?;
    }
    Ok(Row::from_vec(names))
}

/// The names of the nets of these numbers.
pub fn names_of(alloc: Global, netlist: &Netlist, nets: &[NetId]) -> Result<Row<Name>, AllocError>
    requires sound { IsSoundNetlist netlist.now }
    requires counts { count_fault netlist.now ≡ None }
    requires there { All (λ n. n.0 < length (bits netlist.now.nets)) nets.now }
    ensures { IfOk result (λ names. names ≡ map (λ n. net_name netlist.now n.0) nets.now) }
{
    let index = NetIndex::new(alloc, netlist)?;
    names_by(alloc, &index, nets)
}
