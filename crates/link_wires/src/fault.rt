//! What is refused at the wire of a net.

ghost use Rattle.std.specs.Prelude.{◌≡◌, Some, IfOk};
ghost use Rattle.link_rules.specs.declared.fault.LinkFault.TheVariants as faults;
ghost use Rattle.link_rules.specs.Limits.{passed};
ghost use Rattle.link_wires.specs.WireFaults.{IsThere, IsLinkFaultOf, limit_by};

use crate::nodes::Nodes;
use elmore_tree::TreeFault;
use link_rules::{LinkFault, LinkRefusal};
use std::alloc::{AllocError, Global};
use xt_model::limits::{MOST_CAP, MOST_NODES};
use xt_model::{LimitKind, Name};

/// The limit that a net passes, where the value is more than the most.
fn passed(
    alloc: Global,
    what: LimitKind,
    net: &Name,
    value: u128,
    most: u128,
) -> Result<Option<LinkFault>, AllocError>
    ensures { IfOk result (λ f. f ≡ passed what (Some net.now) value most) }
{
    if value <= most {
        return Ok(None);
    }
    Ok(Some(LinkFault::Limit {
        what,
        name: Some(Name::from_slice(alloc, net.bytes())?),
        value,
    }))
}

/// The limit that a net passes: of its nodes, where its wire is listed, then of its load.
pub fn limit_of(
    alloc: Global,
    net: &Name,
    listed: bool,
    nodes: u32,
    load: u128,
) -> Result<Option<LinkFault>, AllocError>
    ensures { IfOk result (λ f. f ≡ limit_by listed net.now nodes load) }
{
    if listed {
        if let Some(fault) = passed(
            alloc,
            LimitKind::Nodes,
            net,
            u128::from(nodes),
            MOST_NODES as u128,
        )? {
            return Ok(Some(fault));
        }
    }
    passed(alloc, LimitKind::Load, net, load, MOST_CAP as u128)
}

/// The refusal of a net whose tree has a fault.
pub fn refusal_of(
    alloc: Global,
    net: &Name,
    nodes: &Nodes<'_>,
    fault: TreeFault,
) -> Result<LinkFault, AllocError>
    requires { IsThere nodes.now.list fault }
    ensures { IfOk result (IsLinkFaultOf net.now nodes.now.list fault) }
{
    match fault {
        TreeFault::NotTree => Ok(LinkFault::Refused(LinkRefusal::K5 {
            net: Name::from_slice(alloc, net.bytes())?,
        })),
        TreeFault::NotReached(node) => {
            let node = Name::new(nodes.name(node).to_vec(alloc)?);
            Ok(LinkFault::Refused(LinkRefusal::K6 {
                net: Name::from_slice(alloc, net.bytes())?,
                node,
            }))
        }
        TreeFault::NoMemory => Ok(LinkFault::NoMemory),
    }
}
