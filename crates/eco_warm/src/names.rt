//! The nets that a line of a text of edits names.

ghost use Rattle.std.specs.Prelude.{◌≡◌, ◌==◌, ◌<◌, length, position, IfErr, IfSome};
ghost use Rattle.std.specs.List.{list_any, slice_get};
ghost use Rattle.std.specs.Str.{bytes_eq};
ghost use Rattle.linked_text.specs.Fields.{Finds};
ghost use Rattle.eco_warm.specs.Reading.{IsLineFault, Reads, has_coupling, net_named, nets_in};

use crate::edit::EditFault;
use xt_model::{Coupling, Design, Net, NetId};

/// The place of the net of this name.
fn place_of(nets: &[Net], name: &[u8]) -> Option<usize>
    ensures value { result ≡ position (λ n. bytes_eq n.name name.now) nets.now }
    ensures within { IfSome result (λ i. i < length nets.now) }
{
    nets.iter().position(|net| net.name.bytes() == name)
}

/// The number of the net of this name.
fn net_named(design: &Design, name: &[u8]) -> Option<NetId>
    ensures value { Finds (λ n. n.0) result (net_named design.now.nets name.now) }
    ensures within { IfSome result (λ n. n.0 < length design.now.nets) }
{
    let number = place_of(design.nets(), name)?;
    Some(NetId(number as u32))
}

/// Whether one of the couplings leads to this net.
fn leads_to(couplings: &[Coupling], to: NetId) -> bool
    ensures { result ≡ list_any (λ k. k.to.0 == to.0) couplings.now }
{
    couplings.iter().any(|k| k.to.0 == to.0)
}

/// Whether a net has a coupling to another.
fn has_coupling(design: &Design, net: NetId, to: NetId) -> bool
    requires { net.0 < length design.now.nets }
    ensures { result ≡ has_coupling (slice_get design.now.nets net.0) to.0 }
{
    leads_to(design.net(net.0 as usize).couplings.as_slice(), to)
}

/// The nets of these names, if there is a coupling between them.
pub(crate) fn nets_in(design: &Design, a: &[u8], b: &[u8]) -> Result<(NetId, NetId), EditFault>
    ensures value { Reads (λ p. (p.0.0, p.1.0)) result (nets_in design.now.nets a.now b.now) }
    ensures fault { IfErr result IsLineFault }
{
    let Some(a) = net_named(design, a) else {
        return Err(EditFault::E3);
    };
    let Some(b) = net_named(design, b) else {
        return Err(EditFault::E3);
    };
    if has_coupling(design, a, b) || has_coupling(design, b, a) {
        return Ok((a, b));
    }
    Err(EditFault::E3)
}
