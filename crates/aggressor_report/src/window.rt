//! The windows of edges of nets.

ghost use Rattle.std.specs.Prelude.{◌≡◌, ◌<◌, length};
ghost use Rattle.xt_model.specs.Assign.{assigned};
ghost use Rattle.xt_model.specs.Quads.{IsInRange};
ghost use Rattle.aggressor_report.specs.Passages.{bound_of};

use xt_model::{Edge, NetId, Quad, Windows};

/// The window of an edge of a net.
pub(crate) fn window_at(windows: &Windows, net: NetId, edge: Edge) -> Quad
    requires { net.0 < length windows.now }
    ensures value { result ≡ assigned windows.now net.0 edge }
    ensures range { IsInRange result }
{
    windows.pair(net.0 as usize).at(edge)
}

/// The latest or the earliest time of the window of an edge of a net.
pub(crate) fn bound_at(windows: &Windows, net: NetId, edge: Edge, late: bool) -> i64
    requires { net.0 < length windows.now }
    ensures { result ≡ bound_of late (assigned windows.now net.0 edge) }
{
    let window = window_at(windows, net, edge);
    if late { window.thi } else { window.tlo }
}
