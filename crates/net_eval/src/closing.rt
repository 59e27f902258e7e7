//! Whether windows are what the operator makes of them.

ghost use Rattle.std.specs.Prelude.{◌≡◌, ◌↔◌, ℕ, ◌<◌, ◌≤◌, length, IsTrue};
ghost use Rattle.xt_model.specs.declared.edge.Edge.{Edge};
ghost use Rattle.xt_model.specs.Assign.{assigned};
ghost use Rattle.xt_meaning.specs.Operator.{step};
ghost use Rattle.xt_meaning.specs.Barrier.{IsWithinEnvelope};
ghost use Rattle.table_box.specs.Groups.{AreGroups};
ghost use Rattle.net_eval.specs.Closing.{IsSteadyAt};

use crate::evaluation::Evaluation;
use miller_bits::Overlaps;
use xt_model::{Design, NetId, Windows};

/// Whether the operator gives the windows of a net back.
fn is_steady(design: &Design, groups: &[usize], windows: &Windows, net: u32) -> bool
    requires groups { AreGroups design.now.tables groups.now }
    requires count { length windows.now ≡ length design.now.nets }
    requires within { IsWithinEnvelope design.now windows.now }
    requires net { net < length design.now.nets }
    ensures { IsTrue result ↔ IsSteadyAt design.now windows.now net }
{
    let evaluation = Evaluation {
        design,
        groups,
        overlaps: Overlaps::OfWindows,
        view: windows,
        number: NetId(net),
        net: design.net(net as usize),
    };
    evaluation.pair().same(&windows.pair(net as usize))
}

/// Whether the operator gives the windows back at each net from number `from` to before number `to`.
pub fn closed_part(design: &Design, windows: &Windows, from: u32, to: u32) -> bool
    requires count { length windows.now ≡ length design.now.nets }
    requires within { IsWithinEnvelope design.now windows.now }
    requires order { from ≤ to }
    requires end { to ≤ length design.now.nets }
    ensures { IsTrue result ↔ ((n : ℕ) → from ≤ n → n < to → IsSteadyAt design.now windows.now n) }
{
    closed_part_grouped(design, &[], windows, from, to)
}

/// The same, where groups of the design's tables are known, as for [`eval_grouped`](crate::eval_grouped).
pub fn closed_part_grouped(
    design: &Design,
    groups: &[usize],
    windows: &Windows,
    from: u32,
    to: u32,
) -> bool
    requires groups { AreGroups design.now.tables groups.now }
    requires count { length windows.now ≡ length design.now.nets }
    requires within { IsWithinEnvelope design.now windows.now }
    requires order { from ≤ to }
    requires end { to ≤ length design.now.nets }
    ensures { IsTrue result ↔ ((n : ℕ) → from ≤ n → n < to → IsSteadyAt design.now windows.now n) }
{
    for net in from..to {
        if !is_steady(design, groups, windows, net) {
            return false;
        }
    }
    true
}

/// Whether the operator gives the windows back at every net.
pub fn closed(design: &Design, windows: &Windows) -> bool
    requires count { length windows.now ≡ length design.now.nets }
    requires within { IsWithinEnvelope design.now windows.now }
    ensures { IsTrue result ↔ ((n : ℕ) (e : Edge) → step design.now windows.now n e ≡ assigned windows.now n e) }
{
    closed_part(design, windows, 0, design.nets().len() as u32)
}
