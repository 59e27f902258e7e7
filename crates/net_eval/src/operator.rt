//! The window operator at one net (after Zhou 2003).

ghost use Rattle.std.specs.Prelude.{◌≡◌, ◌<◌, length};
ghost use Rattle.xt_model.specs.Assign.{quads_of};
ghost use Rattle.xt_model.specs.Quads.{IsPairInRange};
ghost use Rattle.xt_model.specs.declared.edge.Edge.TheVariants.{Rise, Fall};
ghost use Rattle.xt_meaning.specs.Operator.{operator, widest_operator};
ghost use Rattle.xt_meaning.specs.Reads.{HoldsOfReads};
ghost use Rattle.miller_bits.specs.Views.{HasNet};
ghost use Rattle.table_box.specs.Groups.{AreGroups};
ghost use Rattle.net_eval.specs.Room.{ReadsFit, ReadsWithinEnvelope};

use crate::evaluation::Evaluation;
use miller_bits::Overlaps;
use xt_model::{Bounds, Design, NetId, Pair};

/// What the operator makes of the windows of the view for one net. Linear in the nets and couplings that it
/// looks at.
pub fn eval<V: Bounds>(design: &Design, net: NetId, view: &V) -> Pair
    requires net { net.0 < length design.now.nets }
    requires words { HoldsOfReads (HasNet (V.has view.now)) design.now net.0 }
    requires room { ReadsWithinEnvelope design.now (quads_of (V.bound_of view.now)) net.0 }
    ensures rise { result.rise ≡ operator design.now (quads_of (V.bound_of view.now)) net.0 Rise }
    ensures fall { result.fall ≡ operator design.now (quads_of (V.bound_of view.now)) net.0 Fall }
    ensures range { IsPairInRange result }
{
    eval_grouped(design, &[], net, view)
}

/// The same, where groups of the design's tables are known, as `table_groups` finds them: with these it looks a slew up
/// once for two tables of a group, and at the ends of a range alone.
pub fn eval_grouped<V: Bounds>(design: &Design, groups: &[usize], net: NetId, view: &V) -> Pair
    requires groups { AreGroups design.now.tables groups.now }
    requires net { net.0 < length design.now.nets }
    requires words { HoldsOfReads (HasNet (V.has view.now)) design.now net.0 }
    requires room { ReadsWithinEnvelope design.now (quads_of (V.bound_of view.now)) net.0 }
    ensures rise { result.rise ≡ operator design.now (quads_of (V.bound_of view.now)) net.0 Rise }
    ensures fall { result.fall ≡ operator design.now (quads_of (V.bound_of view.now)) net.0 Fall }
    ensures range { IsPairInRange result }
{
    let evaluation = Evaluation {
        design,
        groups,
        overlaps: Overlaps::OfWindows,
        view,
        number: net,
        net: design.net(net.0 as usize),
    };
    evaluation.pair()
}

/// What the operator makes of them where every two windows overlap.
pub fn eval_widest<V: Bounds>(design: &Design, net: NetId, view: &V) -> Pair
    requires net { net.0 < length design.now.nets }
    requires words { HoldsOfReads (HasNet (V.has view.now)) design.now net.0 }
    requires room { ReadsFit design.now (quads_of (V.bound_of view.now)) net.0 }
    ensures rise { result.rise ≡ widest_operator design.now (quads_of (V.bound_of view.now)) net.0 Rise }
    ensures fall { result.fall ≡ widest_operator design.now (quads_of (V.bound_of view.now)) net.0 Fall }
    ensures range { IsPairInRange result }
{
    eval_widest_grouped(design, &[], net, view)
}

/// The same, where groups of the design's tables are known, as for [`eval_grouped`].
pub fn eval_widest_grouped<V: Bounds>(
    design: &Design,
    groups: &[usize],
    net: NetId,
    view: &V,
) -> Pair
    requires groups { AreGroups design.now.tables groups.now }
    requires net { net.0 < length design.now.nets }
    requires words { HoldsOfReads (HasNet (V.has view.now)) design.now net.0 }
    requires room { ReadsFit design.now (quads_of (V.bound_of view.now)) net.0 }
    ensures rise { result.rise ≡ widest_operator design.now (quads_of (V.bound_of view.now)) net.0 Rise }
    ensures fall { result.fall ≡ widest_operator design.now (quads_of (V.bound_of view.now)) net.0 Fall }
    ensures range { IsPairInRange result }
{
    let evaluation = Evaluation {
        design,
        groups,
        overlaps: Overlaps::All,
        view,
        number: net,
        net: design.net(net.0 as usize),
    };
    evaluation.pair()
}
