//! An evaluation of a net: what the windows of all nets make of that net's windows (after Zhou 2003).

use crate::arc::{place_to, with_arc};
use crate::pin::Pin;
use crate::tables::EdgeTables;
use miller_bits::{Overlaps, Victim, load_ranges};
use std::marker::Model;
use xt_model::{Bounds, Design, Edge, Net, NetId, Pair, Quad};

/// An evaluation of a net of a design, by the windows of a view and by which of them count as overlapping, and with the
/// groups of its tables as far as they are known. Clauses see the windows that the operator makes of it.
#[derive(Drop)]
pub(crate) struct Evaluation<'a, V: Bounds> {
    pub design: &'a Design,
    pub groups: &'a [usize],
    pub overlaps: Overlaps,
    pub view: &'a V,
    pub number: NetId,
    pub net: &'a Net,
}

impl<'a, V: Bounds> Model for Evaluation<'a, V> {
    ghost use Rattle.xt_model.specs.declared.quad.Pair.{Pair};

    ghost Value = { Pair };

    ghost use Rattle.net_eval.specs.Scenes.{pair_in, scene_of, IsReadyNet};

    ghost view = { λ e. pair_in (scene_of e.overlaps e.design.now (V.bound_of e.view.now)) e.number.0 };

    ghost invariant = { λ e. let s = scene_of e.overlaps e.design.now (V.bound_of e.view.now) in
        IsReadyNet (V.has e.view.now) s e.groups.now e.number.0 e.net.now };
}

impl<'a, V: Bounds> Evaluation<'a, V> {
    ghost use Rattle.std.specs.Prelude.{◌≡◌};
    ghost use Rattle.xt_model.specs.Quads.{IsPairInRange};

    /// What the operator makes of the net: what a net without arcs is given, and else at each edge the join of what the
    /// arcs to it contribute.
    #[inline(always)]
    pub fn pair(&self) -> Pair
        ensures value { result ≡ self.now }
        ensures range { IsPairInRange result }
    {
        if self.net.arcs.len() == 0 {
            let given = &self.net.given;
            return Pair {
                rise: given.at(Edge::Rise),
                fall: given.at(Edge::Fall),
            };
        }
        let own_rise = Victim::new(
            self.design,
            self.overlaps,
            self.view,
            self.number,
            Edge::Rise,
        );
        let own_fall = Victim::new(
            self.design,
            self.overlaps,
            self.view,
            self.number,
            Edge::Fall,
        );
        let (rise_load, fall_load) = load_ranges(&own_rise, &own_fall);
        let arcs = self.net.arcs.as_slice();
        let first = arcs[0];
        let mut pin = Pin::of(
            self.design,
            self.overlaps,
            self.view,
            first.from,
            first.sink,
        );
        let to_rise = place_to(arcs, Edge::Rise);
        let to_fall = place_to(arcs, Edge::Fall);
        let mut rise_tables = EdgeTables::of_arc(
            &arcs[to_rise],
            self.design,
            self.groups,
            rise_load,
        );
        let mut fall_tables = EdgeTables::of_arc(
            &arcs[to_fall],
            self.design,
            self.groups,
            fall_load,
        );
        let mut rise = Quad::bottom();
        let mut fall = Quad::bottom();
        for arc in self.net.arcs.as_slice() {
            pin.move_to(arc, self.design, self.overlaps, self.view);
            let input = pin.at(arc.input);
            rise = with_arc(
                self.design,
                arc,
                Edge::Rise,
                &input,
                rise_load,
                &mut rise_tables,
                rise,
            );
            fall = with_arc(
                self.design,
                arc,
                Edge::Fall,
                &input,
                fall_load,
                &mut fall_tables,
                fall,
            );
        }
        Pair { rise, fall }
    }
}
