//! An edge of a net, as the victim of the nets that are coupled to it.

use crate::active::Active;
use crate::factor::{factors_of, widest_factors};
use crate::overlaps::Overlaps;
use std::marker::Model;
use xt_model::{Bounds, Design, Edge, Net, NetId, Quad, window};

/// An edge of a net of a design, with what its wires and its load follow from: the windows of a view, and which of
/// them count as overlapping.
#[derive(Drop)]
pub struct Victim<'a, V: Bounds> {
    design: &'a Design,
    overlaps: Overlaps,
    view: &'a V,
    number: NetId,
    edge: Edge,
    own: Active,
    pub(crate) net: &'a Net,
}

impl<'a, V: Bounds> Model for Victim<'a, V> {
    ghost use Rattle.miller_bits.specs.Victims.{VictimEdge};

    ghost Value = { VictimEdge };

    ghost use Rattle.miller_bits.specs.Victims.{IsAtHand, victim_of};

    ghost view = { λ v. victim_of v.overlaps v.design.now (V.bound_of v.view.now) v.number.0 v.edge v.net.now };

    ghost invariant = { λ v.
        IsAtHand (V.has v.view.now) (V.bound_of v.view.now) v.design.now v.number.0 v.edge v.own v.net.now };
}

impl<'a, V: Bounds> Victim<'a, V> {
    ghost use Rattle.std.specs.Prelude.{◌≡◌, ◌<◌, ◌≤◌, length, Some, IfSome};
    ghost use Rattle.std.specs.List.{slice_get};
    ghost use Rattle.xt_model.specs.Limits.{most_factor};
    ghost use Rattle.xt_model.specs.Quads.{IsInRange};
    ghost use Rattle.miller_bits.specs.Views.{HasVictim};
    ghost use Rattle.miller_bits.specs.Victims.{victim_of};

    /// This edge of a net, by the windows of the view.
    pub fn new(
        design: &'a Design,
        overlaps: Overlaps,
        view: &'a V,
        number: NetId,
        edge: Edge,
    ) -> Victim<'a, V>
        requires net { number.0 < length design.now.nets }
        requires words { HasVictim (V.has view.now) design.now number.0 edge }
        ensures { IfSome (slice_get design.now.nets number.0)
            (λ net. result ≡ victim_of overlaps design.now (V.bound_of view.now) number.0 edge net) }
    {
        Victim {
            design,
            overlaps,
            view,
            number,
            edge,
            own: Active::of(window(view, number, edge)),
            net: design.net(number.0 as usize),
        }
    }

    /// Its own window.
    pub fn window(&self) -> Quad
        ensures value { result ≡ self.now.window }
        ensures range { IsInRange result }
    {
        self.own.window
    }

    /// The number of its net.
    pub fn number(&self) -> NetId
        ensures { result.0 ≡ self.now.number }
    {
        self.number
    }

    /// The least and the greatest factor, in quarters, by which the coupling of this number counts.
    #[inline(always)]
    pub(crate) fn factors(&self, coupling: usize) -> (u8, u8)
        requires { coupling < length self.now.net.couplings }
        ensures least { slice_get self.now.least coupling ≡ Some result.0 }
        ensures greatest { slice_get self.now.greatest coupling ≡ Some result.1 }
        ensures few_least { result.0 ≤ most_factor }
        ensures few_greatest { result.1 ≤ most_factor }
    {
        let aggressor = self.net.couplings.as_slice()[coupling].to;
        match self.overlaps {
            Overlaps::OfWindows => factors_of(
                self.design,
                &self.own,
                self.edge,
                self.view,
                aggressor,
            ),
            Overlaps::All => widest_factors(self.design.miller()),
        }
    }
}
