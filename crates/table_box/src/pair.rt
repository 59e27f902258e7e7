//! Two tables at one range of loads.

ghost use Rattle.std.specs.Prelude.{◌≡◌, IsTrue};
ghost use Rattle.xt_model.specs.Tables.{IsTable};
ghost use Rattle.table_box.specs.Monotone.{AreMonotone};

use crate::monotone::monotone_range;
use crate::ranges::{box_range, have_same_axes, range};
use crate::segment::Segment;
use crate::stretch::Stretch;
use std::marker::Model;
use xt_model::Table;

/// Two tables at the loads from one to another, in aF: where these lie on the axis of the first table, and whether the
/// second has the same axes, and whether both are known to be monotone.
#[derive(Drop)]
pub struct TablePair<'a> {
    first: &'a Table,
    second: &'a Table,
    loads: Stretch,
    alike: bool,
    monotone: bool,
}

impl<'a> Model for TablePair<'a> {
    ghost use Rattle.table_box.specs.TablePairs.{IsTablePair, TablesAtLoads};

    ghost Value = { TablesAtLoads };

    ghost view = { λ p. record { first = p.first.now; second = p.second.now; c0 = p.loads.from; c1 = p.loads.to } };

    ghost invariant = { λ p. IsTablePair p.first.now p.second.now p.loads p.alike p.monotone };
}

/// Whether two tables have the same axes: by a look at them, unless it is known that both are monotone and do.
fn are_alike(first: &Table, second: &Table, monotone: bool) -> bool
    requires monotone { IsTrue monotone → AreMonotone first.now second.now }
    ensures slews { IsTrue result → first.now.slews ≡ second.now.slews }
    ensures loads { IsTrue result → first.now.loads ≡ second.now.loads }
    ensures table { IsTable second.now }
{
    if monotone {
        return true;
    }
    have_same_axes(first, second)
}

impl<'a> TablePair<'a> {
    ghost use Rattle.std.specs.Prelude.{◌≡◌, ◌≤ℤ◌, IsTrue};
    ghost use Rattle.table_box.specs.Monotone.{AreMonotone};
    ghost use Rattle.table_box.specs.TablePairs.{box_at};
    ghost use Rattle.table_box.specs.Ranges.{IsRange};

    /// These tables at the loads from `c0` to `c1` aF. It looks the loads up in the first table.
    #[inline(always)]
    pub fn new(first: &'a Table, second: &'a Table, c0: i64, c1: i64) -> TablePair<'a>
        requires loads { c0 ≤ℤ c1 }
        ensures { result ≡ record { first = first.now; second = second.now; c0 = c0; c1 = c1 } }
    {
        TablePair::known(first, second, false, c0, c1)
    }

    /// The same, where it is known whether both tables are monotone and have the same axes.
    #[inline(always)]
    pub fn known(
        first: &'a Table,
        second: &'a Table,
        monotone: bool,
        c0: i64,
        c1: i64,
    ) -> TablePair<'a>
        requires monotone { IsTrue monotone → AreMonotone first.now second.now }
        requires loads { c0 ≤ℤ c1 }
        ensures { result ≡ record { first = first.now; second = second.now; c0 = c0; c1 = c1 } }
    {
        TablePair {
            first,
            second,
            loads: Stretch::of(first.loads(), c0, c1),
            alike: are_alike(first, second, monotone),
            monotone,
        }
    }

    /// The ranges of both tables over these loads and the slews from `s0` to `s1` fs, as `range` gives them. Where both
    /// have the same axes, the slews are looked up once.
    #[inline(always)]
    pub fn over_slews(&self, s0: i64, s1: i64) -> ((i64, i64), (i64, i64))
        requires slews { s0 ≤ℤ s1 }
        ensures first { IsRange self.now.first (box_at self.now s0 s1) result.0 }
        ensures second { IsRange self.now.second (box_at self.now s0 s1) result.1 }
    {
        if self.monotone {
            let slews = Segment::of(self.first.slews(), s0, s1);
            return (
                monotone_range(self.first, &slews, &self.loads),
                monotone_range(self.second, &slews, &self.loads),
            );
        }
        self.over_any_slews(s0, s1)
    }

    /// The same, for any tables.
    fn over_any_slews(&self, s0: i64, s1: i64) -> ((i64, i64), (i64, i64))
        requires slews { s0 ≤ℤ s1 }
        ensures first { IsRange self.now.first (box_at self.now s0 s1) result.0 }
        ensures second { IsRange self.now.second (box_at self.now s0 s1) result.1 }
    {
        let slews = Stretch::of(self.first.slews(), s0, s1);
        let first = box_range(self.first, &slews, &self.loads);
        if self.alike {
            return (first, box_range(self.second, &slews, &self.loads));
        }
        (
            first,
            range(self.second, s0, s1, self.loads.from, self.loads.to),
        )
    }
}
