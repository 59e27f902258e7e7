//! Tables of timing arcs, at the loads of the net that they drive.

ghost use Rattle.std.specs.Prelude.{◌≡◌, ◌<◌, ◌≤ℤ◌, slice_index, IsTrue};
ghost use Rattle.xt_model.specs.Sound.{IsSoundArc};
ghost use Rattle.xt_meaning.specs.Operator.{Range};
ghost use Rattle.table_box.specs.Groups.{AreGroups};
ghost use Rattle.net_eval.specs.Tables.{AreTables, AreTablesOf};

use table_box::TablePair;
use xt_model::{Design, TimingArc};

/// The numbers of a delay and a slew table, and both tables at the load of a net at one of its edges; and the groups of
/// all tables, as far as they are known.
#[derive(Drop)]
pub(crate) struct EdgeTables<'a> {
    delay: u32,
    slew: u32,
    groups: &'a [usize],
    pub pair: TablePair<'a>,
}

/// Whether two tables are known to be in one group.
fn are_grouped(groups: &[usize], first: u32, second: u32) -> bool
    ensures { IsTrue result
        → (0 < slice_index groups.now first) × (slice_index groups.now first ≡ slice_index groups.now second) }
{
    let (first, second) = (first as usize, second as usize);
    if first >= groups.len() || second >= groups.len() {
        return false;
    }
    groups[first] > 0 && groups[first] == groups[second]
}

impl<'a> EdgeTables<'a> {
    /// The tables of an arc, at this range of loads.
    #[inline(always)]
    pub fn of_arc(
        arc: &TimingArc,
        design: &'a Design,
        groups: &'a [usize],
        load: (i64, i64),
    ) -> EdgeTables<'a>
        requires groups { AreGroups design.now.tables groups.now }
        requires sound { IsSoundArc design.now arc.now }
        requires load { load.0 ≤ℤ load.1 }
        ensures { let behind : Range = record { least = load.0; most = load.1 } in
            AreTablesOf design.now arc.now behind result }
    {
        let tables = design.tables();
        EdgeTables {
            delay: arc.delay,
            slew: arc.slew,
            groups,
            pair: TablePair::known(
                &tables[arc.delay as usize],
                &tables[arc.slew as usize],
                are_grouped(groups, arc.delay, arc.slew),
                load.0,
                load.1,
            ),
        }
    }

    /// Whether an arc names these tables.
    fn are_named_by(&self, arc: &TimingArc) -> bool
        ensures { IsTrue result → (self.now.delay ≡ arc.now.delay) × (self.now.slew ≡ arc.now.slew) }
    {
        self.delay == arc.delay && self.slew == arc.slew
    }

    /// Makes them the tables of another arc to the same edge. Where several arcs to it, one after the other, name the
    /// same ones, the load is looked up once.
    #[inline(always)]
    pub fn turn_to(&mut self, arc: &TimingArc, design: &'a Design, load: (i64, i64))
        requires tables { let behind : Range = record { least = load.0; most = load.1 } in
            AreTables design.now behind self.old }
        requires sound { IsSoundArc design.now arc.now }
        requires load { load.0 ≤ℤ load.1 }
        ensures { let behind : Range = record { least = load.0; most = load.1 } in
            AreTablesOf design.now arc.now behind self.new }
    {
        if self.are_named_by(arc) {
            return;
        }
        *self = EdgeTables::of_arc(arc, design, self.groups, load);
    }
}
