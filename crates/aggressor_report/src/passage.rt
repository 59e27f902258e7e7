//! What a path spends on an arc.

ghost use Rattle.std.specs.Prelude.{◌≡◌, ◌≤ℤ◌, length};
ghost use Rattle.xt_model.specs.Assign.{assigned};
ghost use Rattle.xt_model.specs.Sound.{IsConstraint, IsSoundArc};
ghost use Rattle.xt_model.specs.Tables.{IsTableNumber};
ghost use Rattle.xt_meaning.specs.Barrier.{IsWithinEnvelope};
ghost use Rattle.xt_meaning.specs.Operator.{Range};
ghost use Rattle.aggressor_report.specs.Passages.{passage_by, spent};

use sink_windows::{SinkWindow, at_sink};
use table_box::range;
use xt_model::{Design, TimingArc, Windows};

/// The delay of the wire before an arc and of the arc itself, and the time that a transition comes to after both, in
/// fs.
#[derive(Clone, Copy, Debug, PartialEq, Eq)]
pub(crate) struct Passage {
    pub wire: i64,
    pub delay: i64,
    pub time: i64,
}

/// What is spent on the way to a sink, with this window there, and on an arc with these least and greatest delays: on
/// the latest way the most, on the earliest the least.
fn spent(late: bool, input: &SinkWindow, delays: (i64, i64)) -> Passage
    requires input { IsConstraint input.now.window }
    requires least { IsTableNumber delays.0 }
    requires greatest { IsTableNumber delays.1 }
    ensures { result ≡ spent late input.now (record { least = delays.0; most = delays.1 }) }
{
    if late {
        Passage {
            wire: input.greatest_wire,
            delay: delays.1,
            time: input.window.thi + delays.1,
        }
    } else {
        Passage {
            wire: input.least_wire,
            delay: delays.0,
            time: input.window.tlo + delays.0,
        }
    }
}

/// What is spent on an arc into a net with this range of loads; none where the arc's input never switches.
pub(crate) fn passage_through(
    design: &Design,
    windows: &Windows,
    arc: &TimingArc,
    load: (i64, i64),
    late: bool,
) -> Option<Passage>
    requires count { length windows.now ≡ length design.now.nets }
    requires within { IsWithinEnvelope design.now windows.now }
    requires sound { IsSoundArc design.now arc.now }
    requires load { load.0 ≤ℤ load.1 }
    ensures { let loads : Range = record { least = load.0; most = load.1 } in
        result ≡ passage_by late design.now (assigned windows.now) loads arc.now }
{
    let input = at_sink(design, windows, arc.from, arc.input, arc.sink)?;
    let table = &design.tables()[arc.delay as usize];
    let delays = range(table, input.window.slo, input.window.shi, load.0, load.1);
    Some(spent(late, &input, delays))
}
