//! How much later or earlier data could come: differences of times, in fs.

ghost use Rattle.std.specs.Prelude.{◌≡◌, pos, neg_ℤ};
ghost use Rattle.xt_model.specs.Limits.{most_delay, most_period};
ghost use Rattle.xt_model.specs.Sound.{IsBetween, IsConstraint};
ghost use Rattle.xt_model.specs.Tables.{IsTableNumber};
ghost use Rattle.xt_meaning.specs.Lookup.{greatest_over, table_value};
ghost use Rattle.slack_report.specs.Slacks.{flop_slack, port_slack, slews_box};

use table_box::range;
use xt_model::{Quad, Table};

/// The time that data needs at a flop: the greatest value of the constraint table over every slew of the clock by every
/// slew of the data.
pub(crate) fn needed(table: &Table, clock: &Quad, datum: &Quad) -> i64
    requires clock { IsConstraint clock.now }
    requires datum { IsConstraint datum.now }
    ensures value { result ≡ greatest_over (table_value table.now) (slews_box clock.now datum.now) }
    ensures number { IsTableNumber result }
{
    let (_, greatest) = range(table, clock.slo, clock.shi, datum.slo, datum.shi);
    greatest
}

/// The slack of data at a flop, which needs this time there, against the clock's next rise for setup and against the
/// same rise for hold.
pub(crate) fn flop_slack(hold: bool, period: i64, need: i64, clock: &Quad, datum: &Quad) -> i64
    requires period { IsBetween (pos 0) most_period period }
    requires need { IsTableNumber need }
    requires clock { IsConstraint clock.now }
    requires datum { IsConstraint datum.now }
    ensures { result ≡ flop_slack hold period need clock.now datum.now }
{
    if hold {
        datum.tlo - clock.thi - need
    } else {
        period + clock.tlo - need - datum.thi
    }
}

/// The slack of data at a port with this delay after it.
pub(crate) fn port_slack(hold: bool, period: i64, delay: i64, datum: &Quad) -> i64
    requires period { IsBetween (pos 0) most_period period }
    requires delay { IsBetween (neg_ℤ most_delay) most_delay delay }
    requires datum { IsConstraint datum.now }
    ensures { result ≡ port_slack hold period delay datum.now }
{
    if hold {
        datum.tlo + delay
    } else {
        period - delay - datum.thi
    }
}
