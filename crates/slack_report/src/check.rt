//! The checks of a design: an edge of the data at a check point that has a table or a time for it.

ghost use Rattle.std.specs.Prelude.{◌≡◌};
ghost use Rattle.slack_report.specs.Checks.{at_edge, check_at};

use xt_model::{CheckPoint, Edge, NetId};

/// What data has to be in time for: the rise of a clock at a sink of its net, with the number of the table of the time
/// that the data needs there; or a moment outside the design, by the delay to there in fs.
#[derive(Clone, Copy)]
pub(crate) enum Reference {
    Clock { net: NetId, sink: u32, table: u32 },
    Outside { delay: i64 },
}

/// A check: an edge of a net at one of its sinks, what it has to be in time for, and whether it is to stay as it is
/// until after that (hold) or to be there before it (setup). The check point has the number `point`.
#[derive(Clone, Copy)]
pub(crate) struct Check {
    pub point: u32,
    pub hold: bool,
    pub net: NetId,
    pub edge: Edge,
    pub sink: u32,
    pub reference: Reference,
}

/// Of two things the one for an edge.
pub(crate) fn at_edge<T: Copy>(edge: Edge, rise: T, fall: T) -> T
    ensures { result ≡ at_edge edge rise fall }
{
    match edge {
        Edge::Rise => rise,
        Edge::Fall => fall,
    }
}

impl Check {
    /// The check of an edge at a check point, which has this number; none where the point has no table and no time for
    /// the edge.
    pub fn of(number: u32, point: &CheckPoint, edge: Edge) -> Option<Check>
        ensures { result ≡ check_at number point.now edge }
    {
        match point {
            CheckPoint::Flop {
                name: _,
                hold,
                datum,
                datum_sink,
                clock,
                clock_sink,
                rise,
                fall,
            } => {
                let table = at_edge(edge, *rise, *fall)?;
                Some(Check {
                    point: number,
                    hold: *hold,
                    net: *datum,
                    edge,
                    sink: *datum_sink,
                    reference: Reference::Clock {
                        net: *clock,
                        sink: *clock_sink,
                        table,
                    },
                })
            }
            CheckPoint::Port {
                name: _,
                hold,
                net,
                sink,
                rise,
                fall,
            } => {
                let delay = at_edge(edge, *rise, *fall)?;
                Some(Check {
                    point: number,
                    hold: *hold,
                    net: *net,
                    edge,
                    sink: *sink,
                    reference: Reference::Outside { delay },
                })
            }
        }
    }
}
