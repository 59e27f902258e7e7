//! What a summary counts of the nets of a design.

ghost use Rattle.std.specs.Prelude.{◌≡◌, ◌+◌, ◌-◌, ◌*◌, ◌^◌, ◌<◌, ◌≤◌, [], length};
ghost use Rattle.std.specs.Thread.{IsSync};
ghost use Rattle.report_text.specs.Pieces.{IsAtMost, IsSum, IsTally, IsTallyAmong, switching};

use crate::edge_windows::{EdgeWindows, width};
use aggressor_report::guilty_count;
use std::thread::{Threads, join};
use xt_model::{Design, Edge, Windows};

/// How many edges can switch, for how many of them the two windows differ, how many couplings matter, and how wide the
/// least and the greatest windows of the edges that can switch are together, in fs.
#[derive(Clone, Copy)]
pub struct Tally {
    pub live: usize,
    pub wider: usize,
    pub guilty: usize,
    pub least: i128,
    pub greatest: i128,
}

impl Tally {
    /// Of nothing.
    fn none() -> Tally
        ensures is { IsTally [] 0 result }
        ensures most { IsAtMost 0 result }
    {
        Tally {
            live: 0,
            wider: 0,
            guilty: 0,
            least: 0,
            greatest: 0,
        }
    }

    /// Of an edge: of none if the edge cannot switch.
    fn of_edge(edge: &EdgeWindows) -> Tally
        ensures is { IsTally (switching edge.now) 0 result }
        ensures most { IsAtMost 1 result }
    {
        if !edge.high.live() {
            return Tally::none();
        }
        Tally {
            live: 1,
            wider: usize::from(edge.is_wider()),
            guilty: 0,
            least: width(&edge.low),
            greatest: width(&edge.high),
        }
    }

    /// Of what both count.
    fn plus(self, other: Tally) -> Tally
        requires most { IsAtMost (2 ^ 33) self }
        requires others { IsAtMost (2 ^ 33) other }
        ensures { IsSum self other result }
    {
        Tally {
            live: self.live + other.live,
            wider: self.wider + other.wider,
            guilty: self.guilty + other.guilty,
            least: self.least + other.least,
            greatest: self.greatest + other.greatest,
        }
    }
}

/// The tally of a net.
fn net_tally(design: &Design, low: &Windows, high: &Windows, net: u32) -> Tally
    requires low { length low.now ≡ length design.now.nets }
    requires high { length high.now ≡ length design.now.nets }
    requires net { net < length design.now.nets }
    requires next { net + 1 < 2 ^ 32 }
    ensures is { IsTallyAmong design.now low.now high.now net (net + 1) result }
    ensures most { IsAtMost 2 result }
{
    let rise = EdgeWindows::of(low, high, net as usize, Edge::Rise);
    let fall = EdgeWindows::of(low, high, net as usize, Edge::Fall);
    let mut tally = Tally::of_edge(&rise).plus(Tally::of_edge(&fall));
    tally.guilty = guilty_count(design, low, high, net, net + 1);
    tally
}

/// The tally of the nets from number `from` to before number `to`. Takes time in proportion to these nets and their
/// couplings.
pub fn tally_of(design: &Design, low: &Windows, high: &Windows, from: u32, to: u32) -> Tally
    requires low { length low.now ≡ length design.now.nets }
    requires high { length high.now ≡ length design.now.nets }
    requires order { from ≤ to }
    requires end { to ≤ length design.now.nets }
    ensures is { IsTallyAmong design.now low.now high.now from to result }
    ensures most { IsAtMost (2 * (to - from)) result }
{
    let mut tally = Tally::none();
    for net in from..to {
        tally = tally.plus(net_tally(design, low, high, net));
    }
    tally
}

/// The number before which the first `some` of `shares` shares of the numbers from `from` to before `to` end.
fn share_end(from: u32, to: u32, some: u32, shares: u32) -> u32
    requires order { from ≤ to }
    requires some { some ≤ shares }
    requires shares { 0 < shares }
    ensures low { from ≤ result }
    ensures high { result ≤ to }
{
    from + (to - from) / shares * some
}

/// As [`tally_of`], by this many threads, each of a share of the nets.
pub fn tally_by<R: Threads + Sync>(
    rt: &R,
    design: &Design,
    low: &Windows,
    high: &Windows,
    from: u32,
    to: u32,
    shares: u32,
) -> Tally
    requires low { length low.now ≡ length design.now.nets }
    requires high { length high.now ≡ length design.now.nets }
    requires order { from ≤ to }
    requires end { to ≤ length design.now.nets }
    ensures is { IsTallyAmong design.now low.now high.now from to result }
    ensures most { IsAtMost (2 * (to - from)) result }
{
    if shares <= 1 {
        return tally_of(design, low, high, from, to);
    }
    let some = shares / 2;
    let rest = shares - some;
    let middle = share_end(from, to, some, shares);
    let (left, right) = join(
        rt,
        move || -> Tally
            requires { IsSync R.row × (length low.now ≡ length design.now.nets)
                × (length high.now ≡ length design.now.nets) × (from ≤ middle)
                × (middle ≤ length design.now.nets) }
            ensures { IsTallyAmong design.entry.now low.entry.now high.entry.now from middle result
                × IsAtMost (2 * (middle - from)) result }
        { tally_by(rt, design, low, high, from, middle, some) },
        move || -> Tally
            requires { IsSync R.row × (length low.now ≡ length design.now.nets)
                × (length high.now ≡ length design.now.nets) × (middle ≤ to)
                × (to ≤ length design.now.nets) }
            ensures { IsTallyAmong design.entry.now low.entry.now high.entry.now middle to result
                × IsAtMost (2 * (to - middle)) result }
        { tally_by(rt, design, low, high, middle, to, rest) },
    );
    left.plus(right)
}
