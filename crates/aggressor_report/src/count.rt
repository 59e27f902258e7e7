//! How many couplings can change a victim's delay.

ghost use Rattle.std.specs.Prelude.{◌≡◌, ◌<◌, ◌≤◌, ◌*◌, ◌-◌, length};
ghost use Rattle.std.specs.List.{slice_get};
ghost use Rattle.xt_model.specs.Limits.{most_couplings};
ghost use Rattle.aggressor_report.specs.Entries.{edge_guilty, guilty_among};

use crate::guilt::Guilt;
use xt_model::{Design, Edge, NetId, Windows};

/// How many entries of an edge of a net have an aggressor that can do something.
fn edge_count(design: &Design, low: &Windows, high: &Windows, victim: NetId, edge: Edge) -> usize
    requires low { length low.now ≡ length design.now.nets }
    requires high { length high.now ≡ length design.now.nets }
    requires victim { victim.0 < length design.now.nets }
    ensures count { let net = slice_get design.now.nets victim.0 in
        result ≡ length (edge_guilty design.now low.now high.now victim edge net) }
    ensures few { result ≤ most_couplings }
{
    let net = &design.nets()[victim.0 as usize];
    let couplings = net.couplings.as_slice();
    let mut count = 0;
    for (number, coupling) in couplings.iter().enumerate() {
        let entry = Guilt::new(design, low, high, victim, edge, number as u32, coupling);
        if entry.is_guilty() {
            count += 1;
        }
    }
    count
}

/// How many entries [`guilty`](crate::guilty) lists of the nets from number `from` to before number `to`, without a
/// list: threads that count shares of the nets need no memory for it. Takes time in proportion to these nets and their
/// couplings.
pub fn guilty_count(design: &Design, low: &Windows, high: &Windows, from: u32, to: u32) -> usize
    requires low { length low.now ≡ length design.now.nets }
    requires high { length high.now ≡ length design.now.nets }
    requires order { from ≤ to }
    requires end { to ≤ length design.now.nets }
    ensures count { result ≡ length (guilty_among design.now low.now high.now from to) }
    ensures few { result ≤ 2 * most_couplings * (to - from) }
{
    let mut count = 0;
    for number in from..to {
        let victim = NetId(number);
        count += edge_count(design, low, high, victim, Edge::Rise);
        count += edge_count(design, low, high, victim, Edge::Fall);
    }
    count
}
