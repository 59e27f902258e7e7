ghost use Rattle.std.specs.Prelude.{◌↔◌, ◌<◌, ◌^◌, pos, ◌≤ℤ◌, IsTrue, length};
ghost use Rattle.std.specs.List.{All};
ghost use Rattle.xt_model.specs.Names.{IsName};
ghost use Rattle.xt_model.specs.Limits.{most_cap};
ghost use Rattle.sound_parts.specs.Items.{HasSoundLists, HasSoundSizes};
ghost use Rattle.xt_model.specs.Sound.{HasSink, IsCap, IsSoundArc, IsSoundCoupling, IsSoundNet, IsSoundSink};
ghost use Rattle.xt_model.specs.Sound.{greatest_load};

use crate::coupling::{is_sound_coupling, is_within_greatest_load};
use crate::given::is_sound_given;
use crate::range::{is_cap, is_product};
use xt_model::{DesignParts, Name, Net, NetId, SinkPin, TimingArc};

const SINK_NUMBERS: usize = 1 << 32;

/// Whether the name is one, which its type sees to.
pub(crate) fn is_name(name: &Name) -> bool
    ensures { IsTrue result ↔ IsName name.now }
{
    !name.bytes().is_empty()
}

/// Whether the net has a sink of this number.
pub(crate) fn has_sink(parts: &DesignParts, net: NetId, sink: u32) -> bool
    ensures { IsTrue result ↔ HasSink parts.now net.0 sink }
{
    match parts.nets.as_slice().get(net.0 as usize) {
        Some(net) => (sink as usize) < net.sinks.len(),
        None => false,
    }
}

/// Whether the base and the coefficients of the sink are in range, and there are as many coefficients as
/// the net has couplings.
fn is_sound_sink(couplings: usize, sink: &SinkPin) -> bool
    ensures { IsTrue result ↔ IsSoundSink couplings sink.now }
{
    is_name(&sink.name)
        && is_product(sink.base)
        && sink.coefs.len() == couplings
        && sink.coefs.as_slice().iter().all(|coef| is_product(*coef))
}

/// Whether the arc comes from a sink that is there and reads tables that are there.
fn is_sound_arc(parts: &DesignParts, arc: &TimingArc) -> bool
    ensures { IsTrue result ↔ IsSoundArc parts.now arc.now }
{
    has_sink(parts, arc.from, arc.sink)
        && (arc.delay as usize) < parts.tables.len()
        && (arc.slew as usize) < parts.tables.len()
}

/// Whether the couplings, sinks and arcs of the net number `own` are sound.
fn has_sound_lists(parts: &DesignParts, own: usize, net: &Net) -> bool
    ensures { IsTrue result ↔ HasSoundLists parts.now own net.now }
{
    let couplings = net.couplings.as_slice();
    couplings
        .iter()
        .all(|coupling| is_sound_coupling(parts, own, coupling))
        && net
            .sinks
            .as_slice()
            .iter()
            .all(|sink| is_sound_sink(couplings.len(), sink))
        && net
            .arcs
            .as_slice()
            .iter()
            .all(|arc| is_sound_arc(parts, arc))
}

/// Whether the load of the net is in range, also with every coupling counted twice, and a `u32` can name
/// each of its sinks.
fn has_sound_sizes(net: &Net) -> bool
    ensures { IsTrue result ↔ HasSoundSizes net.now }
{
    is_cap(net.load) && is_within_greatest_load(net) && net.sinks.len() < SINK_NUMBERS
}

/// Whether the net, which has the number `own`, is sound.
pub(crate) fn is_sound_net(parts: &DesignParts, own: usize, net: &Net) -> bool
    ensures { IsTrue result ↔ IsSoundNet parts.now own net.now }
{
    is_name(&net.name)
        && has_sound_sizes(net)
        && is_sound_given(&net.given.pair(), net.arcs.as_slice())
        && has_sound_lists(parts, own, net)
}
