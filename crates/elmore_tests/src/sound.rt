//! Whether a wire may be made of its parts.

ghost use Rattle.std.specs.Prelude.{◌≡◌, ◌↔◌, ◌+◌, ◌-◌, ◌*◌, ◌<◌, ◌≤◌, ◌^◌, pos, ◌≤ℤ◌, IsTrue, length, min};
ghost use Rattle.std.specs.List.{All};
ghost use Rattle.elmore_tree.specs.Trees.{IsSoundResistor, IsSoundTap, IsSoundTree, ground_sum, tap_sum};

use elmore_tree::{Resistor, Tap};
use xt_model::limits::{MOST_CAP, MOST_NODES};

const MOST_VALUE: i64 = 1 << 40;

/// Whether both ends of a resistor are below `nodes`, and its value is in range.
fn is_sound_resistor(nodes: usize, resistor: &Resistor) -> bool
    ensures { IsTrue result ↔ IsSoundResistor nodes resistor.now }
{
    (resistor.a as usize) < nodes
        && (resistor.b as usize) < nodes
        && 0 <= resistor.value
        && resistor.value <= MOST_VALUE
}

/// Whether the node of a tap is below `nodes`, and its capacitance is in range.
fn is_sound_tap(nodes: usize, tap: &Tap) -> bool
    ensures { IsTrue result ↔ IsSoundTap nodes tap.now }
{
    (tap.node as usize) < nodes && 0 <= tap.cap && tap.cap <= MOST_VALUE
}

/// The capacitance to ground of all nodes, at most the greatest `u64`.
fn ground_in_all(ground: &[i64]) -> u64
    ensures { result ≡ min (ground_sum ground.now) (2 ^ 64 - 1) }
{
    let mut total: u64 = 0;
    for cap in ground {
        total = total.saturating_add(cap.unsigned_abs());
    }
    total
}

/// The capacitance of all taps, at most the greatest `u64`.
fn taps_in_all(taps: &[Tap]) -> u64
    ensures { result ≡ min (tap_sum taps.now) (2 ^ 64 - 1) }
{
    let mut total: u64 = 0;
    for tap in taps {
        total = total.saturating_add(tap.cap.unsigned_abs());
    }
    total
}

/// Whether the load is in range where each tap counts twice.
fn is_within_load(ground: &[i64], taps: &[Tap]) -> bool
    ensures { IsTrue result ↔ (ground_sum ground.now + 2 * tap_sum taps.now ≤ 2 ^ 46) }
{
    let tapped = taps_in_all(taps).saturating_mul(2);
    ground_in_all(ground).saturating_add(tapped) <= MOST_CAP as u64
}

/// Whether there are 1 to 65,536 nodes, each with a capacitance to ground of 0 or more.
fn has_sound_ground(ground: &[i64]) -> bool
    ensures { IsTrue result ↔ (0 < length ground.now) × (length ground.now ≤ 65536) × All (λ g. pos 0 ≤ℤ g) ground.now }
{
    !ground.is_empty() && ground.len() <= MOST_NODES && ground.iter().all(|cap| 0 <= *cap)
}

/// Whether the resistors are sound.
fn are_sound_resistors(nodes: usize, resistors: &[Resistor]) -> bool
    ensures { IsTrue result ↔ All (IsSoundResistor nodes) resistors.now }
{
    resistors
        .iter()
        .all(|resistor| is_sound_resistor(nodes, resistor))
}

/// Whether the taps are sound.
fn are_sound_taps(nodes: usize, taps: &[Tap]) -> bool
    ensures { IsTrue result ↔ All (IsSoundTap nodes) taps.now }
{
    taps.iter().all(|tap| is_sound_tap(nodes, tap))
}

/// Whether the node of each sink is below `nodes`.
fn are_sound_sinks(nodes: usize, sinks: &[u32]) -> bool
    ensures { IsTrue result ↔ All (λ p. p < nodes) sinks.now }
{
    sinks.iter().all(|sink| (*sink as usize) < nodes)
}

/// Whether a wire may be made of these parts, with its root at node 0.
pub fn is_sound(ground: &[i64], resistors: &[Resistor], taps: &[Tap], sinks: &[u32]) -> bool
    ensures { IsTrue result → IsSoundTree (record {
      nodes = length ground.now;
      root = 0;
      resistors = resistors.now;
      ground = ground.now;
      taps = taps.now;
      sinks = sinks.now;
    }) }
{
    let nodes = ground.len();
    has_sound_ground(ground)
        && are_sound_resistors(nodes, resistors)
        && are_sound_taps(nodes, taps)
        && are_sound_sinks(nodes, sinks)
        && is_within_load(ground, taps)
}
