//! The limits on the sizes of a design.

ghost use Rattle.std.specs.Prelude.{◌≡◌, ℕ, ◌+◌, ◌*◌, ◌^◌, ◌≤◌, length, None};
ghost use Rattle.std.specs.List.{sum_by};
ghost use Rattle.xt_model.specs.Limits.{most_couplings, most_arcs};
ghost use Rattle.xt_model.specs.Parts.{Parts};
ghost use Rattle.xt_model.specs.Sound.{coefficients_of, couplings_at, reads_by, reads_of};
ghost use Rattle.link_pins.specs.Answers.{Tests};
ghost use Rattle.link_rules.specs.Limits.{passed};
ghost use Rattle.design_link.specs.Sizes.{plain_nets, couplings_in, couplings_sum, arcs_sum, sizes_fault, reads_fault};

use liberty_cells::Library;
use link_pins::Counts;
use link_rules::{LinkFault, NetPins};
use link_wires::KeptWire;
use xt_model::limits::{
    MOST_ARCS, MOST_CHECKS, MOST_COEFFICIENTS, MOST_COUPLINGS, MOST_READS, MOST_TABLES,
};
use xt_model::{LimitKind, NetId, TimingArc};

/// Tests a number by its limit.
fn within(what: LimitKind, value: u128, most: usize) -> Result<(), LinkFault>
    ensures { Tests (passed what None value most) result }
{
    if value > most as u128 {
        return Err(LinkFault::Limit {
            what,
            name: None,
            value,
        });
    }
    Ok(())
}

/// How many couplings wires have in all.
fn couplings_in_all(wires: &[KeptWire]) -> u128
    ensures { result ≡ couplings_sum wires.now }
{
    let mut total: u128 = 0;
    for wire in wires {
        total += wire.coupling_count() as u128;
    }
    total
}

/// How many wire coefficients the nets have in all.
fn coefficients_in_all(nets: &[NetPins], wires: &[KeptWire]) -> u128
    requires count { length wires.now ≡ length nets.now }
    requires few { couplings_sum wires.now ≤ most_couplings }
    ensures { result ≡ sum_by coefficients_of (plain_nets nets.now wires.now) }
{
    let mut total: u128 = 0;
    for (k, pins) in nets.iter().enumerate() {
        total += pins.sinks.len() as u128 * wires[k].coupling_count() as u128;
    }
    total
}

/// How many couplings the net of this number has.
fn couplings_of(wires: &[KeptWire], net: NetId) -> usize
    ensures { result ≡ couplings_in wires.now net.0 }
{
    match wires.get(net.0 as usize) {
        Some(wire) => wire.coupling_count(),
        None => 0,
    }
}

/// How many nets and couplings one evaluation of a net with `own` couplings and these arcs looks at.
fn reads_for(wires: &[KeptWire], own: usize, arcs: &[TimingArc]) -> u128
    ensures value { (d : Parts) → ((k : ℕ) → couplings_at d k ≡ couplings_in wires.now k)
        → result ≡ reads_by d own arcs.now }
    ensures most { result ≤ length arcs.now * 2 ^ 65 }
{
    if arcs.is_empty() {
        return 0;
    }
    let mut total = 1 + own as u128;
    for arc in arcs {
        total += 1 + couplings_of(wires, arc.from) as u128;
    }
    total
}

/// How many nets and couplings one evaluation of every net looks at.
fn reads_in_all(nets: &[NetPins], wires: &[KeptWire]) -> u128
    requires count { length wires.now ≡ length nets.now }
    requires few { arcs_sum nets.now ≤ most_arcs }
    ensures { (d : Parts) → d.nets ≡ plain_nets nets.now wires.now → result ≡ sum_by (reads_of d) d.nets }
{
    let mut total: u128 = 0;
    for (k, pins) in nets.iter().enumerate() {
        total += reads_for(wires, wires[k].coupling_count(), pins.arcs.as_slice());
    }
    total
}

/// Tests the sizes of a design up to its check points in the order of their limits, by the numbers of its arcs and of
/// its check points.
pub fn check_sizes(
    library: &Library,
    nets: &[NetPins],
    wires: &[KeptWire],
    counts: Counts,
) -> Result<(), LinkFault>
    requires { length wires.now ≡ length nets.now }
    ensures { Tests (sizes_fault (couplings_sum wires.now) (sum_by coefficients_of (plain_nets nets.now wires.now))
        counts.arcs (length library.now.tables) counts.checks) result }
{
    within(
        LimitKind::Couplings,
        couplings_in_all(wires),
        MOST_COUPLINGS,
    )?;
    let coefficients = coefficients_in_all(nets, wires);
    within(LimitKind::Coefficients, coefficients, MOST_COEFFICIENTS)?;
    within(LimitKind::Arcs, counts.arcs, MOST_ARCS)?;
    within(LimitKind::Tables, library.tables.len() as u128, MOST_TABLES)?;
    within(LimitKind::Checks, counts.checks, MOST_CHECKS)
}

/// Tests how many nets and couplings one evaluation of every net looks at.
pub fn check_reads(nets: &[NetPins], wires: &[KeptWire]) -> Result<(), LinkFault>
    requires count { length wires.now ≡ length nets.now }
    requires few { arcs_sum nets.now ≤ most_arcs }
    ensures { (d : Parts) → d.nets ≡ plain_nets nets.now wires.now → Tests (reads_fault d) result }
{
    within(LimitKind::Reads, reads_in_all(nets, wires), MOST_READS)
}
