ghost use Rattle.std.specs.Prelude.{◌≡◌, ◌↔◌, ◌-◌, ◌^◌, IsTrue, length, min};
ghost use Rattle.std.specs.List.{sum_by};
ghost use Rattle.xt_model.specs.Sound.{IsWithinLimits, coefficients_of, couplings_at, reads_by, reads_of};

use xt_model::limits::{
    MOST_ARCS, MOST_CHECKS, MOST_COEFFICIENTS, MOST_COUPLINGS, MOST_NETS, MOST_READS, MOST_TABLES,
};
use xt_model::{DesignParts, Net, NetId, TimingArc};

/// How many couplings the nets have in all, at most the greatest `usize`.
fn couplings_in_all(nets: &[Net]) -> usize
    ensures { result ≡ min (sum_by (λ n. length n.couplings) nets.now) (2 ^ 64 - 1) }
{
    let mut total: usize = 0;
    for net in nets {
        total = total.saturating_add(net.couplings.len());
    }
    total
}

/// How many wire coefficients the nets have in all, at most the greatest `usize`.
fn coefficients_in_all(nets: &[Net]) -> usize
    ensures { result ≡ min (sum_by coefficients_of nets.now) (2 ^ 64 - 1) }
{
    let mut total: usize = 0;
    for net in nets {
        total = total.saturating_add(net.sinks.len().saturating_mul(net.couplings.len()));
    }
    total
}

/// How many arcs the nets have in all, at most the greatest `usize`.
fn arcs_in_all(nets: &[Net]) -> usize
    ensures { result ≡ min (sum_by (λ n. length n.arcs) nets.now) (2 ^ 64 - 1) }
{
    let mut total: usize = 0;
    for net in nets {
        total = total.saturating_add(net.arcs.len());
    }
    total
}

/// How many couplings the net of this number has, 0 where there is no such net.
fn couplings_at(parts: &DesignParts, net: NetId) -> usize
    ensures { result ≡ couplings_at parts.now net.0 }
{
    match parts.nets.as_slice().get(net.0 as usize) {
        Some(net) => net.couplings.len(),
        None => 0,
    }
}

/// How many nets and couplings one evaluation of a net with `own` couplings and these arcs looks at, at
/// most the greatest `usize`. A source looks at none.
fn reads_by(parts: &DesignParts, own: usize, arcs: &[TimingArc]) -> usize
    ensures { result ≡ min (reads_by parts.now own arcs.now) (2 ^ 64 - 1) }
{
    if arcs.is_empty() {
        return 0;
    }
    let mut total = own.saturating_add(1);
    for arc in arcs {
        let read = couplings_at(parts, arc.from).saturating_add(1);
        total = total.saturating_add(read);
    }
    total
}

/// How many nets and couplings one evaluation of every net looks at, at most the greatest `usize`.
pub fn reads_in_all(parts: &DesignParts) -> usize
    ensures { result ≡ min (sum_by (reads_of parts.now) parts.now.nets) (2 ^ 64 - 1) }
{
    let mut total: usize = 0;
    for net in parts.nets.as_slice() {
        let reads = reads_by(parts, net.couplings.len(), net.arcs.as_slice());
        total = total.saturating_add(reads);
    }
    total
}

/// Whether the parts pass no limit on the size of a design.
pub(crate) fn is_within_limits(parts: &DesignParts) -> bool
    ensures { IsTrue result ↔ IsWithinLimits parts.now }
{
    parts.nets.len() <= MOST_NETS
        && parts.tables.len() <= MOST_TABLES
        && parts.checks.len() <= MOST_CHECKS
        && couplings_in_all(parts.nets.as_slice()) <= MOST_COUPLINGS
        && coefficients_in_all(parts.nets.as_slice()) <= MOST_COEFFICIENTS
        && arcs_in_all(parts.nets.as_slice()) <= MOST_ARCS
        && reads_in_all(parts) <= MOST_READS
}
