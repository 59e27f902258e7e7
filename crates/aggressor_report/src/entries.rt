//! The entries of couplings that can change a victim's delay.

ghost use Rattle.std.specs.Prelude.{◌≡◌, ◌++◌, ◌<◌, if◌then◌else◌, [], ◌∷◌, length, IfOk, IsSome, OnOk};
ghost use Rattle.std.specs.List.{All, slice_get};
ghost use Rattle.aggressor_report.specs.Guilt.{coupling_of, guilty, is_guilty};
ghost use Rattle.aggressor_report.specs.Entries.{edge_guilty};

use crate::guilt::Guilt;
use std::alloc::{AllocError, Global};
use xt_model::{Design, Edge, NetId, NoMemory, Windows};

/// Appends an entry whose aggressor can do something.
fn push_entry(out: &mut Vec<Guilt>, entry: Guilt) -> Result<(), AllocError>
    ensures { OnOk result (out.new.items ≡ out.old.items ++ (if is_guilty entry then entry ∷ [] else [])) }
{
    if entry.is_guilty() {
        out.push(entry)?;
    }
    Ok(())
}

/// Appends the entries of an edge of a net.
fn push_edge(
    out: &mut Vec<Guilt>,
    design: &Design,
    low: &Windows,
    high: &Windows,
    victim: NetId,
    edge: Edge,
) -> Result<(), AllocError>
    requires low { length low.now ≡ length design.now.nets }
    requires high { length high.now ≡ length design.now.nets }
    requires victim { victim.0 < length design.now.nets }
    ensures { let net = slice_get design.now.nets victim.0 in
        OnOk result (out.new.items ≡ out.old.items ++ edge_guilty design.now low.now high.now victim edge net) }
{
    let net = &design.nets()[victim.0 as usize];
    let couplings = net.couplings.as_slice();
    for (number, coupling) in couplings.iter().enumerate() {
        push_entry(
            out,
            Guilt::new(design, low, high, victim, edge, number as u32, coupling),
        )?;
    }
    Ok(())
}

/// The couplings whose aggressor can change the delay of an edge of the victim, in the least windows of a design or in
/// its greatest, one pair a net: by victim, by edge, rise before fall, and by coupling. Takes time in proportion to the
/// nets and the couplings. Fails only for want of memory.
pub fn guilty(
    alloc: Global,
    design: &Design,
    low: &Windows,
    high: &Windows,
) -> Result<Vec<Guilt>, NoMemory>
    requires low { length low.now ≡ length design.now.nets }
    requires high { length high.now ≡ length design.now.nets }
    ensures entries { IfOk result (λ entries. entries.items ≡ guilty design.now low.now high.now) }
    ensures there { IfOk result (λ entries. All (λ g. IsSome (coupling_of design.now g)) entries.items) }
{
    let mut entries = Vec::new(alloc);
    for number in 0..design.nets().len() {
        let victim = NetId(number as u32);
        push_edge(&mut entries, design, low, high, victim, Edge::Rise)?;
        push_edge(&mut entries, design, low, high, victim, Edge::Fall)?;
    }
    Ok(entries)
}
