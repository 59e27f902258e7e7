//! For each net the nets whose coupling list has it.

ghost use Rattle.std.specs.Prelude.{◌≡◌, ◌<◌, length, map, IfOk, OnOk};
ghost use Rattle.std.specs.List.{All};
ghost use Rattle.net_eval.specs.ReadLists.{reads_of};
ghost use Rattle.chaos_core.specs.TurnMarks.{AreListed, AreMore, HasListed};

use std::alloc::{AllocError, Global};
use std::marker::Model;
use xt_model::{Coupling, Design, NetId, NoMemory};

/// A list of nets for each net.
#[derive(Drop)]
pub(crate) struct NetLists {
    rows: Vec<Vec<NetId>>,
}

impl Model for NetLists {
    ghost use Rattle.std.specs.Prelude.{List, map};
    ghost use Rattle.xt_model.specs.declared.net.NetId.{NetId};

    ghost Value = { List (List NetId) };

    ghost view = { λ r. map (λ row. row.items) r.rows.items };
}

impl NetLists {
    /// The list of a net.
    pub fn of(&self, net: NetId) -> &[NetId]
        requires { net.0 < length self.now }
        ensures { result.now ≡ reads_of self.now net.0 }
    {
        self.rows[net.0 as usize].as_slice()
    }
}

/// Appends a net to the list of a net.
fn push_one(rows: &mut [Vec<NetId>], to: NetId, own: NetId) -> Result<(), AllocError>
    requires { to.0 < length rows.old }
    ensures count { length rows.new ≡ length rows.old }
    ensures more { OnOk result (AreMore own.0 (map (λ row. row.items) rows.old) (map (λ row. row.items) rows.new)) }
    ensures there { OnOk result (HasListed (map (λ row. row.items) rows.new) to.0 own.0) }
{
    rows[to.0 as usize].push(own)?;
    Ok(())
}

/// Appends a net to the lists of all nets in its coupling list.
fn push_all(rows: &mut [Vec<NetId>], own: NetId, couplings: &[Coupling]) -> Result<(), AllocError>
    requires { All (λ k. k.to.0 < length rows.old) couplings.now }
    ensures count { length rows.new ≡ length rows.old }
    ensures more { OnOk result (AreMore own.0 (map (λ row. row.items) rows.old) (map (λ row. row.items) rows.new)) }
    ensures there { OnOk result
        (All (λ k. HasListed (map (λ row. row.items) rows.new) k.to.0 own.0) couplings.now) }
{
    for coupling in couplings {
        push_one(rows, coupling.to, own)?;
    }
    Ok(())
}

/// For each net of a design the nets whose coupling list has it, in one pass over the couplings.
pub(crate) fn listed(alloc: Global, design: &Design) -> Result<NetLists, NoMemory>
    ensures { IfOk result (AreListed design.now) }
{
    let mut rows = Vec::with_capacity(alloc, design.nets().len())?;
    for _net in 0..design.nets().len() {
        rows.push(Vec::new(alloc))?;
    }
    for number in 0..design.nets().len() as u32 {
        let couplings = design.net(number as usize).couplings.as_slice();
        push_all(rows.as_mut_slice(), NetId(number), couplings)?;
    }
    Ok(NetLists { rows })
}
