//! The flat netlist as far as it is built.

ghost use Rattle.std.specs.Prelude.{◌≡◌, ◌<◌, ◌^◌, ◌++◌, ◌+◌, ◌∷◌, [], length, IfOk, OnOk, OnErr, None};
ghost use Rattle.hier_flatten.specs.Flat.{counts_of, limit_of, ranges_of};
ghost use Rattle.hier_flatten.specs.Names.{AreApart, IsTabled};

use crate::places::width_of;
use crate::tally::limit_after;
use crate::totals::Total;
use name_numbers::{NameTable, TextKey};
use std::alloc::{AllocError, Global};
use std::marker::Model;
use verilog_net::{Instance, Name, Net};
use xt_model::LimitKind;

/// The greatest number of nets that a netlist has names for.
const MOST_NAMES: usize = 4_294_967_295;

/// The flat nets and instances so far. `table` has the nets by name, as long as no two have one name; the first one
/// that has the name of an earlier one, and those after it, are in `more`. `ranges` has the ranges of the nets, `bits`
/// is how many bits they have, and `entered` how many instances of modules were met.
#[derive(Drop)]
pub struct Growing {
    table: NameTable<Net>,
    more: Vec<(Name, Net)>,
    instances: Vec<Instance>,
    ranges: Vec<Option<(u32, u32)>>,
    bits: u64,
    entered: u32,
}

impl Model for Growing {
    ghost use Rattle.std.specs.Prelude.{◌++◌};
    ghost use Rattle.hier_flatten.specs.Flat.{Flat};
    ghost use Rattle.hier_flatten.specs.Walk.{IsGrown};

    ghost Value = { Flat };

    ghost view = { λ g. record {
      nets = g.table ++ g.more.items;
      instances = g.instances.items;
      entered = g.entered;
    } };

    ghost invariant = { λ g. IsGrown g.table g.more.items g.ranges.items g.bits g.entered };
}

/// Notes a further net: in the table, unless it or one before it has the name of an earlier one.
fn put(
    alloc: Global,
    table: &mut NameTable<Net>,
    more: &mut Vec<(Name, Net)>,
    name: &[u8],
    net: Net,
) -> Result<(), AllocError>
    requires { AreApart table.old more.old.items }
    ensures apart { AreApart table.new more.new.items }
    ensures nets { OnOk result
        (table.new ++ more.new.items ≡ (table.old ++ more.old.items) ++ (name.now, net) ∷ []) }
    ensures unchanged { OnErr result ((table.new ≡ table.old) × (more.new.items ≡ more.old.items)) }
{
    if !more.as_slice().is_empty() || table.find(name).is_some() {
        more.push((Name::copied(alloc, name)?, net))?;
        return Ok(());
    }
    table.set(alloc, name, net)?;
    Ok(())
}

impl Growing {
    /// Nothing so far, with room for the instances of cells and the ranges of the nets that are in the total; names are
    /// hashed under this key.
    pub fn with_room(alloc: Global, key: TextKey, total: Total) -> Result<Growing, AllocError>
        ensures { IfOk result (λ g. g ≡ record { nets = []; instances = []; entered = 0 }) }
    {
        let instances = Vec::with_capacity(alloc, total.cells)?;
        let ranges = Vec::with_capacity(alloc, total.nets)?;
        Ok(Growing {
            table: NameTable::new(alloc, key),
            more: Vec::new(alloc),
            instances,
            ranges,
            bits: 0,
            entered: 0,
        })
    }

    /// The ranges of the nets.
    pub fn ranges(&self) -> &[Option<(u32, u32)>]
        ensures ranges { result.now ≡ ranges_of self.now.nets }
        ensures few { length result.now < 2 ^ 32 }
    {
        self.ranges.as_slice()
    }

    /// A further net.
    pub fn add_net(&mut self, alloc: Global, name: &[u8], net: Net) -> Result<(), AllocError>
        ensures { OnOk result (self.new ≡ record self.old { nets = self.old.nets ++ (name.now, net) ∷ [] }) }
    {
        if self.ranges.len() >= MOST_NAMES {
            return Err(AllocError);
        }
        self.ranges.push(net.range)?;
        match put(alloc, &mut self.table, &mut self.more, name, net) {
            Ok(()) => {
                self.bits += width_of(net.range);
                Ok(())
            }
            Err(error) => {
                let _ = self.ranges.pop();
                Err(error)
            }
        }
    }

    /// A further instance of a cell.
    pub fn add_instance(&mut self, instance: Instance) -> Result<(), AllocError>
        ensures { OnOk result (self.new ≡ record self.old { instances = self.old.instances ++ instance ∷ [] }) }
    {
        self.instances.push(instance)?;
        Ok(())
    }

    /// The limit that is passed where a further instance of a module is met.
    #[tactic(auto, unfolding(crate::specs::Flat::limit_of))]
    pub fn limit(&self) -> Option<LimitKind>
        ensures { result ≡ limit_of (counts_of self.now) }
    {
        let met = self.instances.len() as u64 + self.entered as u64;
        limit_after(met, self.bits)
    }

    /// Counts a further instance of a module.
    pub fn enter(&mut self)
        requires { limit_of (counts_of self.old) ≡ None }
        ensures { self.new ≡ record self.old { entered = self.old.entered + 1 } }
    {
        self.entered += 1;
    }

    /// A table of the nets, unless two have one name, and the instances.
    pub fn into_parts(self) -> (Option<NameTable<Net>>, Vec<Instance>)
        ensures nets { IsTabled self.nets result.0 }
        ensures instances { result.1.items ≡ self.instances }
    {
        let Growing {
            table,
            more,
            instances,
            ..
        } = self;
        if more.is_empty() {
            (Some(table), instances)
        } else {
            (None, instances)
        }
    }
}
