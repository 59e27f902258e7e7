//! Modules by their names.

ghost use Rattle.std.specs.Prelude.{◌≡◌, ◌<◌, ◌≤◌, [], length, map, take, drop, option_map};
ghost use Rattle.std.specs.Prelude.{Some, None, MatchOption, IfOk, IfSome, OnOk};
ghost use Rattle.name_numbers.specs.Names.{value_of};
ghost use Rattle.hier_flatten.specs.Walk.{IsNext};
ghost use Rattle.std.specs.List.{slice_get};
ghost use Rattle.hier_flatten.specs.Hierarchy.{numbered, module_number, module_of, cells_in, links_of, cells_before};
ghost use Rattle.hier_flatten.specs.Tables.{IsTableOf};

use crate::tables::put_first;
use name_numbers::{Named, TextKey};
use std::alloc::{AllocError, Global};
use std::marker::Model;
use verilog_net::{Instance, Netlist};

/// The modules of a text, which are found by hash, and of each module's instances the numbers of their modules.
/// Contracts see the list of the modules.
#[derive(Drop)]
pub struct Index<'a> {
    modules: &'a [Netlist],
    numbers: Named<'a, usize>,
    links: Vec<Vec<Option<usize>>>,
}

impl<'a> Model for Index<'a> {
    ghost use Rattle.std.specs.Prelude.{List};
    ghost use Rattle.verilog_net.specs.declared.netlist.Netlist.{Netlist};
    ghost use Rattle.std.specs.Prelude.{map};
    ghost use Rattle.hier_flatten.specs.Tables.{IsIndexed};

    ghost Value = { List Netlist };

    ghost view = { λ x. x.modules.now };

    ghost invariant = { λ x. IsIndexed x.modules.now x.numbers (map (λ l. l.items) x.links.items) };
}

/// Instances that are left, with the numbers of their modules; one of a cell has none.
#[derive(Clone, Copy)]
pub struct Rest<'a> {
    pub instances: &'a [Instance],
    pub links: &'a [Option<usize>],
}

/// An instance of a module, its module, the instances of the module, and the instances after it.
#[derive(Clone, Copy)]
pub struct Next<'a> {
    pub instance: &'a Instance,
    pub module: &'a Netlist,
    pub below: Rest<'a>,
    pub more: Rest<'a>,
}

/// How many instances, each of a cell, come before the first one of a module.
fn cells_in(links: &[Option<usize>]) -> usize
    ensures count { result ≡ cells_in links.now }
    ensures within { result ≤ length links.now }
{
    let mut count: usize = 0;
    let mut rest = links;
    'links: while let [link, more @ ..] = rest {
        if link.is_some() {
            return count;
        }
        count += 1;
        rest = more;
    }
    count
}

/// Of each instance the number of its module.
fn links_of<'a>(
    alloc: Global,
    numbers: &Named<'a, usize>,
    instances: &'a [Instance],
) -> Result<Vec<Option<usize>>, AllocError>
    ensures { IfOk result (λ ls. ls.items ≡ map (λ i. value_of i.cell numbers.now) instances.entry.now) }
{
    let mut links = Vec::with_capacity(alloc, instances.len())?;
    let mut rest = instances;
    'instances: while let [instance, more @ ..] = rest {
        links.push(numbers.get(instance.cell.bytes()).copied())?;
        rest = more;
    }
    Ok(links)
}

/// The same for the instances of each module.
fn all_links<'a>(
    alloc: Global,
    numbers: &Named<'a, usize>,
    modules: &'a [Netlist],
) -> Result<Vec<Vec<Option<usize>>>, AllocError>
    ensures { IfOk result (λ ls. map (λ l. l.items) ls.items
        ≡ map (λ m. map (λ i. value_of i.cell numbers.now) m.instances) modules.entry.now) }
{
    let mut all = Vec::with_capacity(alloc, modules.len())?;
    let mut rest = modules;
    'modules: while let [module, more @ ..] = rest {
        all.push(links_of(alloc, numbers, module.instances.as_slice())?)?;
        rest = more;
    }
    Ok(all)
}

/// Notes the number of each module under its name.
fn note_modules<'a>(
    modules: &'a [Netlist],
    numbers: &mut Named<'a, usize>,
) -> Result<(), AllocError>
    requires { numbers.old ≡ [] }
    ensures { OnOk result (IsTableOf (numbered 0 modules.entry.now) numbers.new) }
{
    let mut number: usize = 0;
    let mut rest = modules;
    'modules: while let [module, more @ ..] = rest {
        let name = module.module.bytes();
        put_first(numbers, name, number)?;
        number += 1;
        rest = more;
    }
    Ok(())
}

/// The key of the names of a text.
fn key_of(modules: &[Netlist]) -> TextKey {
    match modules.first() {
        Some(module) => module.nets.key(),
        None => TextKey::of(b""),
    }
}

impl<'a> Index<'a> {
    /// An index of modules.
    pub fn new(alloc: Global, modules: &'a [Netlist]) -> Result<Index<'a>, AllocError>
        ensures { IfOk result (λ x. x ≡ modules.entry.now) }
    {
        let mut numbers = Named::new(alloc, key_of(modules));
        note_modules(modules, &mut numbers)?;
        let links = all_links(alloc, &numbers, modules)?;
        Ok(Index {
            modules,
            numbers,
            links,
        })
    }

    /// The key of the names of the modules' text.
    pub fn key(&self) -> TextKey {
        key_of(self.modules)
    }

    /// The modules.
    pub fn modules(&self) -> &'a [Netlist]
        ensures { result.now ≡ self.now }
    {
        self.modules
    }

    /// The number of the module with this name.
    pub fn number(&self, name: &'a [u8]) -> Option<usize>
        ensures value { result ≡ module_number self.now name.entry.now }
        ensures within { IfSome result (λ n. n < length self.now) }
    {
        self.numbers.get(name).copied()
    }

    /// The module with this name.
    pub fn find(&self, name: &'a [u8]) -> Option<&'a Netlist>
        ensures { option_map (λ m. m.now) result ≡ module_of self.now name.entry.now }
    {
        let number = self.number(name)?;
        self.modules.get(number)
    }

    /// Of each of these instances the number of its module.
    pub fn links(
        &self,
        alloc: Global,
        instances: &'a [Instance],
    ) -> Result<Vec<Option<usize>>, AllocError>
        ensures { IfOk result (λ ls. ls.items ≡ links_of self.now instances.entry.now) }
    {
        links_of(alloc, &self.numbers, instances)
    }

    /// The module of a number, and the numbers of its instances' modules.
    pub fn linked<'b>(&'b self, number: usize) -> Option<(&'b Netlist, &'b [Option<usize>])>
        ensures { MatchOption result (slice_get self.entry.now number ≡ None) (λ r. (slice_get self.entry.now number
            ≡ Some r.0.now) × (r.1.now ≡ links_of self.entry.now r.0.now.instances)) }
    {
        let module = self.modules.get(number)?;
        let links = self.links.get(number)?;
        Some((module, links.as_slice()))
    }

    /// The instances of cells before the next instance of a module, and that instance, where there is one.
    pub fn next<'b>(&'b self, rest: Rest<'b>) -> (&'b [Instance], Option<Next<'b>>)
        requires { rest.links.now ≡ links_of self.now rest.instances.now }
        ensures cells { result.0.now
            ≡ take (cells_before self.entry.now rest.entry.instances.now) rest.entry.instances.now }
        ensures next { let all = rest.entry.instances.now in let left = drop (cells_before self.entry.now all) all in
            MatchOption result.1 (left ≡ []) (IsNext self.entry.now left) }
    {
        let count = cells_in(rest.links);
        let (cells, instances) = rest.instances.split_at(count);
        let (_, links) = rest.links.split_at(count);
        let [instance, more @ ..] = instances else {
            return (cells, None);
        };
        let [link, further @ ..] = links else {
            return (cells, None);
        };
        let Some(number) = *link else {
            return (cells, None);
        };
        let Some((module, below)) = self.linked(number) else {
            return (cells, None);
        };
        let next = Next {
            instance,
            module,
            below: Rest {
                instances: module.instances.as_slice(),
                links: below,
            },
            more: Rest {
                instances: more,
                links: further,
            },
        };
        (cells, Some(next))
    }

    /// The instances of the module of this number.
    pub fn instances(&self, number: usize) -> &'a [Instance]
        ensures { IfSome (slice_get self.now number) (λ m. result.now ≡ m.instances) }
    {
        match self.modules.get(number) {
            Some(module) => module.instances.as_slice(),
            None => &[],
        }
    }
}
