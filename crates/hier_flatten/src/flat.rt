//! From the modules of a text to one flat netlist.

ghost use Rattle.std.specs.Prelude.{◌≡◌, ℕ, Some, None, IfOk};
ghost use Rattle.std.specs.List.{All};
ghost use Rattle.hier_flatten.specs.Fits.{misfit};
ghost use Rattle.hier_flatten.specs.Hierarchy.{IsFinite, links_of, top_of};
ghost use Rattle.hier_flatten.specs.Meaning.{FlatMeans, AnswersFlat};
ghost use Rattle.verilog_net.specs.Sound.{IsSoundModule, IsSoundNetlist};

use crate::build::build;
use crate::circle::contains_itself;
use crate::counting::limit_ahead;
use crate::fault::FlatFault;
use crate::fits::misfit;
use crate::index::Index;
use crate::names::with_names;
use crate::plain::have_plain_names;
use crate::tops::top_of;
use crate::totals::{Total, total_of};
use std::alloc::Global;
use std::mem;
use verilog_net::{Modules, Netlist};
use xt_model::Code;

/// The flat netlist of the top with these links of its instances and this total, where it is within the limits and its
/// names are in order.
fn flatten_linked<'a, 'b>(
    alloc: Global,
    index: &'b Index<'a>,
    top: &'b Netlist,
    links: &'b [Option<usize>],
    total: Total,
    last_line: u32,
) -> Result<Netlist, FlatFault>
    requires fits { misfit index.now ≡ None }
    requires ends { (number : ℕ) → IsFinite index.now number }
    requires top { top_of index.now ≡ Some top.now }
    requires links { links.now ≡ links_of index.now top.now.instances }
    ensures { AnswersFlat result (FlatMeans index.entry.now last_line) }
{
    if let Some(what) = limit_ahead(alloc, index, top, links, total)? {
        return Err(FlatFault::Limit { what });
    }
    let apart = have_plain_names(alloc, index.key(), index.modules())?;
    match build(alloc, index, top, links, total)? {
        Ok(flat) => with_names(alloc, top, flat, apart, last_line),
        Err(what) => Err(FlatFault::Limit { what }),
    }
}

/// The flat netlist of the top of modules that all fit, none of which contains itself; `order` has each after those
/// below it.
fn flatten_top<'a>(
    alloc: Global,
    index: &Index<'a>,
    order: &[usize],
    top: &'a Netlist,
    last_line: u32,
) -> Result<Netlist, FlatFault>
    requires fits { misfit index.now ≡ None }
    requires ends { (number : ℕ) → IsFinite index.now number }
    requires top { top_of index.now ≡ Some top.now }
    ensures { AnswersFlat result (FlatMeans index.now last_line) }
{
    let total = total_of(alloc, index, order, top.module.bytes())?;
    let links = index.links(alloc, top.instances.as_slice())?;
    flatten_linked(alloc, index, top, links.as_slice(), total, last_line)
}

/// The flat netlist of the modules of an index.
#[tactic(auto, unfolding(crate::specs::Meaning::FlatMeans))]
fn flatten_index(alloc: Global, index: &Index, last_line: u32) -> Result<Netlist, FlatFault>
    ensures { AnswersFlat result (FlatMeans index.now last_line) }
{
    if let Some(line) = misfit(index) {
        return Err(FlatFault::Refused {
            line,
            code: Code::V7,
        });
    }
    let mut order = Vec::new(alloc);
    if contains_itself(alloc, index, &mut order)? {
        return Err(FlatFault::Refused {
            line: 1,
            code: Code::V8,
        });
    }
    let Some(top) = top_of(alloc, index)? else {
        return Err(FlatFault::Refused {
            line: last_line,
            code: Code::V9,
        });
    };
    flatten_top(alloc, index, order.as_slice(), top, last_line)
}

/// The flat netlist of the modules of a text, whose last line is `last_line`: of the one module that no instance is
/// of, with each instance of a module in the place of what is below it.
///
/// Its nets are those of the top, then for each instance of a module, in the order of the text, the flat nets of that
/// instance. There a port without a connection is an inner net. Another port adds no net: it is what it is connected
/// to, bit for bit from the left bounds on. A name below the top is the names of the instances that lead to it and its
/// own, joined by `/`. Ports are those of the top.
///
/// Refused are, in this order: `V7`, at an instance's line, a whole bus at an instance of a cell, and at an instance of
/// a module a pin that is no port of the module, or a connection of another width; `V8`, at line 1, a module that
/// contains itself at some depth; `V9`, at the last line, modules of which not exactly one is instanced by none; the
/// limits of instances and nets, which are 262,144 of each (nets by bits), as each instance of a module is met; `V5`,
/// at the last line, two nets, two bits or two instances with one name; `V1`, at the last line, a name of more than
/// 1,024 bytes. Before anything is built the modules are summed up, and where the sums pass a limit the flat netlist is
/// counted first; of sound modules one that passes a limit is not built. Where a name has more than 1,024 bytes, and
/// all names of nets and of instances of cells together have more than 64 MB and four times the bytes of the text, that
/// is want of memory, before any of them is made. The bytes of the text are taken as those that it has at least: of the
/// names of modules, of their nets, of their instances and of the pins of these, each pin with four marks and each
/// instance with two. Takes time linear in the modules and in the flat netlist, where an instance of a module counts
/// with the declarations of the module and its own pins, and memory linear in the same.
///
/// Of sound modules, as `read_modules` gives them, the flat netlist is sound: its names have 1 to 1,024 bytes, and no
/// two of its bits have one name.
pub fn flatten(alloc: Global, modules: &Modules, last_line: u32) -> Result<Netlist, FlatFault>
    ensures value { AnswersFlat result (FlatMeans modules.now.list last_line) }
    ensures sound { All IsSoundModule modules.now.list → IfOk result IsSoundNetlist }
{
    let index = Index::new(alloc, modules.list.as_slice())?;
    let flat = flatten_index(alloc, &index, last_line);
    mem::drop(index);
    flat
}
