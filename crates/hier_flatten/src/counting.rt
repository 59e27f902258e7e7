//! Whether the flat netlist passes a limit, before anything of it is built.

ghost use Rattle.std.specs.Prelude.{◌≡◌, ◌<◌, ◌++◌, ◌∷◌, [], option_map, Err, IfSome, IfOk, OnOk};
ghost use Rattle.hier_flatten.specs.Hierarchy.{HasHierarchy, links_of};
ghost use Rattle.hier_flatten.specs.Flat.{built, own_at, own_nets, ranges_of};
ghost use Rattle.hier_flatten.specs.Walk.{AreLinked, Builds, CountedOn, Decides, work};

use crate::below::{Frame, frame_below, top_frame, wire_at};
use crate::index::{Index, Rest};
use crate::stack::Stack;
use crate::tally::Tally;
use crate::totals::Total;
use name_numbers::NameTable;
use std::alloc::{AllocError, Global};
use verilog_net::{Instance, Net, Netlist, Wire};
use xt_model::LimitKind;

/// Counts a net of a module below a path of this length, if it has no connection.
fn count_own(
    tally: &mut Tally,
    path: usize,
    net: Option<(&[u8], &Net)>,
    wire: Option<Wire>,
) -> Result<(), AllocError>
    ensures { OnOk result (tally.new ≡ record tally.old {
      ranges = tally.old.ranges ++ ranges_of (own_at [] (option_map (λ e. (e.0.now, e.1.now)) net.entry) wire);
    }) }
{
    if let (Some((name, net)), Some(Wire::Open)) = (net, wire) {
        tally.count_name(path.saturating_add(name.len()))?;
        tally.add_net(net.range)?;
    }
    Ok(())
}

/// Counts the nets of a module below a path of this length that have no connection.
fn count_nets(
    tally: &mut Tally,
    path: usize,
    nets: &NameTable<Net>,
    wires: &[Wire],
) -> Result<(), AllocError>
    ensures { OnOk result (tally.new ≡ record tally.old {
      ranges = tally.old.ranges ++ ranges_of (own_nets [] nets.now wires.now);
    }) }
{
    for number in 0..nets.len() {
        count_own(tally, path, nets.get(number), wire_at(wires, number))?;
    }
    Ok(())
}

/// Counts instances of cells below a path of this length, and their names.
fn count_names(tally: &mut Tally, path: usize, cells: &[Instance]) -> Result<(), AllocError>
    ensures { OnOk result (tally.new ≡ tally.old) }
{
    let mut rest = cells;
    'cells: while let [cell, more @ ..] = rest {
        tally.count_name(path.saturating_add(cell.name.bytes().len()))?;
        rest = more;
    }
    Ok(())
}

/// Counts the instances of a module at a path, which was taken from the stack, up to the first one of a module, and the
/// nets of its own that this one has. Answers the limit that is passed.
fn step<'a, 'b>(
    alloc: Global,
    index: &'b Index<'a>,
    tally: &mut Tally,
    stack: &mut Stack<Frame<'b>>,
    frame: Frame<'b>,
) -> Result<Option<LimitKind>, AllocError>
    requires { AreLinked index.now (frame ∷ stack.old) }
    ensures linked { OnOk result (AreLinked index.entry.now stack.new) }
    ensures goes { IfOk result (CountedOn index.entry.now frame.entry stack.old tally.old stack.new tally.new) }
    ensures less { OnOk result
        (work index.entry.now tally.new stack.new < work index.entry.now tally.old (frame.entry ∷ stack.old)) }
{
    let (cells, next) = index.next(Rest {
        instances: frame.rest,
        links: frame.links,
    });
    count_names(tally, frame.path, cells)?;
    tally.meet(cells.len())?;
    let Some(next) = next else {
        return Ok(None);
    };
    if let Some(what) = tally.limit() {
        return Ok(Some(what));
    }
    let (below, wires) = frame_below(
        alloc,
        tally.ranges(),
        &frame,
        next.instance,
        next.module,
        next.below.links,
    )?;
    tally.meet(1)?;
    count_nets(tally, below.path, &next.module.nets, wires.as_slice())?;
    stack.push(Frame {
        rest: next.more.instances,
        links: next.more.links,
        ..frame
    })?;
    stack.push(below)?;
    Ok(None)
}

/// Counts the flat netlist of the top. Answers the limit that it passes.
fn passed_limit<'a, 'b>(
    alloc: Global,
    index: &'b Index<'a>,
    top: &'b Netlist,
    links: &'b [Option<usize>],
    tally: &mut Tally,
) -> Result<Option<LimitKind>, AllocError>
    requires top { HasHierarchy index.now top.now.instances }
    requires links { links.now ≡ links_of index.now top.now.instances }
    requires tally { tally.old ≡ record { ranges = []; met = 0 } }
    ensures { IfOk result (Decides index.entry.now top.entry.now (built top.entry.now)) }
{
    let mut stack = Stack::new(alloc);
    let (frame, wires) = top_frame(alloc, top, links)?;
    count_nets(tally, frame.path, &top.nets, wires.as_slice())?;
    stack.push(frame)?;
    'frames: while let Some(frame) = stack.pop() {
        let passed = step(alloc, index, tally, &mut stack, frame)?;
        if passed.is_some() {
            return Ok(passed);
        }
    }
    Ok(None)
}

/// The limit that the flat netlist of the top passes, if it is not within all limits by the `total` of the top.
pub fn limit_ahead<'a, 'b>(
    alloc: Global,
    index: &'b Index<'a>,
    top: &'b Netlist,
    links: &'b [Option<usize>],
    total: Total,
) -> Result<Option<LimitKind>, AllocError>
    requires top { HasHierarchy index.now top.now.instances }
    requires links { links.now ≡ links_of index.now top.now.instances }
    ensures { IfOk result (λ o. IfSome o (λ what.
        Builds index.entry.now top.entry.now (built top.entry.now) (Err what))) }
{
    if total.is_within() {
        return Ok(None);
    }
    let mut tally = Tally::new(alloc, index.modules());
    passed_limit(alloc, index, top, links, &mut tally)
}
