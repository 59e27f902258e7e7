//! The flat netlist of the top, one instance after another.

ghost use Rattle.std.specs.Prelude.{◌≡◌, ◌<◌, [], ◌∷◌, length, Ok, Err, MatchOption, IfOk, OnOk};
ghost use Rattle.hier_flatten.specs.Hierarchy.{HasHierarchy, links_of};
ghost use Rattle.hier_flatten.specs.Flat.{built, counts_of};
ghost use Rattle.hier_flatten.specs.Walk.{AreNested, AreLinked, AddedOn, Builds, work};

use crate::below::{Frame, add_cells, enter, enter_top};
use crate::growing::Growing;
use crate::index::{Index, Rest};
use crate::stack::Stack;
use crate::totals::Total;
use std::alloc::{AllocError, Global};
use verilog_net::Netlist;
use xt_model::LimitKind;

/// Goes on by the instances of a module at a path, which was taken from the stack, up to the first one of a module, and
/// by that one. Answers the limit that is passed.
fn step<'a, 'b>(
    alloc: Global,
    index: &'b Index<'a>,
    growing: &mut Growing,
    path: &mut Vec<u8>,
    stack: &mut Stack<Frame<'b>>,
    frame: Frame<'b>,
) -> Result<Option<LimitKind>, AllocError>
    requires path { length path.old.items ≡ frame.path }
    requires nested { AreNested frame.path stack.old }
    requires linked { AreLinked index.now (frame ∷ stack.old) }
    ensures goes { IfOk result (AddedOn index.entry.now (frame.entry ∷ stack.old) path.old.items growing.old
        stack.new path.new.items growing.new) }
    ensures nested { OnOk result (AreNested (length path.new.items) stack.new) }
    ensures linked { OnOk result (AreLinked index.entry.now stack.new) }
    ensures less { OnOk result
        (work index.entry.now (counts_of growing.new) stack.new
        < work index.entry.now (counts_of growing.old) (frame.entry ∷ stack.old)) }
{
    let (cells, next) = index.next(Rest {
        instances: frame.rest,
        links: frame.links,
    });
    add_cells(alloc, growing, path, &frame, cells)?;
    let Some(next) = next else {
        return Ok(None);
    };
    if let Some(what) = growing.limit() {
        return Ok(Some(what));
    }
    let below = enter(
        alloc,
        growing,
        path,
        &frame,
        next.instance,
        next.module,
        next.below.links,
    )?;
    stack.push(Frame {
        rest: next.more.instances,
        links: next.more.links,
        ..frame
    })?;
    stack.push(below)?;
    Ok(None)
}

/// Adds the flat nets and instances of the top, where there are none so far. Answers the limit that they pass.
fn add_all<'a, 'b>(
    alloc: Global,
    index: &'b Index<'a>,
    growing: &mut Growing,
    top: &'b Netlist,
    links: &'b [Option<usize>],
) -> Result<Option<LimitKind>, AllocError>
    requires growing { growing.old ≡ record { nets = []; instances = []; entered = 0 } }
    requires top { HasHierarchy index.now top.now.instances }
    requires links { links.now ≡ links_of index.now top.now.instances }
    ensures { let builds = Builds index.entry.now top.entry.now (built top.entry.now) in
        IfOk result (λ limit. MatchOption limit (builds (Ok growing.new)) (λ what. builds (Err what))) }
{
    let frame = enter_top(alloc, growing, top, links)?;
    let mut stack = Stack::new(alloc);
    stack.push(frame)?;
    let mut path = Vec::new(alloc);
    'frames: while let Some(frame) = stack.pop() {
        path.truncate(frame.path);
        if let Some(what) = step(alloc, index, growing, &mut path, &mut stack, frame)? {
            return Ok(Some(what));
        }
    }
    Ok(None)
}

/// The flat nets and instances of the top, with room for its `total`, or the limit that they pass.
pub fn build<'a, 'b>(
    alloc: Global,
    index: &'b Index<'a>,
    top: &'b Netlist,
    links: &'b [Option<usize>],
    total: Total,
) -> Result<Result<Growing, LimitKind>, AllocError>
    requires top { HasHierarchy index.now top.now.instances }
    requires links { links.now ≡ links_of index.now top.now.instances }
    ensures { IfOk result (Builds index.entry.now top.entry.now (built top.entry.now)) }
{
    let mut growing = Growing::with_room(alloc, top.nets.key(), total)?;
    match add_all(alloc, index, &mut growing, top, links)? {
        None => Ok(Ok(growing)),
        Some(what) => Ok(Err(what)),
    }
}
