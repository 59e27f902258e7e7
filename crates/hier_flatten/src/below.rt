//! What an instance adds to the flat netlist.

ghost use Rattle.std.specs.Prelude.{◌≡◌, ◌<◌, ◌+◌, ◌^◌, ℕ, List, ◌++◌, [], length, map, replicate};
ghost use Rattle.std.specs.Prelude.{option_map, option_to_list, None, IfOk, OnOk};
ghost use Rattle.std.specs.List.{slice_get};
ghost use Rattle.verilog_net.specs.declared.netlist.Wire.TheVariants.{Open};
ghost use Rattle.hier_flatten.specs.Flat.{own_at, own_nets, meant_from, prefix_below, flat_instance, wires_below};
ghost use Rattle.hier_flatten.specs.Flat.{counts_of, limit_of, ranges_of, entered_below, at_top, top_scope};
ghost use Rattle.hier_flatten.specs.Walk.{scope_at, scope_of, IsEntered};

use crate::growing::Growing;
use crate::wires::{flat_pins, pins_by_name, wires_of};
use name_numbers::NameTable;
use std::alloc::{AllocError, Global};
use verilog_net::{Instance, Name, Net, Netlist, PortRole, Wire};
use xt_model::Row;

/// A module at a path whose instances are being added: its nets, those of its instances that are left with the numbers
/// of their modules, how many bytes of the path are before its names, and what each of its nets is in the flat netlist.
#[derive(Drop)]
pub struct Frame<'a> {
    pub nets: &'a NameTable<Net>,
    pub rest: &'a [Instance],
    pub links: &'a [Option<usize>],
    pub path: usize,
    pub meant: Vec<Wire>,
}

/// A name below a path.
fn name_below(alloc: Global, path: &mut Vec<u8>, name: &[u8]) -> Result<Name, AllocError>
    ensures name { IfOk result (λ n. n ≡ path.old.items ++ name.now) }
    ensures kept { OnOk result (path.new.items ≡ path.old.items) }
{
    let before = path.len();
    path.extend_from_slice(name)?;
    let below = Name::copied(alloc, path.as_slice())?;
    path.truncate(before);
    Ok(below)
}

/// An instance of a cell below a path.
fn cell_below(
    alloc: Global,
    growing: &Growing,
    path: &mut Vec<u8>,
    frame: &Frame,
    instance: &Instance,
) -> Result<Instance, AllocError>
    requires { length path.old.items ≡ frame.now.path }
    ensures flat { let scope = scope_of path.old.items frame.now in
        IfOk result (λ i. i ≡ flat_instance (ranges_of growing.now.nets) scope instance.now) }
    ensures kept { OnOk result (path.new.items ≡ path.old.items) }
{
    let cell = instance.cell.shared()?;
    let name = name_below(alloc, path, instance.name.bytes())?;
    let pins = flat_pins(
        alloc,
        growing.ranges(),
        frame.nets,
        frame.meant.as_slice(),
        instance.pins.as_slice(),
    )?;
    Ok(Instance {
        cell,
        name,
        line: instance.line,
        pins: Row::from_vec(pins),
    })
}

/// Adds instances of cells below a path.
pub fn add_cells(
    alloc: Global,
    growing: &mut Growing,
    path: &mut Vec<u8>,
    frame: &Frame,
    cells: &[Instance],
) -> Result<(), AllocError>
    requires { length path.old.items ≡ frame.now.path }
    ensures cells { let made = flat_instance (ranges_of growing.old.nets) (scope_of path.old.items frame.now) in
        OnOk result (growing.new ≡ record growing.old {
          instances = growing.old.instances ++ map made cells.now;
        }) }
    ensures kept { OnOk result (path.new.items ≡ path.old.items) }
{
    let mut rest = cells;
    'cells: while let [instance, more @ ..] = rest {
        let cell = cell_below(alloc, growing, path, frame, instance)?;
        growing.add_instance(cell)?;
        rest = more;
    }
    Ok(())
}

/// What nets are in the flat netlist, by what they are connected to: those without a connection are numbered on from
/// `next`.
fn meant_of(alloc: Global, next: u32, wires: &[Wire]) -> Result<Vec<Wire>, AllocError>
    ensures { IfOk result (λ ws. ws.items ≡ meant_from next wires.now) }
{
    let mut meant = Vec::with_capacity(alloc, wires.len())?;
    let mut next = next;
    let mut rest = wires;
    'wires: while let [wire, more @ ..] = rest {
        match wire {
            Wire::Open => {
                meant.push(Wire::Whole { decl: next })?;
                let Some(after) = next.checked_add(1) else {
                    return Err(AllocError);
                };
                next = after;
            }
            wire => meant.push(*wire)?,
        }
        rest = more;
    }
    Ok(meant)
}

/// What the net of this number is connected to.
pub fn wire_at(wires: &[Wire], number: u32) -> Option<Wire>
    ensures { result ≡ slice_get wires.now number }
{
    wires.get(number as usize).copied()
}

/// Adds a net of a module at a path, if it has no connection.
fn add_own(
    alloc: Global,
    growing: &mut Growing,
    path: &mut Vec<u8>,
    net: Option<(&[u8], &Net)>,
    wire: Option<Wire>,
) -> Result<(), AllocError>
    ensures nets { OnOk result (growing.new ≡ record growing.old {
      nets = growing.old.nets ++ own_at path.old.items (option_map (λ e. (e.0.now, e.1.now)) net.entry) wire;
    }) }
    ensures kept { OnOk result (path.new.items ≡ path.old.items) }
{
    let (Some((name, net)), Some(Wire::Open)) = (net, wire) else {
        return Ok(());
    };
    let before = path.len();
    path.extend_from_slice(name)?;
    growing.add_net(
        alloc,
        path.as_slice(),
        Net {
            range: net.range,
            role: PortRole::Inner,
            declared: net.declared,
        },
    )?;
    path.truncate(before);
    Ok(())
}

/// Adds the nets of a module at a path that have no connection.
fn add_nets(
    alloc: Global,
    growing: &mut Growing,
    path: &mut Vec<u8>,
    nets: &NameTable<Net>,
    wires: &[Wire],
) -> Result<(), AllocError>
    ensures nets { OnOk result (growing.new ≡ record growing.old {
      nets = growing.old.nets ++ own_nets path.old.items nets.now wires.now;
    }) }
    ensures kept { OnOk result (path.new.items ≡ path.old.items) }
{
    for number in 0..nets.len() {
        add_own(
            alloc,
            growing,
            path,
            nets.get(number),
            wire_at(wires, number),
        )?;
    }
    Ok(())
}

/// How long a path is below an instance of this name.
fn deeper(path: usize, name: &[u8]) -> Result<usize, AllocError>
    ensures { IfOk result (λ n. n ≡ path + (length name.now + 1)) }
{
    match path.checked_add(name.len() + 1) {
        Some(longer) => Ok(longer),
        None => Err(AllocError),
    }
}

/// How many flat nets there are, by their ranges.
fn count_of(flat: &[Option<(u32, u32)>]) -> u32
    requires { length flat.now < 2 ^ 32 }
    ensures { result ≡ length flat.now }
{
    flat.len() as u32
}

/// What the nets of a module are connected to outside, at an instance of it. The nets that are flat so far have the
/// ranges `flat`.
fn wires_below<'a>(
    alloc: Global,
    flat: &[Option<(u32, u32)>],
    frame: &Frame<'a>,
    instance: &'a Instance,
    inner: &'a Netlist,
) -> Result<Vec<Wire>, AllocError>
    ensures { IfOk result (λ ws. (prefix : List ℕ) → ws.items
        ≡ wires_below flat.now (scope_at prefix frame.now) instance.entry.now inner.entry.now) }
{
    let pins = pins_by_name(alloc, frame.nets.key(), instance.pins.as_slice())?;
    let meant = frame.meant.as_slice();
    wires_of(alloc, flat, frame.nets, meant, &pins, &inner.nets)
}

/// The module at an instance, and what its nets are connected to outside. The nets that are flat so far have the
/// ranges `flat`.
pub fn frame_below<'a>(
    alloc: Global,
    flat: &[Option<(u32, u32)>],
    frame: &Frame<'a>,
    instance: &'a Instance,
    inner: &'a Netlist,
    links: &'a [Option<usize>],
) -> Result<(Frame<'a>, Vec<Wire>), AllocError>
    requires { length flat.now < 2 ^ 32 }
    ensures links { IfOk result (λ r. r.0.links.now ≡ links.entry.now) }
    ensures wires { IfOk result (λ r. (prefix : List ℕ) → r.1.items
        ≡ wires_below flat.now (scope_at prefix frame.now) instance.entry.now inner.entry.now) }
    ensures frame { IfOk result (λ r. (prefix : List ℕ) → length prefix ≡ frame.now.path
        → IsEntered flat.now (scope_at prefix frame.now) instance.entry.now inner.entry.now r.0) }
{
    let path = deeper(frame.path, instance.name.bytes())?;
    let wires = wires_below(alloc, flat, frame, instance, inner)?;
    let meant = meant_of(alloc, count_of(flat), wires.as_slice())?;
    let below = Frame {
        nets: &inner.nets,
        rest: inner.instances.as_slice(),
        links,
        path,
        meant,
    };
    Ok((below, wires))
}

/// The module at an instance that is met; its own nets are added, and the path leads to it.
pub fn enter<'a>(
    alloc: Global,
    growing: &mut Growing,
    path: &mut Vec<u8>,
    frame: &Frame<'a>,
    instance: &'a Instance,
    inner: &'a Netlist,
    links: &'a [Option<usize>],
) -> Result<Frame<'a>, AllocError>
    requires path { length path.old.items ≡ frame.now.path }
    requires limit { limit_of (counts_of growing.old) ≡ None }
    ensures path { OnOk result (path.new.items ≡ prefix_below path.old.items instance.entry.now.name) }
    ensures growing { OnOk result (growing.new
        ≡ entered_below growing.old (scope_of path.old.items frame.now) instance.entry.now inner.entry.now) }
    ensures frame { IfOk result (λ f. IsEntered (ranges_of growing.old.nets) (scope_of path.old.items frame.now)
        instance.entry.now inner.entry.now f) }
    ensures links { IfOk result (λ f. f.links.now ≡ links.entry.now) }
{
    growing.enter();
    let (below, wires) = frame_below(alloc, growing.ranges(), frame, instance, inner, links)?;
    path.extend_from_slice(instance.name.bytes())?;
    path.push(b'/')?;
    add_nets(alloc, growing, path, &inner.nets, wires.as_slice())?;
    Ok(below)
}

/// Adds a net of the top.
fn add_top_net(
    alloc: Global,
    growing: &mut Growing,
    net: Option<(&[u8], &Net)>,
) -> Result<(), AllocError>
    ensures { OnOk result (growing.new ≡ record growing.old {
      nets = growing.old.nets ++ option_to_list (option_map (λ e. (e.0.now, e.1.now)) net.entry);
    }) }
{
    if let Some((name, net)) = net {
        growing.add_net(alloc, name, *net)?;
    }
    Ok(())
}

/// Adds the nets of the top.
fn add_top(alloc: Global, growing: &mut Growing, nets: &NameTable<Net>) -> Result<(), AllocError>
    requires { growing.old.nets ≡ [] }
    ensures { OnOk result (growing.new ≡ record growing.old { nets = nets.now }) }
{
    for number in 0..nets.len() {
        add_top_net(alloc, growing, nets.get(number))?;
    }
    Ok(())
}

/// The top, each of whose nets is a net of its own, and what they are connected to: nothing.
pub fn top_frame<'a>(
    alloc: Global,
    top: &'a Netlist,
    links: &'a [Option<usize>],
) -> Result<(Frame<'a>, Vec<Wire>), AllocError>
    ensures links { IfOk result (λ r. r.0.links.now ≡ links.entry.now) }
    ensures frame { IfOk result (λ r. (scope_of [] r.0 ≡ top_scope top.entry.now)
        × (r.0.rest.now ≡ top.entry.now.instances) × (r.0.path ≡ 0)) }
    ensures wires { IfOk result (λ r. r.1.items ≡ replicate (length top.entry.now.nets) Open) }
{
    let unconnected = vec![in alloc; Wire::Open; top.nets.len() as usize]?;
    let meant = meant_of(alloc, 0, unconnected.as_slice())?;
    let frame = Frame {
        nets: &top.nets,
        rest: top.instances.as_slice(),
        links,
        path: 0,
        meant,
    };
    Ok((frame, unconnected))
}

/// The top; its nets are added.
pub fn enter_top<'a>(
    alloc: Global,
    growing: &mut Growing,
    top: &'a Netlist,
    links: &'a [Option<usize>],
) -> Result<Frame<'a>, AllocError>
    requires { growing.old ≡ record { nets = []; instances = []; entered = 0 } }
    ensures growing { OnOk result (growing.new ≡ at_top top.entry.now) }
    ensures links { IfOk result (λ f. f.links.now ≡ links.entry.now) }
    ensures frame { IfOk result (λ f. (scope_of [] f ≡ top_scope top.entry.now) × (f.rest.now ≡ top.entry.now.instances)
        × (f.path ≡ 0)) }
{
    let (frame, _) = top_frame(alloc, top, links)?;
    add_top(alloc, growing, &top.nets)?;
    Ok(frame)
}
