//! The generated design of a number and a count of nets.

ghost use Rattle.std.specs.Prelude.{◌≡◌, ℕ, ◌<◌, ◌≤◌, None, List, [], ◌∷◌, drop, IfOk};
ghost use Rattle.std.specs.Thread.{IsSync};
ghost use Rattle.xt_model.specs.Parts.{classical_parts};
ghost use Rattle.xt_model.specs.Sound.{IsSound};
ghost use Rattle.xt_model.specs.Levels.{IsLoop};
ghost use Rattle.design_gen.specs.Laws.{IsCount};
ghost use Rattle.design_gen.specs.Lists.{each_below};
ghost use Rattle.design_gen.specs.Generated.{delays, slews, generated, generated_net};

use crate::arcs::arcs;
use crate::drawn::Drawn;
use crate::drivers::sources;
use crate::nets::{couplings_of, net_name, sinks};
use crate::shares::{joined, part};
use crate::tables::tables;
use std::alloc::{AllocError, Global};
use std::mem;
use std::thread::{Threads, join};
use xt_model::{BuildFault, Design, GivenPair, Net, NoMemory, Row};

/// The net of this number.
fn net(alloc: Global, drawn: &Drawn, number: u32) -> Result<Net, AllocError>
    requires { number < drawn.now.nets }
    ensures { IfOk result (λ n. n ≡ generated_net drawn.now.number drawn.now.nets number) }
{
    let nets = drawn.nets();
    let pins = drawn.pins_on(number);
    let load = 2_000 + 1_000 * pins.len() as u32;
    let couplings = couplings_of(alloc, drawn.couplings(number))?;
    let sinks = sinks(alloc, nets, load, couplings.as_slice(), pins)?;
    Ok(Net {
        name: net_name(alloc, number)?,
        input: number < sources(nets),
        load: i64::from(load),
        given: GivenPair::new(alloc, drawn.given(number))?,
        couplings: Row::from_vec(couplings),
        sinks,
        arcs: arcs(alloc, drawn, number)?,
    })
}

/// The nets from number `from` to before number `to`, in a list with room for `room` nets.
fn nets_within(
    alloc: Global,
    drawn: &Drawn,
    from: u32,
    to: u32,
    room: u32,
) -> Result<Vec<Net>, AllocError>
    requires order { from ≤ to }
    requires end { to ≤ drawn.now.nets }
    ensures { IfOk result (λ nets.
        nets.items ≡ drop from (each_below (generated_net drawn.now.number drawn.now.nets) to)) }
{
    let mut nets = Vec::with_capacity(alloc, room as usize)?;
    for i in from..to {
        nets.push(net(alloc, drawn, i)?)?;
    }
    Ok(nets)
}

/// The nets from number `from` to before number `to`, in a list with room for `room` nets, a share of them made by each
/// of this many threads.
fn nets_by<R: Threads + Sync>(
    rt: &R,
    alloc: Global,
    drawn: &Drawn,
    from: u32,
    to: u32,
    room: u32,
    shares: u32,
) -> Result<Vec<Net>, AllocError>
    requires order { from ≤ to }
    requires end { to ≤ drawn.now.nets }
    ensures { IfOk result (λ nets.
        nets.items ≡ drop from (each_below (generated_net drawn.now.number drawn.now.nets) to)) }
{
    if shares <= 1 {
        return nets_within(alloc, drawn, from, to, room);
    }
    let some = shares / 2;
    let rest = shares - some;
    let middle = from + part(to - from, some, shares);
    let (left, right) = join(
        rt,
        move || -> Result<Vec<Net>, AllocError>
            requires { IsSync R.row × (from ≤ middle) × (middle ≤ drawn.now.nets) }
            ensures { IfOk result (λ nets. nets.items
                ≡ drop from (each_below (generated_net drawn.entry.now.number drawn.entry.now.nets) middle)) }
        { nets_by(rt, alloc, drawn, from, middle, room, some) },
        move || -> Result<Vec<Net>, AllocError>
            requires { IsSync R.row × (middle ≤ to) × (to ≤ drawn.now.nets) }
            ensures { IfOk result (λ nets. nets.items
                ≡ drop middle (each_below (generated_net drawn.entry.now.number drawn.entry.now.nets) to)) }
        { nets_by(rt, alloc, drawn, middle, to, to - middle, rest) },
    );
    joined(left, right)
}

/// The design of these nets, with the tables that every generated design has.
fn with_nets(alloc: Global, nets: Vec<Net>) -> Result<Design, NoMemory>
    requires sound { IsSound (classical_parts None (delays ∷ slews ∷ []) nets.items []) }
    requires acyclic { (path : List ℕ) → IsLoop nets.items path → ⊥ }
    ensures design { IfOk result (λ d. d ≡ classical_parts None (delays ∷ slews ∷ []) nets.items []) }
    ensures sound { IfOk result IsSound }
{
    let tables = tables(alloc)?;
    match Design::new(alloc, None, tables, nets, Vec::new(alloc)) {
        Ok(design) => Ok(design),
        Err(BuildFault::NoMemory) => Err(NoMemory),
        Err(BuildFault::Loop(_)) => unreachable!(),
    }
}

/// The generated design, of its nets.
fn with_generated(
    alloc: Global,
    number: u64,
    count: u32,
    nets: Vec<Net>,
) -> Result<Design, NoMemory>
    requires count { IsCount count }
    requires nets { nets.items ≡ each_below (generated_net number count) count }
    ensures design { IfOk result (λ d. d ≡ generated number count) }
    ensures sound { IfOk result IsSound }
{
    with_nets(alloc, nets)
}

/// All nets of the design.
fn all_nets(alloc: Global, number: u64, count: u32) -> Result<Vec<Net>, AllocError>
    requires { IsCount count }
    ensures { IfOk result (λ nets. nets.items ≡ each_below (generated_net number count) count) }
{
    let drawn = Drawn::new(alloc, number, count)?;
    nets_within(alloc, &drawn, 0, count, count)
}

/// All nets of the design, a share of them by each of this many threads, and what was drawn for them.
fn all_nets_by<R: Threads + Sync>(
    rt: &R,
    alloc: Global,
    number: u64,
    count: u32,
    shares: u32,
) -> Result<(Drawn, Vec<Net>), AllocError>
    requires { IsCount count }
    ensures { IfOk result (λ made. made.1.items ≡ each_below (generated_net number count) count) }
{
    let drawn = Drawn::new_by(rt, alloc, number, count, shares)?;
    let nets = nets_by(rt, alloc, &drawn, 0, count, count, shares)?;
    Ok((drawn, nets))
}

/// The design of this number and of 1 to 100,000 nets: a tenth of them sources with drawn windows, the others
/// driven by two-input cells from drawn nets below them, and each net paired with a drawn one by a coupling. Every
/// such design is sound. Takes time and memory in proportion to the nets.
pub fn generate(alloc: Global, number: u64, nets: u32) -> Result<Design, NoMemory>
    requires { IsCount nets }
    ensures design { IfOk result (λ d. d ≡ generated number nets) }
    ensures sound { IfOk result IsSound }
{
    let made = all_nets(alloc, number, nets)?;
    with_generated(alloc, number, nets, made)
}

/// The design that [`generate`] gives, by this many threads: at most two of them draw, and each makes a share of the
/// nets.
pub fn generate_by<R: Threads + Sync>(
    rt: &R,
    alloc: Global,
    number: u64,
    nets: u32,
    workers: u32,
) -> Result<Design, NoMemory>
    requires { IsCount nets }
    ensures design { IfOk result (λ d. d ≡ generated number nets) }
    ensures sound { IfOk result IsSound }
{
    let (drawn, made) = all_nets_by(rt, alloc, number, nets, workers)?;
    if workers <= 1 {
        mem::drop(drawn);
        return with_generated(alloc, number, nets, made);
    }
    let (_, design) = join(
        rt,
        move || mem::drop(drawn),
        move || -> Result<Design, NoMemory>
            requires { IsCount nets × (made.items ≡ each_below (generated_net number nets) nets) }
            ensures { IfOk result (λ d. (d ≡ generated number nets) × IsSound d) }
        { with_generated(alloc, number, nets, made) },
    );
    design
}
