//! The level of each net, by a walk against the arcs from every net. The path of the walk is kept as a
//! list, so a long chain of nets takes no deep recursion, and each arc is looked at a fixed number of times.

ghost use Rattle.std.specs.Prelude.{◌≡◌, ◌≢◌, ℕ, ◌+◌, ◌*◌, ◌-◌, ◌<◌, ◌≤◌, length, take, drop, replicate, List, []};
ghost use Rattle.std.specs.Prelude.{slice_index, IfSome, MatchOption, IfOk, IfErr, OnOk, map};
ghost use Rattle.std.specs.List.{All, slice_get};
ghost use Rattle.xt_model.specs.Build.{IsFaultOf};
ghost use Rattle.xt_model.specs.Limits.{most_nets};
ghost use Rattle.xt_model.specs.Levels.{AreLevels, level_from, greatest_of};
ghost use Rattle.xt_model.specs.visits.Walk.{AreInputsThere, HaveLevels, IsWalkOf, HasLessLeft, KeepsLevels};
ghost use Rattle.xt_model.specs.visits.Walk.{HasInputs, HasLevelsBelow, WaitsAt, WaitsFor, last_of};

use crate::fault::BuildFault;
use crate::net::{Net, NetId, TimingArc};
use crate::row::Row;
use std::alloc::{AllocError, Global};

/// How far the walk has come: for each net its level, 0 while that is not known; the number of its first
/// arc whose input may have no level yet; and 1 more than its place on the path, 0 before it comes there.
/// On the path each net waits for the level of the next.
#[derive(Drop)]
struct Walk {
    levels: Vec<u32>,
    cursors: Vec<usize>,
    places: Vec<usize>,
    path: Vec<u32>,
}

/// The number of the first arc from `start` on whose input has no level yet, or the number of arcs.
fn first_waiting(arcs: &[TimingArc], levels: &[u32], start: usize) -> usize
    requires inputs { All (λ a. a.from.0 < length levels.now) arcs.now }
    requires within { start ≤ length arcs.now }
    requires before { HaveLevels levels.now (take start arcs.now) }
    ensures within { result ≤ length arcs.now }
    ensures before { HaveLevels levels.now (take result arcs.now) }
    ensures waits { result < length arcs.now → WaitsAt arcs.now levels.now result }
{
    for i in start..arcs.len() {
        if levels[arcs[i].from.0 as usize] == 0 {
            return i;
        }
    }
    arcs.len()
}

/// 1 more than the greatest level of the arcs' inputs.
fn level_above(arcs: &[TimingArc], levels: &[u32]) -> u32
    requires inputs { All (λ a. a.from.0 < length levels.now) arcs.now }
    requires most { (i : ℕ) → slice_index levels.now i ≤ most_nets }
    ensures { result ≡ level_from levels.now arcs.now }
{
    let mut greatest = 0;
    for arc in arcs {
        let level = levels[arc.from.0 as usize];
        if level > greatest {
            greatest = level;
        }
    }
    greatest + 1
}

/// Nets by their numbers.
fn ids_of(alloc: Global, numbers: &[u32]) -> Result<Row<NetId>, AllocError>
    ensures { IfOk result (λ ids. map (λ n. n.0) ids ≡ numbers.now) }
{
    let mut ids = Vec::new(alloc);
    for number in numbers {
        ids.push(NetId(*number))?;
    }
    Ok(Row::from_vec(ids))
}

impl Walk {
    fn new(alloc: Global, count: usize) -> Result<Walk, AllocError>
        ensures levels { IfOk result (λ w. w.levels.items ≡ replicate count 0) }
        ensures cursors { IfOk result (λ w. w.cursors.items ≡ replicate count 0) }
        ensures places { IfOk result (λ w. w.places.items ≡ replicate count 0) }
        ensures path { IfOk result (λ w. w.path.items ≡ []) }
    {
        let levels = vec![in alloc; 0; count]?;
        let cursors = vec![in alloc; 0; count]?;
        let places = vec![in alloc; 0; count]?;
        let path = Vec::new(alloc);
        Ok(Walk {
            levels,
            cursors,
            places,
            path,
        })
    }

    /// Puts a net that was never on the path at its end.
    fn enter(&mut self, nets: &[Net], net: u32) -> Result<(), AllocError>
        requires walk { IsWalkOf nets.now self.old }
        requires there { net < length nets.now }
        requires waits { slice_index self.old.levels.items net ≡ 0 }
        requires fresh { slice_index self.old.places.items net ≡ 0 }
        requires begins { length self.old.path.items ≡ 0 → HasLevelsBelow self.old net }
        requires follows { 0 < length self.old.path.items → WaitsFor nets.now self.old net }
        ensures walk { OnOk result (IsWalkOf nets.now self.new) }
        ensures levels { self.new.levels.items ≡ self.old.levels.items }
        ensures less { OnOk result (HasLessLeft self.new self.old) }
    {
        self.path.push(net)?;
        self.places[net as usize] = self.path.len();
        Ok(())
    }

    /// Gives the net at the end of the path its level, and takes it off.
    fn leave(&mut self, nets: &[Net], net: u32)
        requires walk { IsWalkOf nets.now self.old }
        requires inputs { AreInputsThere nets.now }
        requires few { length nets.now ≤ most_nets }
        requires some { 0 < length self.old.path.items }
        requires last { net ≡ last_of self.old.path.items }
        requires known { HasInputs nets.now self.old net }
        ensures walk { IsWalkOf nets.now self.new }
        ensures keeps { KeepsLevels self.old self.new }
        ensures less { HasLessLeft self.new self.old }
    {
        let level = level_above(nets[net as usize].arcs.as_slice(), &self.levels);
        self.levels[net as usize] = level;
        self.path.pop();
    }
}

impl Walk {
    /// The next input without a level of the net at the end of the path, after which the net's cursor is.
    fn next_input(&mut self, nets: &[Net], net: u32) -> Option<u32>
        requires walk { IsWalkOf nets.now self.old }
        requires inputs { AreInputsThere nets.now }
        requires some { 0 < length self.old.path.items }
        requires last { net ≡ last_of self.old.path.items }
        ensures walk { IsWalkOf nets.now self.new }
        ensures levels { self.new.levels.items ≡ self.old.levels.items }
        ensures places { self.new.places.items ≡ self.old.places.items }
        ensures path { self.new.path.items ≡ self.old.path.items }
        ensures next { MatchOption result (HasInputs nets.now self.old net) (WaitsFor nets.now self.new) }
    {
        let arcs = nets[net as usize].arcs.as_slice();
        let next = first_waiting(arcs, &self.levels, self.cursors[net as usize]);
        self.cursors[net as usize] = next;
        if next < arcs.len() {
            Some(arcs[next].from.0)
        } else {
            None
        }
    }

    /// Puts an input of the net at the end of the path there, or finds it on the path.
    fn wait_for(&mut self, alloc: Global, nets: &[Net], input: u32) -> Result<(), BuildFault>
        requires walk { IsWalkOf nets.now self.old }
        requires some { 0 < length self.old.path.items }
        requires waits { WaitsFor nets.now self.old input }
        ensures walk { OnOk result (IsWalkOf nets.now self.new) }
        ensures levels { self.new.levels.items ≡ self.old.levels.items }
        ensures less { OnOk result (HasLessLeft self.new self.old) }
        ensures fault { IfErr result (IsFaultOf nets.now) }
    {
        let place = self.places[input as usize];
        if place > 0 {
            let ids = ids_of(alloc, &self.path[place - 1..])?;
            return Err(BuildFault::Loop(ids));
        }
        self.enter(nets, input)?;
        Ok(())
    }

    /// Moves the walk on by one net: onto the path, or off it with its level. `root` is where a path begins.
    fn step(&mut self, alloc: Global, nets: &[Net], root: u32) -> Result<(), BuildFault>
        requires walk { IsWalkOf nets.now self.old }
        requires inputs { AreInputsThere nets.now }
        requires few { length nets.now ≤ most_nets }
        requires there { root < length nets.now }
        requires waits { slice_index self.old.levels.items root ≡ 0 }
        requires begins { HasLevelsBelow self.old root }
        ensures walk { OnOk result (IsWalkOf nets.now self.new) }
        ensures keeps { OnOk result (KeepsLevels self.old self.new) }
        ensures less { OnOk result (HasLessLeft self.new self.old) }
        ensures fault { IfErr result (IsFaultOf nets.now) }
    {
        if self.path.is_empty() {
            self.enter(nets, root)?;
            return Ok(());
        }
        let net = self.path[self.path.len() - 1];
        match self.next_input(nets, net) {
            Some(input) => self.wait_for(alloc, nets, input),
            None => {
                self.leave(nets, net);
                Ok(())
            }
        }
    }
}

/// The level of each net, or the loop that their arcs make.
pub fn find_levels(alloc: Global, nets: &[Net]) -> Result<Vec<u32>, BuildFault>
    requires inputs { AreInputsThere nets.now }
    requires few { length nets.now ≤ most_nets }
    ensures levels { IfOk result (λ v. AreLevels nets.now v.items) }
    ensures most { IfOk result (λ v. greatest_of v.items ≤ length nets.now) }
    ensures fault { IfErr result (IsFaultOf nets.now) }
{
    let mut walk = Walk::new(alloc, nets.len())?;
    for root in 0..nets.len() {
        'steps: while walk.levels[root] == 0 {
            walk.step(alloc, nets, root as u32)?;
        }
    }
    let Walk { levels, .. } = walk;
    Ok(levels)
}
