//! The nodes in the order of a walk, and the resistances that the paths to tap nodes have in common with the path
//! to a sink. In that order the first and the last of three nodes have in common the lesser of what each has in
//! common with the one between. So links from tap node to tap node give a sink's row in time in proportion to
//! the taps.

ghost use Rattle.std.specs.Prelude.{◌≡◌, ℕ, suc, ◌<◌, ◌≤◌, length, true, IfOk, slice_index, if◌then◌else◌, min};
ghost use Rattle.elmore_tree.specs.Walks.{is_visited};
ghost use Rattle.elmore_tree.specs.Orders.{IsPreorderWalk, AreTapped, ArePlaces, AreResistances, AreLinkedBack};
ghost use Rattle.elmore_tree.specs.Orders.{AreLinkedOn, IsTapOrder, IsRowFrom, IsRowOf, common};

use crate::reached::{Marks, mark_taps};
use crate::sums::resistance;
use crate::tree::Tree;
use crate::walk::Step;
use smallvec::SmallVec;
use std::alloc::{AllocError, Global};

/// A mark for each node that has a tap.
fn tapped_nodes(alloc: Global, tree: &Tree) -> Result<Marks, AllocError>
    ensures { IfOk result (λ marks. AreTapped tree.now marks.items) }
{
    let mut marks = SmallVec::from_elem(alloc, false, tree.nodes() as usize)?;
    mark_taps(&mut marks, tree.taps());
    Ok(marks)
}

/// The place of each visited node in the order of the walk; the root's is 0.
fn places(alloc: Global, tree: &Tree, steps: &[Step]) -> Result<Vec<usize>, AllocError>
    requires { IsPreorderWalk tree.now steps.now }
    ensures { IfOk result (λ places. ArePlaces tree.now steps.now (length steps.now) places.items) }
{
    let mut places = vec![in alloc; 0; tree.nodes() as usize]?;
    for (index, step) in steps.iter().enumerate() {
        places[step.to as usize] = index + 1;
    }
    Ok(places)
}

/// The resistance of the path to each visited node, in milliohms.
fn path_resistances(alloc: Global, tree: &Tree, steps: &[Step]) -> Result<Vec<u64>, AllocError>
    requires { IsPreorderWalk tree.now steps.now }
    ensures { IfOk result (λ sums. AreResistances tree.now steps.now (length steps.now) sums.items) }
{
    let mut sums = vec![in alloc; 0; tree.nodes() as usize]?;
    for step in steps {
        let sum = sums[step.from as usize] + resistance(tree, step.resistor);
        sums[step.to as usize] = sum;
    }
    Ok(sums)
}

/// A place, and the resistance common to the paths to the node there and to another, in milliohms.
#[derive(Clone, Copy, Debug, PartialEq, Eq)]
pub struct Link {
    pub place: usize,
    pub common: u64,
}

impl Link {
    /// The link from one place further: to the place that is left if it counts, else to where the link leads.
    fn further(self, counts: bool, left: usize, resistance: u64) -> Link
        ensures { result ≡ (if counts
            then record { place = left; common = resistance }
            else record { place = self.place; common = min self.common resistance }) }
    {
        if counts {
            Link {
                place: left,
                common: resistance,
            }
        } else {
            Link {
                place: self.place,
                common: self.common.min(resistance),
            }
        }
    }
}

/// For each place but the first a link back to the nearest tap node, or to the root.
fn links_back(
    alloc: Global,
    tree: &Tree,
    steps: &[Step],
    tapped: &[bool],
    resistances: &[u64],
) -> Result<Vec<Link>, AllocError>
    requires walk { IsPreorderWalk tree.now steps.now }
    requires tapped { AreTapped tree.now tapped.now }
    requires resistances { AreResistances tree.now steps.now (length steps.now) resistances.now }
    ensures { IfOk result (λ links. AreLinkedBack tree.now steps.now (length steps.now) links.items) }
{
    let none = Link {
        place: 0,
        common: 0,
    };
    let mut links = vec![in alloc; none; steps.len() + 1]?;
    let mut counts = true;
    for (index, step) in steps.iter().enumerate() {
        let link = links[index].further(counts, index, resistances[step.from as usize]);
        links[index + 1] = link;
        counts = tapped[step.to as usize];
    }
    Ok(links)
}

/// For each place a link on to the nearest tap node, or past the last place.
fn links_on(
    alloc: Global,
    tree: &Tree,
    steps: &[Step],
    tapped: &[bool],
    resistances: &[u64],
) -> Result<Vec<Link>, AllocError>
    requires walk { IsPreorderWalk tree.now steps.now }
    requires tapped { AreTapped tree.now tapped.now }
    requires resistances { AreResistances tree.now steps.now (length steps.now) resistances.now }
    ensures { IfOk result (λ links. AreLinkedOn tree.now steps.now 0 links.items) }
{
    let count = steps.len() + 1;
    let none = Link {
        place: count,
        common: 0,
    };
    let mut links = vec![in alloc; none; count]?;
    for index in (0..steps.len()).rev() {
        let step = steps[index];
        let link = links[index + 1].further(
            tapped[step.to as usize],
            index + 1,
            resistances[step.from as usize],
        );
        links[index] = link;
    }
    Ok(links)
}

/// Writes the common resistances of a place and of the tap nodes before it.
fn fill_back(tree: &Tree, steps: &[Step], links: &[Link], place: usize, own: u64, row: &mut [u64])
    requires walk { IsPreorderWalk tree.now steps.now }
    requires links { AreLinkedBack tree.now steps.now (length steps.now) links.now }
    requires there { place ≤ length steps.now }
    requires own { own ≡ common tree.now steps.now place place }
    requires count { length row.old ≡ suc (length steps.now) }
    ensures { IsRowFrom tree.now steps.now place 0 place row.new }
{
    row[place] = own;
    let mut at = place;
    let mut common = own;
    'back: while at > 0 {
        let link = links[at];
        common = common.min(link.common);
        at = link.place;
        row[at] = common;
    }
}

/// Writes the common resistances of the tap nodes after a place.
fn fill_on(tree: &Tree, steps: &[Step], links: &[Link], place: usize, own: u64, row: &mut [u64])
    requires walk { IsPreorderWalk tree.now steps.now }
    requires links { AreLinkedOn tree.now steps.now 0 links.now }
    requires there { place ≤ length steps.now }
    requires own { own ≡ common tree.now steps.now place place }
    requires before { IsRowFrom tree.now steps.now place 0 place row.old }
    ensures { IsRowFrom tree.now steps.now place 0 (length steps.now) row.new }
{
    let mut at = place;
    let mut common = own;
    'on: while links[at].place < row.len() {
        let link = links[at];
        common = common.min(link.common);
        at = link.place;
        row[at] = common;
    }
}

/// The places of the nodes in the order of a walk, the resistance of the path to each node, and links from each
/// place to the tap nodes next to it in that order.
#[derive(Drop)]
pub struct TapOrder {
    places: Vec<usize>,
    resistances: Vec<u64>,
    back: Vec<Link>,
    on: Vec<Link>,
}

impl TapOrder {
    /// Takes time and memory in proportion to the nodes and the taps.
    pub fn new(alloc: Global, tree: &Tree, steps: &[Step]) -> Result<TapOrder, AllocError>
        requires { IsPreorderWalk tree.now steps.now }
        ensures { IfOk result (λ o. IsTapOrder tree.now steps.now o) }
    {
        let tapped = tapped_nodes(alloc, tree)?;
        let resistances = path_resistances(alloc, tree, steps)?;
        let back = links_back(alloc, tree, steps, &tapped, &resistances)?;
        let on = links_on(alloc, tree, steps, &tapped, &resistances)?;
        let places = places(alloc, tree, steps)?;
        Ok(TapOrder {
            places,
            resistances,
            back,
            on,
        })
    }

    /// Writes at the place of each tap's node the resistance common to the paths to it and to a sink. Takes time
    /// in proportion to the taps.
    pub fn fill(&self, tree: &Tree, steps: &[Step], sink: u32, row: &mut [u64])
        requires walk { IsPreorderWalk tree.now steps.now }
        requires made { IsTapOrder tree.now steps.now self.now }
        requires there { sink < tree.now.nodes }
        requires visited { is_visited tree.now steps.now sink ≡ true }
        requires count { length row.old ≡ suc (length steps.now) }
        ensures { IsRowOf tree.now steps.now self.now sink row.new }
    {
        let place = self.places[sink as usize];
        let own = self.resistances[sink as usize];
        fill_back(tree, steps, &self.back, place, own, row);
        fill_on(tree, steps, &self.on, place, own, row);
    }

    /// The place of a node.
    pub fn place(&self, node: u32) -> usize
        requires { node < length self.now.places.items }
        ensures { result ≡ slice_index self.now.places.items node }
    {
        self.places[node as usize]
    }
}
