//! The read lists of a design: which nets the operator looks at for each net.

ghost use Rattle.std.specs.Prelude.{◌≡◌, ℕ, ◌++◌, ◌<◌, ◌≤◌, length, Some, IfOk, OnOk};
ghost use Rattle.std.specs.List.{slice_get};
ghost use Rattle.xt_model.specs.Sound.{IsSoundNet};
ghost use Rattle.xt_meaning.specs.Reads.{IsReadList};
ghost use Rattle.net_eval.specs.ReadLists.{AreReadLists, HasGained, HasLooked, around, ids, reads_of};

use std::alloc::{AllocError, Global};
use xt_model::{Design, Net, NetId, NoMemory, Row, TimingArc};

/// For each net of a design the nets that the operator looks at for it, in order of number, each once.
/// A net without arcs has an empty list.
#[derive(Debug, Drop)]
pub struct ReadLists {
    lists: Row<Row<NetId>>,
}

/// The length of the longest of several lists, 0 for none.
fn longest(lists: &[Row<NetId>]) -> usize
    ensures most { (net : ℕ) → length (reads_of lists.now net) ≤ result }
    ensures one { (net : ℕ) × (length (reads_of lists.now net) ≡ result) }
{
    let mut longest = 0;
    for list in lists {
        if list.len() > longest {
            longest = list.len();
        }
    }
    longest
}

impl std::marker::Model for ReadLists {
    ghost use Rattle.std.specs.Prelude.{List};
    ghost use Rattle.xt_model.specs.declared.net.NetId.{NetId};

    ghost Value = { List (List NetId) };

    ghost view = { λ r. r.lists };
}

impl ReadLists {
    /// The read list of a net.
    pub fn of(&self, net: NetId) -> &[NetId]
        requires { net.0 < length self.now }
        ensures { result.now ≡ reads_of self.now net.0 }
    {
        self.lists.as_slice()[net.0 as usize].as_slice()
    }

    /// How many lists there are, one for each net.
    pub fn count(&self) -> usize
        ensures { result ≡ length self.now }
    {
        self.lists.len()
    }

    /// The length of the longest list, 0 for none.
    pub fn longest(&self) -> usize
        ensures most { (net : ℕ) → length (reads_of self.now net) ≤ result }
        ensures one { (net : ℕ) × (length (reads_of self.now net) ≡ result) }
    {
        longest(self.lists.as_slice())
    }
}

/// Appends the number of a net and those of the nets in its coupling list.
fn push_around(numbers: &mut Vec<u32>, own: u32, net: &Net) -> Result<(), AllocError>
    ensures { OnOk result (numbers.new.items ≡ numbers.old.items ++ around own net.now) }
{
    numbers.push(own)?;
    for coupling in net.couplings.as_slice() {
        numbers.push(coupling.to.0)?;
    }
    Ok(())
}

/// Appends the numbers around the input net of an arc.
fn push_input(numbers: &mut Vec<u32>, design: &Design, arc: &TimingArc) -> Result<(), AllocError>
    requires { arc.now.from.0 < length design.now.nets }
    ensures { OnOk result (HasGained design.now arc.now numbers.old.items numbers.new.items) }
{
    let input = arc.from.0;
    push_around(numbers, input, design.net(input as usize))
}

/// Makes numbers those of what the operator looks at for net number `own`, which is `net`, in the order of its arcs and
/// with repeats. Where several arcs in a row come from one net, its surroundings are appended once.
fn look_at(numbers: &mut Vec<u32>, design: &Design, own: u32, net: &Net) -> Result<(), AllocError>
    requires there { slice_get design.now.nets own ≡ Some net.now }
    requires sound { IsSoundNet design.now own net.now }
    ensures { OnOk result (HasLooked design.now own net.now numbers.new.items (length net.now.arcs)) }
{
    numbers.clear();
    if net.arcs.len() == 0 {
        return Ok(());
    }
    push_around(numbers, own, net)?;
    let mut last = own;
    for arc in net.arcs.as_slice() {
        if arc.from.0 == last {
            continue;
        }
        push_input(numbers, design, arc)?;
        last = arc.from.0;
    }
    Ok(())
}

/// The nets of these numbers.
fn nets_of(alloc: Global, numbers: &[u32]) -> Result<Vec<NetId>, AllocError>
    ensures { IfOk result (λ nets. ids nets.items ≡ numbers.now) }
{
    let mut nets = Vec::with_capacity(alloc, numbers.len())?;
    for number in numbers {
        nets.push(NetId(*number))?;
    }
    Ok(nets)
}

/// The read list of net number `own`, gathered in a vector that other nets use after it.
fn read_list(
    alloc: Global,
    design: &Design,
    own: u32,
    numbers: &mut Vec<u32>,
) -> Result<Row<NetId>, AllocError>
    requires { own < length design.now.nets }
    ensures { IfOk result (λ reads. IsReadList design.now own (ids reads)) }
{
    look_at(numbers, design, own, design.net(own as usize))?;
    numbers.sort_unstable();
    numbers.dedup();
    let nets = nets_of(alloc, numbers.as_slice())?;
    Ok(Row::from_vec(nets))
}

/// The read list of each net, in one pass over the nets. Each list is gathered with its repeats, whose number
/// the limit of reads bounds, and sorted.
pub fn read_lists(alloc: Global, design: &Design) -> Result<ReadLists, NoMemory>
    ensures { IfOk result (λ lists. AreReadLists design.now lists) }
{
    let mut numbers = Vec::new(alloc);
    let mut lists = Vec::with_capacity(alloc, design.nets().len())?;
    for own in 0..design.nets().len() as u32 {
        lists.push(read_list(alloc, design, own, &mut numbers)?)?;
    }
    Ok(ReadLists {
        lists: Row::from_vec(lists),
    })
}
