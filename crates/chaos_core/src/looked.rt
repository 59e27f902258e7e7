//! What a look at words found, for the workers of the round after it: a net that is steady there need not be evaluated
//! where the numbers loaded for it are those that the look found.

ghost use Rattle.std.specs.Prelude.{◌≡◌, ℕ, ◌+◌, ◌*◌, ◌<◌, ◌≤◌, false, length, slice_index, IfSome, IsTrue};
ghost use Rattle.std.specs.List.{All, slice_index_or};
ghost use Rattle.xt_model.specs.Quads.{IsPairInRange};
ghost use Rattle.xt_meaning.specs.Words.{number_for};
ghost use Rattle.table_box.specs.Groups.{AreGroups};
ghost use Rattle.net_eval.specs.ReadLists.{AreReadLists, ids, reads_of};
ghost use Rattle.chaos_core.specs.Tasks.{bound_at, evaluated, list_of};
ghost use Rattle.chaos_core.specs.Views.{IsLoaded};
ghost use Rattle.chaos_core.specs.Looks.{AreNumbersOf, IsLook};

use crate::loaded::evaluate_grouped;
use crate::words::number_in;
use net_eval::ReadLists;
use xt_model::{Design, NetId, Pair, Windows};

/// The windows that a look found in words, and a mark for each net. The operator gives the windows of each marked net
/// back.
#[derive(Drop)]
pub struct Looked<'a> {
    pub windows: &'a Windows,
    pub marks: &'a [bool],
}

/// Whether one of several numbers is another.
fn is_at(numbers: &[u64], place: usize, number: u64) -> bool
    requires { place < length numbers.now }
    ensures { IsTrue result → slice_index numbers.now place ≡ number }
{
    numbers[place] == number
}

/// Whether the numbers of a net are in a list from a place on.
fn are_from(numbers: &[u64], from: usize, pair: &Pair) -> bool
    requires there { from + 8 ≤ length numbers.now }
    requires range { IsPairInRange pair.now }
    ensures { IsTrue result
        → (i : ℕ) → i < 8 → slice_index numbers.now (from + i) ≡ number_for (bound_at pair.now i) }
{
    for place in 0..8 {
        if !is_at(numbers, from + place as usize, number_in(pair, place)) {
            return false;
        }
    }
    true
}

impl<'a> Looked<'a> {
    /// Whether the numbers loaded for a read list are those of its windows.
    fn has_numbers(&self, reads: &[NetId], numbers: &[u64]) -> bool
        requires whole { length numbers.now ≡ 8 * length reads.now }
        requires inside { All (λ m. m.0 < length self.now.windows.now) reads.now }
        ensures { IsTrue result → AreNumbersOf self.now.windows.now (ids reads.now) numbers.now }
    {
        for place in 0..reads.len() {
            let pair = self.windows.pair(reads[place].0 as usize);
            if !are_from(numbers, 8 * place, &pair) {
                return false;
            }
        }
        true
    }

    /// Whether a net is marked, and what was loaded for its read list is what the look found.
    fn knows(&self, lists: &ReadLists, net: NetId, numbers: &[u64]) -> bool
        requires there { net.0 < length lists.now }
        requires own { net.0 < length self.now.marks.now }
        requires windows { All (λ m. m.0 < length self.now.windows.now) (reads_of lists.now net.0) }
        requires whole { length numbers.now ≡ 8 * length (reads_of lists.now net.0) }
        ensures marked { IsTrue result → IsTrue (slice_index_or self.now.marks.now net.0 false) }
        ensures numbers { IsTrue result → AreNumbersOf self.now.windows.now (list_of lists.now net.0) numbers.now }
    {
        self.marks[net.0 as usize] && self.has_numbers(lists.of(net), numbers)
    }
}

/// What the operator makes of a net of the numbers loaded for its read list: the windows that a look found, where the
/// operator gives them back and the numbers are the look's, and else by an evaluation. Writes the places of that list's
/// nets.
pub(crate) fn evaluate_by(
    design: &Design,
    groups: &[usize],
    lists: &ReadLists,
    net: NetId,
    numbers: &[u64],
    places: &mut [u32],
    look: Option<&Looked<'_>>,
) -> Pair
    requires groups { AreGroups design.now.tables groups.now }
    requires lists { AreReadLists design.now lists.now }
    requires loaded { IsLoaded design.now (list_of lists.now net.0) net.0 numbers.now }
    requires places { length design.now.nets ≤ length places.old }
    requires look { IfSome look (λ l. IsLook design.now l.now.windows.now l.now.marks.now) }
    ensures value { result ≡ evaluated design.now (list_of lists.now net.0) numbers.now net.0 }
    ensures range { IsPairInRange result }
    ensures count { length places.new ≡ length places.old }
{
    if let Some(look) = look {
        if look.knows(lists, net, numbers) {
            return look.windows.pair(net.0 as usize);
        }
    }
    evaluate_grouped(design, groups, lists.of(net), net, numbers, places)
}
