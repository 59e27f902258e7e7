//! Evaluations that are spared: what is noted of an evaluation of a net serves again, where what decides the net's
//! windows is the same in the numbers that are loaded now.

ghost use Rattle.std.specs.Prelude.{◌≡◌, ◌<◌, ◌≤◌, length, slice_index, IsTrue};
ghost use Rattle.std.specs.List.{Contains};
ghost use Rattle.xt_model.specs.Quads.{IsPairInRange};
ghost use Rattle.table_box.specs.Groups.{AreGroups};
ghost use Rattle.net_eval.specs.ReadLists.{ids};
ghost use Rattle.chaos_core.specs.Spared.{loaded_quads};
ghost use Rattle.chaos_core.specs.Tasks.{evaluated};
ghost use Rattle.chaos_core.specs.Views.{IsLoaded};

use crate::alike::{Twice, TwoTimes, is_decided_alike};
use crate::loaded::{LoadedWords, set_places};
use net_eval::eval_grouped;
use xt_model::{Design, NetId, Pair};

/// Whether one of the numbers is the same in two lists.
fn is_same(before: &[u64], after: &[u64], place: usize) -> bool
    requires before { place < length before.now }
    requires after { place < length after.now }
    ensures { IsTrue result → slice_index before.now place ≡ slice_index after.now place }
{
    before[place] == after[place]
}

/// The words of one read list, as they were loaded for an evaluation before and as they are loaded now.
#[derive(Drop)]
struct TwoLoads<'a> {
    before: LoadedWords<'a>,
    after: LoadedWords<'a>,
    ghost one: { after.reads.now ≡ before.reads.now },
}

impl<'a> TwoTimes for TwoLoads<'a> {
    ghost has = { λ two net. Contains (ids two.before.reads.now) net };

    ghost earlier = { λ two. loaded_quads (ids two.before.reads.now) two.before.numbers.now };

    ghost later = { λ two. loaded_quads (ids two.before.reads.now) two.after.numbers.now };

    /// Whether its eight numbers are the same.
    fn is_still(&self, net: NetId) -> bool {
        let from = 8 * self.before.place(net.0 as usize);
        for place in 0..8 {
            if !is_same(self.before.numbers, self.after.numbers, from + place) {
                return false;
            }
        }
        true
    }

    fn twice(&self, net: NetId) -> Twice {
        Twice {
            before: self.before.pair(net),
            after: self.after.pair(net),
        }
    }
}

/// What the operator makes of a net of the numbers loaded for its read list, where it made `pair` of the numbers
/// `before`: that, where what decides it is the same in both, and else by an evaluation. Writes the places of that
/// list's nets.
pub fn evaluate_noted<'a>(
    design: &Design,
    groups: &[usize],
    reads: &'a [NetId],
    net: NetId,
    numbers: &'a [u64],
    places: &mut [u32],
    before: &'a [u64],
    pair: &Pair,
) -> Pair
    requires groups { AreGroups design.now.tables groups.now }
    requires loaded { IsLoaded design.now (ids reads.now) net.0 numbers.now }
    requires places { length design.now.nets ≤ length places.old }
    requires before { IsLoaded design.now (ids reads.now) net.0 before.now }
    requires pair { pair.now ≡ evaluated design.now (ids reads.now) before.now net.0 }
    requires range { IsPairInRange pair.now }
    ensures value { result ≡ evaluated design.now (ids reads.now) numbers.now net.0 }
    ensures range { IsPairInRange result }
    ensures count { length places.new ≡ length places.old }
{
    set_places(places, reads);
    let loads = TwoLoads {
        before: LoadedWords {
            reads,
            numbers: before,
            places: &*places,
        },
        after: LoadedWords {
            reads,
            numbers,
            places: &*places,
        },
    };
    if is_decided_alike(&loads, design, net) {
        return *pair;
    }
    eval_grouped(design, groups, net, &loads.after)
}
