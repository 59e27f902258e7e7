//! The words of a read list that a worker has loaded, as a view of bounds.

ghost use Rattle.std.specs.Prelude.{◌≡◌, ◌*◌, ◌/◌, ◌<◌, ◌≤◌, length, slice_set};
ghost use Rattle.std.specs.List.{All, Contains};
ghost use Rattle.xt_model.specs.declared.edge.Edge.{Edge};
ghost use Rattle.xt_model.specs.Quads.{IsPairInRange, quad_at};
ghost use Rattle.xt_meaning.specs.Words.{bound_in, top_number};
ghost use Rattle.table_box.specs.Groups.{AreGroups};
ghost use Rattle.net_eval.specs.ReadLists.{ids};
ghost use Rattle.chaos_core.specs.Spared.{loaded_quads};
ghost use Rattle.chaos_core.specs.Tasks.{evaluated, loaded_bounds, place_of};
ghost use Rattle.chaos_core.specs.Views.{ArePlaces, IsLoaded, Rises};

use net_eval::eval_grouped;
use xt_model::{Bounds, Design, Edge, NetId, Pair, window};

/// The bound that a number of a word denotes: from 0 to 2^63, and the bound is 2^62 less.
pub fn bound_of(number: u64) -> i64
    requires { number ≤ top_number }
    ensures { result ≡ bound_in number }
{
    (i128::from(number) - 4_611_686_018_427_387_904) as i64
}

/// Gives a net its place in a read list.
fn set_place(places: &mut [u32], net: u32, place: usize)
    requires there { net < length places.old }
    requires low { place ≤ net }
    ensures { places.new ≡ slice_set places.old net place }
{
    places[net as usize] = place as u32;
}

/// Gives each net of a read list its place there, which is no greater than its number, since the list rises.
pub(crate) fn set_places(places: &mut [u32], reads: &[NetId])
    requires rising { Rises (ids reads.now) }
    requires inside { All (λ net. net.0 < length places.old) reads.now }
    ensures places { ArePlaces (ids reads.now) places.new }
    ensures count { length places.new ≡ length places.old }
{
    for (place, net) in reads.iter().enumerate() {
        set_place(places, net.0, place);
    }
}

/// The numbers loaded for a read list, eight for each of its nets, and the place of each there.
#[derive(Drop)]
pub(crate) struct LoadedWords<'a> {
    pub(crate) reads: &'a [NetId],
    pub(crate) numbers: &'a [u64],
    pub(crate) places: &'a [u32],
    ghost whole: { length numbers.now ≡ 8 * length reads.now },
    ghost range: { All (λ n. n ≤ top_number) numbers.now },
    ghost placed: { ArePlaces (ids reads.now) places.now },
}

impl<'a> LoadedWords<'a> {
    /// The place of a net in the read list.
    pub(crate) fn place(&self, net: usize) -> usize
        requires { Contains (ids self.now.reads.now) net }
        ensures place { result ≡ place_of (ids self.now.reads.now) net }
        ensures inside { result < length self.now.reads.now }
    {
        self.places[net] as usize
    }

    /// The windows of a net of the read list.
    pub(crate) fn pair(&self, net: NetId) -> Pair
        requires read { Contains (ids self.now.reads.now) net.0 }
        ensures value { (e : Edge)
            → quad_at result e ≡ loaded_quads (ids self.now.reads.now) self.now.numbers.now net.0 e }
        ensures range { IsPairInRange result }
    {
        Pair {
            rise: window(self, net, Edge::Rise),
            fall: window(self, net, Edge::Fall),
        }
    }
}

impl<'a> Bounds for LoadedWords<'a> {
    ghost has = { λ view word. Contains (ids view.reads.now) (word / 8) };

    ghost bound_of = { λ view word. loaded_bounds (ids view.reads.now) view.numbers.now word };

    fn bound(&self, word: usize) -> i64 {
        let from = 8 * self.place(word / 8);
        bound_of(self.numbers[from..from + 8][word % 8])
    }
}

/// What the operator makes of a net of the numbers loaded for its read list. Writes the places of that list's nets.
pub fn evaluate(
    design: &Design,
    reads: &[NetId],
    net: NetId,
    numbers: &[u64],
    places: &mut [u32],
) -> Pair
    requires loaded { IsLoaded design.now (ids reads.now) net.0 numbers.now }
    requires places { length design.now.nets ≤ length places.old }
    ensures value { result ≡ evaluated design.now (ids reads.now) numbers.now net.0 }
    ensures range { IsPairInRange result }
    ensures count { length places.new ≡ length places.old }
{
    evaluate_grouped(design, &[], reads, net, numbers, places)
}

/// The same, where groups of the design's tables are known.
pub fn evaluate_grouped(
    design: &Design,
    groups: &[usize],
    reads: &[NetId],
    net: NetId,
    numbers: &[u64],
    places: &mut [u32],
) -> Pair
    requires groups { AreGroups design.now.tables groups.now }
    requires loaded { IsLoaded design.now (ids reads.now) net.0 numbers.now }
    requires places { length design.now.nets ≤ length places.old }
    ensures value { result ≡ evaluated design.now (ids reads.now) numbers.now net.0 }
    ensures range { IsPairInRange result }
    ensures count { length places.new ≡ length places.old }
{
    set_places(places, reads);
    let view = LoadedWords {
        reads,
        numbers,
        places,
    };
    eval_grouped(design, groups, net, &view)
}
