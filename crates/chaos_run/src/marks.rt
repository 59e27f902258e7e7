//! Marks of the nets of which a round moved nothing that decides them, made by several threads.

ghost use Rattle.std.specs.Prelude.{◌≡◌, ◌<◌, length, IsTrue};
ghost use Rattle.xt_model.specs.Assign.{assigned};
ghost use Rattle.xt_model.specs.Sound.{IsSound};
ghost use Rattle.chaos_core.specs.Alike.{AreDecidedAlike};
ghost use Rattle.chaos_core.specs.Looks.{AreAlike, AreDecided, AreUnmoved};
ghost use Rattle.chaos_core.specs.Spared.{IsInputAlike};

use chaos_core::{is_alike, is_decided};
use std::thread::{Threads, for_each_mut};
use xt_model::{Design, Windows};

/// Marks each net that a round did not move, and of which the overlap answers at its couplings are the same before and
/// after it, and no other. Each of this many threads does so for a share of the nets.
fn mark_alike<R: Threads + Sync>(
    rt: &R,
    design: &Design,
    before: &Windows,
    after: &Windows,
    unmoved: &[bool],
    marks: &mut [bool],
    threads: usize,
)
    requires sound { IsSound design.now }
    requires unmoved { AreUnmoved before.now after.now unmoved.now }
    requires before { length before.now ≡ length design.now.nets }
    requires after { length after.now ≡ length design.now.nets }
    requires marks { length marks.old ≡ length design.now.nets }
    requires some { 0 < threads }
    ensures count { length marks.new ≡ length marks.old }
    ensures alike { AreAlike design.now before.now after.now marks.new }
{
    for_each_mut(
        rt,
        marks,
        threads,
        &|net: usize, mark: &mut bool|
            requires { IsSound design.now × AreUnmoved before.now after.now unmoved.now
                × (length before.now ≡ length design.now.nets) × (length after.now ≡ length design.now.nets)
                × (net < length design.now.nets) }
            ensures { IsTrue mark.exit.now
                → IsInputAlike design.entry.now (assigned before.entry.now) (assigned after.entry.now) net }
        { *mark = is_alike(design, before, after, unmoved, net) },
    );
}

/// Marks each net of which what decides it is the same before and after a round, and no other, where `alike` marks nets
/// that have the same windows and overlap answers. Each of this many threads does so for a share of the nets.
fn mark_from_alike<R: Threads + Sync>(
    rt: &R,
    design: &Design,
    before: &Windows,
    after: &Windows,
    alike: &[bool],
    marks: &mut [bool],
    threads: usize,
)
    requires sound { IsSound design.now }
    requires before { length before.now ≡ length design.now.nets }
    requires after { length after.now ≡ length design.now.nets }
    requires count { length alike.now ≡ length design.now.nets }
    requires alike { AreAlike design.now before.now after.now alike.now }
    requires marks { length marks.old ≡ length design.now.nets }
    requires some { 0 < threads }
    ensures { AreDecided design.now before.now after.now marks.new }
{
    for_each_mut(
        rt,
        marks,
        threads,
        &|net: usize, mark: &mut bool|
            requires { IsSound design.now × AreAlike design.now before.now after.now alike.now
                × (length before.now ≡ length design.now.nets) × (length after.now ≡ length design.now.nets)
                × (length alike.now ≡ length design.now.nets) × (net < length design.now.nets) }
            ensures { IsTrue mark.exit.now
                → AreDecidedAlike design.entry.now (assigned before.entry.now) (assigned after.entry.now) net }
        { *mark = is_decided(design, before, after, alike, net) },
    );
}

/// Marks each net of which what decides it is the same before and after a round, and no other, by this many threads.
/// `unmoved` has a mark for each net that the round did not move, and for no other; it is left with other marks.
pub(crate) fn mark_decided<R: Threads + Sync>(
    rt: &R,
    design: &Design,
    unmoved: &mut [bool],
    before: &Windows,
    after: &Windows,
    marks: &mut [bool],
    shares: u32,
)
    requires sound { IsSound design.now }
    requires unmoved { AreUnmoved before.now after.now unmoved.old }
    requires before { length before.now ≡ length design.now.nets }
    requires after { length after.now ≡ length design.now.nets }
    requires marks { length marks.old ≡ length design.now.nets }
    ensures unmoved { length unmoved.new ≡ length unmoved.old }
    ensures decided { AreDecided design.now before.now after.now marks.new }
{
    // To begin a thread takes as long as to mark some thousand nets.
    let threads = (shares as usize).clamp(1, marks.len() / 4096 + 1);
    mark_alike(rt, design, before, after, unmoved, marks, threads);
    mark_from_alike(rt, design, before, after, marks, unmoved, threads);
    marks.copy_from_slice(unmoved);
}
