//! The words of windows.

ghost use Rattle.std.specs.Prelude.{◌≡◌, ℕ, ◌+◌, ◌*◌, ◌%◌, ◌<◌, ◌≤◌, ◌++◌, length, take, drop, slice_index, IfOk, OnOk};
ghost use Rattle.std.specs.List.{All};
ghost use Rattle.xt_model.specs.Quads.{IsBound, IsInRange, IsPairInRange};
ghost use Rattle.xt_meaning.specs.Words.{number_for, numbers_of, quad_numbers, top_number};
ghost use Rattle.chaos_core.specs.Tasks.{bound_at};
ghost use Rattle.chaos_core.specs.Memories.{pair_numbers};

use crate::loaded;
use std::alloc::{AllocError, Global};
use xt_model::{Pair, Quad, Windows};

/// The number that denotes a bound in a word.
fn number_of(bound: i64) -> u64
    requires { IsBound bound }
    ensures { result ≡ number_for bound }
{
    (i128::from(bound) + 4_611_686_018_427_387_904) as u64
}

/// The bound in one of the eight words of a net: rise before fall, and in each the least and the greatest time and
/// the least and the greatest slew.
fn bound_of(pair: &Pair, place: u32) -> i64
    requires place { place < 8 }
    requires range { IsPairInRange pair.now }
    ensures value { result ≡ bound_at pair.now place }
    ensures range { IsBound result }
{
    let quad = if place < 4 { pair.rise } else { pair.fall };
    match place % 4 {
        0 => quad.tlo,
        1 => quad.thi,
        2 => quad.slo,
        _ => quad.shi,
    }
}

/// The number that denotes the bound in one of the eight words of a net.
pub fn number_in(pair: &Pair, place: u32) -> u64
    requires place { place < 8 }
    requires range { IsPairInRange pair.now }
    ensures { result ≡ number_for (bound_at pair.now place) }
{
    number_of(bound_of(pair, place))
}

/// The numbers of the eight words of a net with these windows.
pub fn numbers_in(pair: &Pair) -> [u64; 8]
    requires range { IsPairInRange pair.now }
    ensures { (place : ℕ) → place < 8 → slice_index result place ≡ number_for (bound_at pair.now place) }
{
    [
        number_in(pair, 0),
        number_in(pair, 1),
        number_in(pair, 2),
        number_in(pair, 3),
        number_in(pair, 4),
        number_in(pair, 5),
        number_in(pair, 6),
        number_in(pair, 7),
    ]
}

/// Appends the numbers of the eight words of a net.
fn push_pair(words: &mut Vec<u64>, pair: &Pair) -> Result<(), AllocError>
    requires { IsPairInRange pair.now }
    ensures { OnOk result (words.new.items ≡ words.old.items ++ pair_numbers pair.now) }
{
    for place in 0..8 {
        words.push(number_in(pair, place))?;
    }
    Ok(())
}

/// Appends the numbers of windows, net by net.
pub(crate) fn push_numbers(words: &mut Vec<u64>, pairs: &[Pair]) -> Result<(), AllocError>
    requires { All IsPairInRange pairs.now }
    ensures { OnOk result (words.new.items ≡ words.old.items ++ numbers_of pairs.now) }
{
    for pair in pairs {
        push_pair(words, pair)?;
    }
    Ok(())
}

/// The bound in a word.
fn bound_in_word(words: &[u64], word: usize) -> i64
    requires word { word < length words.now }
    requires range { All (λ n. n ≤ top_number) words.now }
    ensures number { number_for result ≡ slice_index words.now word }
    ensures range { IsBound result }
{
    loaded::bound_of(words[word])
}

/// The window whose four words begin at a word.
fn quad_at(words: &[u64], from: usize) -> Quad
    requires words { from + 4 ≤ length words.now }
    requires range { All (λ n. n ≤ top_number) words.now }
    ensures numbers { quad_numbers result ≡ take 4 (drop from words.now) }
    ensures range { IsInRange result }
{
    Quad {
        tlo: bound_in_word(words, from),
        thi: bound_in_word(words, from + 1),
        slo: bound_in_word(words, from + 2),
        shi: bound_in_word(words, from + 3),
    }
}

/// The windows whose numbers are in words.
pub(crate) fn pairs_of(alloc: Global, words: &[u64]) -> Result<Vec<Pair>, AllocError>
    requires whole { length words.now % 8 ≡ 0 }
    requires range { All (λ n. n ≤ top_number) words.now }
    ensures numbers { IfOk result (λ pairs. numbers_of pairs.items ≡ words.now) }
    ensures range { IfOk result (λ pairs. All IsPairInRange pairs.items) }
{
    let mut pairs = Vec::new(alloc);
    let mut from = 0;
    'pairs: while from + 8 <= words.len() {
        let rise = quad_at(words, from);
        let fall = quad_at(words, from + 4);
        pairs.push(Pair { rise, fall })?;
        from += 8;
    }
    Ok(pairs)
}

/// Gives each net the windows whose numbers are in its words, eight for each net. Takes no memory.
pub fn set_pairs(windows: &mut Windows, words: &[u64])
    requires count { length words.now ≡ 8 * length windows.old }
    requires range { All (λ n. n ≤ top_number) words.now }
    ensures numbers { numbers_of windows.new ≡ words.now }
    ensures range { All IsPairInRange windows.new }
{
    for net in 0..windows.pairs().len() {
        let rise = quad_at(words, 8 * net);
        let fall = quad_at(words, 8 * net + 4);
        windows.set(net, Pair { rise, fall });
    }
}
