//! Searches for a byte.

ghost use Rattle.std.specs.Prelude.{◌≡◌, ◌==◌, ◌<◌, ◌≤◌, IfSome, length, map, position, take};
ghost use Rattle.std.specs.List.{count_by};
ghost use Rattle.std.specs.Simd.Lanes.{mask_l};

use memchr::memchr;
use std::simd::prelude::*;

/// How many bytes are counted at once.
const LANES: usize = 16;

/// Which of the first 16 bytes are `mark`, the first of them in the lowest bit.
#[inline(always)]
fn marked(mark: u8, bytes: &[u8]) -> u64
    requires { 16 ≤ length bytes.now }
    ensures { result ≡ mask_l (map (λ b. b == mark) (take 16 bytes.now)) }
{
    u8x16::from_slice(bytes)
        .simd_eq(u8x16::splat(mark))
        .to_bitmask()
}

/// How many bytes are `mark`: half an instruction a byte, where the iterator of `memchr` takes four to count.
pub fn count_of(mark: u8, bytes: &[u8]) -> usize
    ensures value { result ≡ count_by (λ b. b == mark) bytes.now }
    ensures within { result ≤ length bytes.now }
{
    let mut rest = bytes;
    let mut count = 0;
    'lanes: while rest.len() >= LANES {
        count += marked(mark, rest).count_ones() as usize;
        let (_, more) = rest.split_at(LANES);
        rest = more;
    }
    count + rest.iter().filter(|b| **b == mark).count()
}

/// The place of the first `mark`, one byte after the other: for where it is near.
#[inline(always)]
pub fn first_near(mark: u8, bytes: &[u8]) -> Option<usize>
    ensures value { result ≡ position (λ b. b == mark) bytes.now }
    ensures within { IfSome result (λ i. i < length bytes.now) }
{
    bytes.iter().position(|b| *b == mark)
}

/// The place of the first `mark`.
#[inline(always)]
pub fn first(mark: u8, bytes: &[u8]) -> Option<usize>
    ensures value { result ≡ position (λ b. b == mark) bytes.now }
    ensures within { IfSome result (λ i. i < length bytes.now) }
{
    memchr(mark, bytes)
}
