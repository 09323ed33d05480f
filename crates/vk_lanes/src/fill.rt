// Rows that get the same word in each lane, or the lane's number.

ghost use Rattle.std.specs.Prelude.{◌≡◌, ◌+◌, ◌-◌, ◌*◌, ◌<◌, ◌≤◌, ℕ, length, slice_index_or};
ghost use Rattle.vk_lanes.specs.Kernels.{WritesRow};
ghost use Rattle.vk_lanes.specs.Masks.{is_on, lane_count};
ghost use Rattle.vk_lanes.specs.Inner.Blocks.{WritesOn};

use crate::blocks::{chosen8, load, store};
use crate::mask::LaneMask;
use std::simd::prelude::*;
use vk_types::Word;

/// The row from the place `d` on gets a word in each lane that is on in `mask`.
pub fn rows_fill(mask: &LaneMask, rows: &mut [Word], d: usize, word: Word)
    requires written { d + lane_count mask.now ≤ length rows.old }
    ensures { WritesRow (lane_count mask.now) d (is_on mask.now) (λ i. word.0) rows.old rows.new }
{
    let blocks = mask.len() / 8;
    for k in 0..blocks {
        block(mask, rows, d, k, same8(word));
    }
    for i in 8 * blocks..mask.len() {
        lane(mask, rows, d, i, word);
    }
}

/// The row from the place `d` on gets the lane's number in each lane that is on in `mask`.
pub fn rows_number(mask: &LaneMask, rows: &mut [Word], d: usize)
    requires written { d + lane_count mask.now ≤ length rows.old }
    ensures { WritesRow (lane_count mask.now) d (is_on mask.now) (λ i. i) rows.old rows.new }
{
    let blocks = mask.len() / 8;
    for k in 0..blocks {
        block(mask, rows, d, k, numbers8(8 * k));
    }
    for i in 8 * blocks..mask.len() {
        lane(mask, rows, d, i, Word(i as u64));
    }
}

// Eight times one word.
fn same8(word: Word) -> u64x8
    ensures len { length result ≡ 8 }
    ensures lanes { (i : ℕ) → i < 8 → slice_index_or result i 0 ≡ word.0 }
{
    u64x8::splat(word.0)
}

// Eight numbers from the first on.
fn numbers8(first: usize) -> u64x8
    requires { first ≤ 256 }
    ensures len { length result ≡ 8 }
    ensures lanes { (i : ℕ) → i < 8 → slice_index_or result i 0 ≡ first + i }
{
    let first = first as u64;
    u64x8::from_array([
        first,
        first + 1,
        first + 2,
        first + 3,
        first + 4,
        first + 5,
        first + 6,
        first + 7,
    ])
}

// Eight lanes from 8 k on get these words, where the mask is on.
fn block(mask: &LaneMask, rows: &mut [Word], d: usize, k: usize, words: u64x8)
    requires room { 8 * k + 8 ≤ lane_count mask.now }
    requires written { d + lane_count mask.now ≤ length rows.old }
    requires len { length words ≡ 8 }
    ensures { WritesOn (d + 8 * k) (d + (8 * k + 8)) (λ j. is_on mask.now (j - d))
        (λ j. slice_index_or words (j - d - 8 * k) 0) rows.old rows.new }
{
    let at = d + 8 * k;
    store(chosen8(mask.block(k), words, load(rows, at)), rows, at);
}

// One lane gets a word, where the mask is on.
fn lane(mask: &LaneMask, rows: &mut [Word], d: usize, i: usize, word: Word)
    requires room { i < lane_count mask.now }
    requires written { d + lane_count mask.now ≤ length rows.old }
    ensures { WritesOn (d + i) (d + (i + 1)) (λ j. is_on mask.now (j - d)) (λ j. word.0) rows.old rows.new }
{
    if mask.get(i) {
        rows[d + i] = word;
    }
}
