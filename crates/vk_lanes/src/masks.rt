// The kernels that write masks.

ghost use Rattle.std.specs.Prelude.{◌≡◌, ◌+◌, ◌*◌, ◌<◌, ◌≤◌, ◌==◌, ◌&&◌, ◌||◌, ℕ, cond, length, not, slice_index_or};
ghost use Rattle.std.specs.Int.{bit_at};
ghost use Rattle.vk_lanes.specs.Masks.{is_on, lane_count};
ghost use Rattle.vk_lanes.specs.Words.{word_in};
ghost use Rattle.vk_lanes.specs.Inner.Blocks.{SetsOn};

use crate::blocks::load;
use crate::mask::LaneMask;
use std::simd::prelude::*;
use vk_types::Word;

/// `d` gets, in the lanes that are on in `mask`, whether the word of `a` is not 0; its other lanes stay.
///
/// The row and the masks have one length.
pub fn mask_of(mask: &LaneMask, a: &[Word], d: &mut LaneMask)
    requires operand { length a.now ≡ lane_count mask.now }
    requires written { lane_count d.old ≡ lane_count mask.now }
    ensures len { lane_count d.new ≡ lane_count d.old }
    ensures lanes { (i : ℕ) → is_on d.new i ≡ cond (is_on mask.now i) (not (word_in a.now i == 0)) (is_on d.old i) }
{
    let blocks = mask.len() / 8;
    for k in 0..blocks {
        set_block(mask, a, d, k);
    }
    for i in 8 * blocks..mask.len() {
        set_lane(mask, a, d, i);
    }
}

// Eight lanes from 8 k on.
fn set_block(mask: &LaneMask, a: &[Word], d: &mut LaneMask, k: usize)
    requires room { 8 * k + 8 ≤ lane_count mask.now }
    requires operand { length a.now ≡ lane_count mask.now }
    requires written { lane_count d.old ≡ lane_count mask.now }
    ensures len { lane_count d.new ≡ lane_count d.old }
    ensures lanes { SetsOn (8 * k) (8 * k + 8) mask.now a.now d.old d.new }
{
    let lanes = nonzero8(load(a, 8 * k));
    d.set_block(k, chosen(mask.block(k), lanes, d.block(k)));
}

// One lane.
fn set_lane(mask: &LaneMask, a: &[Word], d: &mut LaneMask, i: usize)
    requires room { i < lane_count mask.now }
    requires operand { length a.now ≡ lane_count mask.now }
    requires written { lane_count d.old ≡ lane_count mask.now }
    ensures len { lane_count d.new ≡ lane_count d.old }
    ensures lanes { SetsOn i (i + 1) mask.now a.now d.old d.new }
{
    if mask.get(i) {
        d.set(i, a[i].0 != 0);
    }
}

// Which of eight words are not 0, as the bits of a byte.
fn nonzero8(words: u64x8) -> u8
    requires { length words ≡ 8 }
    ensures { (i : ℕ) → i < 8 → (bit_at result i == 1) ≡ not (slice_index_or words i 0 == 0) }
{
    words.simd_ne(u64x8::splat(0)).to_bitmask() as u8
}

// The bits of `new` where those of `on` are set, else those of `old`.
fn chosen(on: u8, new: u8, old: u8) -> u8
    ensures { (i : ℕ) → i < 8 → (bit_at result i == 1) ≡ cond (bit_at on i == 1) (bit_at new i == 1) (bit_at old i == 1) }
{
    (new & on) | (old & !on)
}

/// `d` gets the lanes that are on in `a` and in `b`. The masks have one length.
pub fn mask_and(a: &LaneMask, b: &LaneMask, d: &mut LaneMask)
    requires { lane_count b.now ≡ lane_count a.now }
    ensures len { lane_count d.new ≡ lane_count a.now }
    ensures lanes { (i : ℕ) → is_on d.new i ≡ (is_on a.now i && is_on b.now i) }
{
    let bytes = u8x32::from_array(a.bytes) & u8x32::from_array(b.bytes);
    *d = LaneMask {
        bytes: bytes.to_array(),
        lanes: a.lanes,
    };
}

/// `d` gets the lanes that are on in `a` or in `b`. The masks have one length.
pub fn mask_or(a: &LaneMask, b: &LaneMask, d: &mut LaneMask)
    requires { lane_count b.now ≡ lane_count a.now }
    ensures len { lane_count d.new ≡ lane_count a.now }
    ensures lanes { (i : ℕ) → is_on d.new i ≡ (is_on a.now i || is_on b.now i) }
{
    let bytes = u8x32::from_array(a.bytes) | u8x32::from_array(b.bytes);
    *d = LaneMask {
        bytes: bytes.to_array(),
        lanes: a.lanes,
    };
}

/// `d` gets the lanes that are on in `a` and not in `b`. The masks have one length.
pub fn mask_but(a: &LaneMask, b: &LaneMask, d: &mut LaneMask)
    requires { lane_count b.now ≡ lane_count a.now }
    ensures len { lane_count d.new ≡ lane_count a.now }
    ensures lanes { (i : ℕ) → is_on d.new i ≡ (is_on a.now i && not (is_on b.now i)) }
{
    let bytes = u8x32::from_array(a.bytes);
    // Each bit of `a`, but for those of both: as `a & !b`.
    let bytes = bytes ^ (bytes & u8x32::from_array(b.bytes));
    *d = LaneMask {
        bytes: bytes.to_array(),
        lanes: a.lanes,
    };
}
