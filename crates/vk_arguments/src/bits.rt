// The mask of a call.

ghost use Rattle.std.specs.Prelude.{◌≡◌, ◌+◌, ◌<◌, ◌≤◌, ℕ, Bool, IfSome, IsNone, option_map, true, false, length};
ghost use Rattle.vk_lanes.specs.Masks.{is_on, lane_count};
ghost use Rattle.vk_arguments.specs.Texts.{is_bit, is_mask, is_taken_mask, mask_of};

use vk_lanes::LaneMask;

/// The mask that a text gives so many lanes: one byte a lane, that of lane 0 first, `1` where it is on and, where lanes may be off,
/// `0`. Without a text every lane is on.
pub fn mask_of(lanes: usize, takes_mask: bool, bits: Option<&str>) -> Option<LaneMask>
    requires { lanes ≤ 256 }
    ensures taken { IfSome result (λ _. is_taken_mask lanes takes_mask (option_map (λ s. s.now) bits.entry) ≡ true) }
    ensures len { IfSome result (λ mask. lane_count mask ≡ lanes) }
    ensures lanes { IfSome result (λ mask. (lane : ℕ) → is_on mask lane ≡ mask_of lanes (option_map (λ s. s.now) bits.entry) lane) }
    ensures none { IsNone result → is_taken_mask lanes takes_mask (option_map (λ s. s.now) bits.entry) ≡ false }
{
    match bits {
        Some(text) => mask_of_bytes(lanes, takes_mask, text.as_bytes()),
        None => Some(LaneMask::all(lanes)),
    }
}

// The same from a byte for each lane.
fn mask_of_bytes(lanes: usize, takes_mask: bool, bytes: &[u8]) -> Option<LaneMask>
    requires { lanes ≤ 256 }
    ensures taken { IfSome result (λ _. is_mask lanes takes_mask bytes.now ≡ true) }
    ensures len { IfSome result (λ mask. lane_count mask ≡ lanes) }
    ensures lanes { IfSome result (λ mask. (lane : ℕ) → is_on mask lane ≡ mask_of lanes (Some bytes.now) lane) }
    ensures none { IsNone result → is_mask lanes takes_mask bytes.now ≡ false }
{
    if bytes.len() != lanes {
        return None;
    }
    let mut mask = LaneMask::new(lanes);
    for (lane, byte) in bytes.iter().enumerate() {
        if !is_bit(takes_mask, *byte) {
            return None;
        }
        mask.set(lane, *byte == b'1');
    }
    Some(mask)
}

// Whether a byte is a lane's.
fn is_bit(takes_mask: bool, byte: u8) -> bool
    ensures { result ≡ is_bit takes_mask byte }
{
    byte == b'1' || (takes_mask && byte == b'0')
}
