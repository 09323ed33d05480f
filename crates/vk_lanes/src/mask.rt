// Which lanes are on.

ghost use Rattle.std.specs.Prelude.{◌≡◌, ◌+◌, ◌*◌, ◌/◌, ◌%◌, ◌<◌, ◌≤◌, ◌==◌, ℕ, cond, false, nat_lt};
ghost use Rattle.std.specs.Int.{bit_at};

/// At most 256 lanes, each on or off.
#[derive(Clone, Copy)]
pub struct LaneMask {
    // Lane i is bit i % 8 of byte i / 8, so that a block of eight lanes is one byte.
    pub(crate) bytes: [u8; 32],
    pub(crate) lanes: usize,
    ghost within: { lanes ≤ 256 },
}

impl LaneMask {
    ghost use Rattle.vk_lanes.specs.Masks.{is_on, lane_count};

    /// So many lanes, at most 256, all off.
    pub fn new(lanes: usize) -> LaneMask
        requires { lanes ≤ 256 }
        ensures len { lane_count result ≡ lanes }
        ensures off { (i : ℕ) → is_on result i ≡ false }
    {
        LaneMask {
            bytes: [0; 32],
            lanes,
        }
    }

    /// So many lanes, at most 256, all on.
    pub fn all(lanes: usize) -> LaneMask
        requires { lanes ≤ 256 }
        ensures len { lane_count result ≡ lanes }
        ensures on { (i : ℕ) → is_on result i ≡ nat_lt i lanes }
    {
        LaneMask {
            bytes: [u8::MAX; 32],
            lanes,
        }
    }

    /// How many lanes it has.
    pub fn len(&self) -> usize
        ensures len { result ≡ lane_count self.now }
        ensures most { result ≤ 256 }
    {
        self.lanes
    }

    /// Whether a lane is on.
    pub fn get(&self, lane: usize) -> bool
        requires { lane < lane_count self.now }
        ensures { result ≡ is_on self.now lane }
    {
        (self.bytes[lane / 8] >> (lane % 8)) & 1 == 1
    }

    /// Sets a lane on or off.
    pub fn set(&mut self, lane: usize, on: bool)
        requires { lane < lane_count self.old }
        ensures len { lane_count self.new ≡ lane_count self.old }
        ensures lanes { (i : ℕ) → is_on self.new i ≡ cond (i == lane) on (is_on self.old i) }
    {
        self.bytes[lane / 8] = with_bit(self.bytes[lane / 8], lane % 8, on);
    }

    /// Eight lanes from 8 k on, as the bits of a byte.
    pub(crate) fn block(&self, k: usize) -> u8
        requires { 8 * k + 8 ≤ lane_count self.now }
        ensures { (i : ℕ) → i < 8 → (bit_at result i == 1) ≡ is_on self.now (8 * k + i) }
    {
        self.bytes[k]
    }

    /// Sets eight lanes from 8 k on to the bits of a byte.
    pub(crate) fn set_block(&mut self, k: usize, lanes: u8)
        requires { 8 * k + 8 ≤ lane_count self.old }
        ensures len { lane_count self.new ≡ lane_count self.old }
        ensures lanes { (i : ℕ) → is_on self.new i ≡ cond (i / 8 == k) (bit_at lanes (i % 8) == 1) (is_on self.old i) }
    {
        self.bytes[k] = lanes;
    }
}

// A byte with one bit set or cleared.
fn with_bit(byte: u8, place: usize, on: bool) -> u8
    requires { place < 8 }
    ensures { (i : ℕ) → i < 8 → bit_at result i ≡ cond (i == place) (cond on 1 0) (bit_at byte i) }
{
    if on {
        byte | (1 << place)
    } else {
        byte & !(1 << place)
    }
}
