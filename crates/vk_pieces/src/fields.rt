// A table of fields, of which some have come.

ghost use Rattle.std.specs.Prelude.{◌≡◌, ◌<◌, ◌+◌, ◌^◌, ℕ, Bool, true, length};
ghost use Rattle.vk_format.specs.Format.{Format, Whole};
ghost use Rattle.vk_code_read.specs.Inner.Left.{Stepped};
ghost use Rattle.vk_pieces.specs.Fields.{IsField};

use vk_format::ObjectFail;

/// A table of fields, of which some have come.
pub trait Fields {
    /// What the fields say.
    type Rows;

    /// What is still wanted from a place on, how many bytes the next field has, whether no field is left, and what all fields say.
    ghost left: { Self → ℕ → Format Self.Rows };

    ghost width: { Self → ℕ };

    ghost is_whole: { Self → Bool };

    ghost rows: { Self → Self.Rows };

    /// How many bytes the next field has.
    fn width(&self) -> usize
        ensures { result ≡ width self.now };

    /// Whether no field is left.
    fn is_whole(&self) -> bool
        ensures { result ≡ is_whole self.now };

    /// Takes the next field, which stands at this place.
    fn step(&mut self, at: u64, field: &[u8]) -> Result<(), ObjectFail>
        requires width { length field.now ≡ width self.old }
        requires wanted { 0 < width self.old }
        requires place { at + width self.old < 2 ^ 64 }
        ensures { Stepped (left self.old at) field.now result (left self.new (at + width self.old)) };

    /// Where the next field has bytes, it is wanted; where no field is left, it is what all fields say.
    ghost field: { (s : Self) (at : ℕ) → 0 < width s → IsField (left s at) (width s) };

    ghost nothing: { (s : Self) → is_whole s ≡ true → width s ≡ 0 };

    ghost whole: { (s : Self) (at : ℕ) → is_whole s ≡ true → left s at ≡ Whole (rows s) };
}
