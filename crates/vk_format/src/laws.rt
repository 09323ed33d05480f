// What holds of all formats.

ghost use Rattle.std.specs.Prelude.{◌≡◌, ◌<◌, ◌^◌, ℕ, ◌++◌, List, length, Some, Err};
ghost use Rattle.byteorder.specs.Endian.{little_bytes, little_number};
ghost use Rattle.vk_format.specs.declared.rules.ObjectFault.{ObjectFault};
ghost use Rattle.vk_format.specs.Bytes.{IsBytes};
ghost use Rattle.vk_format.specs.Format.{Format, advance, ended, judge, more, told};

/// A number that is read from a field and written again has the field's bytes, and one that is written is read.
pub fn fixed_fields()
    ensures bytes { (bytes : List ℕ) → IsBytes bytes → little_bytes (length bytes) (little_number (length bytes) bytes) ≡ bytes }
    ensures number { (width n : ℕ) → n < 256 ^ width → little_number width (little_bytes width n) ≡ n }
{}

/// Bytes that come in pieces come to what they come to at once, and a fault that is told of a front is theirs.
pub fn pieces<A>()
    ensures pieces { (f : Format A) (at : ℕ) (xs ys : List ℕ) → advance f at (xs ++ ys) ≡ more (advance f at xs) ys }
    ensures end { (f : Format A) (at : ℕ) (bytes : List ℕ) → judge f at bytes ≡ ended (advance f at bytes) }
    ensures fault { (f : Format A) (at : ℕ) (xs ys : List ℕ) (e : ObjectFault) → told (advance f at xs) ≡ Some e → judge f at (xs ++ ys) ≡ Err e }
{}
