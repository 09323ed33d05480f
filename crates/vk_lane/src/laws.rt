// The laws of pointers.

ghost use Rattle.std.specs.Prelude.{◌≡◌, ◌/◌, ◌^◌, ℕ, ℤ, Bool, List, map, true};
ghost use Rattle.vk_types.specs.declared.types.Ty.{Ty};
ghost use Rattle.vk_kinds.specs.declared.heads.CType.TheVariants.{Ptr};
ghost use Rattle.vk_meaning.specs.World.{Array};
ghost use Rattle.vk_meaning.specs.Data.{fits_offset, named_element, pointer};
ghost use Rattle.vk_meaning.specs.Lanes.{datum_of};
ghost use Rattle.vk_object.specs.Memory.{at_offset, cell_of};
ghost use Rattle.vk_lane.specs.Cells.{cell_as};
ghost use Rattle.vk_lane.specs.Places.{extent_of};

/// The cell that the machine finds at a pointer's word is the element that the pointer names, and a word whose offset was changed is
/// that of the pointer with this offset, where 32 bits hold it.
pub fn words_are_pointers()
    ensures named { (arrays : List Array) (to : Ty) (written : Bool) (word : ℕ)
        → cell_of (map extent_of arrays) word ≡ cell_as arrays (datum_of (Ptr to written) word) (named_element arrays (datum_of (Ptr to written) word)) }
    ensures moved { (to : Ty) (written : Bool) (word : ℕ) (offset : ℤ)
        → fits_offset offset ≡ true → datum_of (Ptr to written) (at_offset word offset) ≡ pointer (word / 2 ^ 32) offset }
{}
