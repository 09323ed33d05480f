// What is written is read.

ghost use Rattle.std.specs.Prelude.{◌≡◌, true, ℕ, List, Ok, Err};
ghost use Rattle.vk_format.specs.declared.rules.ObjectFault.{ObjectFault};
ghost use Rattle.vk_format.specs.declared.rules.ObjectFail.TheVariants.{Fault};
ghost use Rattle.vk_object.specs.declared.object.Object.{Object};
ghost use Rattle.vk_object_format.specs.Object.{object_bytes};
ghost use Rattle.vk_object_laws.specs.Ranges.{is_in_range};
ghost use Rattle.vk_object_write.specs.Lists.{object_lists};
ghost use Rattle.vk_object_codec.specs.Reading.{IsRead};

/// Bytes that are written of an object whose numbers are in range have no fault, and the object that is read of them has its lists.
pub fn read_again()
    ensures no_fault { (object : Object) (e : ObjectFault) → is_in_range (object_lists object) ≡ true → IsRead (Err (Fault e)) (object_bytes (object_lists object)) → ⊥ }
    ensures same { (object again : Object) → is_in_range (object_lists object) ≡ true → IsRead (Ok again) (object_bytes (object_lists object)) → object_lists again ≡ object_lists object }
{}
