// The tables that a format gives are those of objects.

ghost use Rattle.std.specs.Prelude.{◌≡◌, true, ℕ, List, Ok};
ghost use Rattle.vk_object.specs.Objects.{ObjectLists, is_object};
ghost use Rattle.vk_format.specs.Bytes.{IsBytes};
ghost use Rattle.vk_format.specs.Format.{judge};
ghost use Rattle.vk_object_format.specs.declared.rows.RawObject.{RawObject};
ghost use Rattle.vk_object_format.specs.Object.{IsObject, object_bytes, object_format};
ghost use Rattle.vk_object_format.specs.Values.{object_of, raw_object};
ghost use Rattle.vk_object_laws.specs.Ranges.{is_in_range};

/// Tables that keep all conditions of the format stand for an object, and are the tables of that object.
pub fn tables()
    ensures object { (o : RawObject) → IsObject o → is_object (object_of o) ≡ true }
    ensures again { (o : RawObject) → IsObject o → raw_object (object_of o) ≡ o }
{}

/// Bytes that are read are those that the object is written as.
pub fn written_again()
    ensures bytes { (bytes : List ℕ) (o : RawObject) → IsBytes bytes → judge object_format 0 bytes ≡ Ok o → bytes ≡ object_bytes (object_of o) }
{}

/// An object whose numbers are in the ranges of their types, and that has at most 4294967295 symbols, has tables that keep all conditions
/// of the format; they stand for it, and what is written of it is read as it.
pub fn objects()
    ensures tables { (o : ObjectLists) → is_object o ≡ true → is_in_range o ≡ true → IsObject (raw_object o) }
    ensures same { (o : ObjectLists) → is_object o ≡ true → is_in_range o ≡ true → object_of (raw_object o) ≡ o }
    ensures read { (o : ObjectLists) → is_object o ≡ true → is_in_range o ≡ true → judge object_format 0 (object_bytes o) ≡ Ok (raw_object o) }
{}
