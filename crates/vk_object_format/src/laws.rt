// Objects and their bytes are inverse, both ways.

ghost use Rattle.std.specs.Prelude.{◌≡◌, ℕ, List, Ok};
ghost use Rattle.vk_format.specs.Bytes.{IsBytes};
ghost use Rattle.vk_format.specs.Format.{judge};
ghost use Rattle.vk_object_format.specs.declared.rows.RawObject.{RawObject};
ghost use Rattle.vk_object_format.specs.Object.{IsObject, object_format, table_bytes};

/// What is read of bytes keeps all conditions on an object and is spelled by these bytes alone; and each object that keeps them is
/// read from its spelling.
pub fn spelling()
    ensures sound { (bytes : List ℕ) (o : RawObject) → IsBytes bytes → judge object_format 0 bytes ≡ Ok o → IsObject o }
    ensures spelled { (bytes : List ℕ) (o : RawObject) → IsBytes bytes → judge object_format 0 bytes ≡ Ok o → bytes ≡ table_bytes o }
    ensures read { (o : RawObject) → IsObject o → judge object_format 0 (table_bytes o) ≡ Ok o }
{}
