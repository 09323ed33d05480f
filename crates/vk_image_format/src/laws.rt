// Images and their bytes are inverse, both ways.

ghost use Rattle.std.specs.Prelude.{◌≡◌, ℕ, List, Ok};
ghost use Rattle.vk_format.specs.Bytes.{IsBytes};
ghost use Rattle.vk_format.specs.Format.{judge};
ghost use Rattle.vk_image_format.specs.declared.rows.RawImage.{RawImage};
ghost use Rattle.vk_image_format.specs.Image.{IsImage, image_format, table_bytes};

/// What is read of bytes keeps all conditions on an image and is spelled by these bytes alone; and each image that keeps them is
/// read from its spelling.
pub fn spelling()
    ensures sound { (bytes : List ℕ) (o : RawImage) → IsBytes bytes → judge image_format 0 bytes ≡ Ok o → IsImage o }
    ensures spelled { (bytes : List ℕ) (o : RawImage) → IsBytes bytes → judge image_format 0 bytes ≡ Ok o → bytes ≡ table_bytes o }
    ensures read { (o : RawImage) → IsImage o → judge image_format 0 (table_bytes o) ≡ Ok o }
{}
