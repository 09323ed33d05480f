// The tables that a format gives are those of images.

ghost use Rattle.std.specs.Prelude.{◌≡◌, true, ℕ, List, Ok};
ghost use Rattle.vk_object.specs.Images.{is_image};
ghost use Rattle.vk_format.specs.Bytes.{IsBytes};
ghost use Rattle.vk_format.specs.Format.{judge};
ghost use Rattle.vk_image_format.specs.declared.rows.RawImage.{RawImage};
ghost use Rattle.vk_image_format.specs.Image.{IsImage, image_bytes, image_format};
ghost use Rattle.vk_image_format.specs.Values.{raw_image, tables_of};

/// Tables that keep all conditions of the format stand for an image, and are the image's own again.
pub fn tables()
    ensures image { (i : RawImage) → IsImage i → is_image (tables_of i) ≡ true }
    ensures again { (i : RawImage) → IsImage i → raw_image (tables_of i) ≡ i }
{}

/// Bytes that are read are those that the image is written as.
pub fn written_again()
    ensures bytes { (bytes : List ℕ) (i : RawImage) → IsBytes bytes → judge image_format 0 bytes ≡ Ok i → bytes ≡ image_bytes (tables_of i) }
{}
