// The order of arrays and entries.

ghost use Rattle.std.specs.Prelude.{◌≡◌};
ghost use Rattle.std.specs.Option.{option_map};
ghost use Rattle.vk_object.specs.Texts.{is_before};
ghost use Rattle.vk_code_format.specs.Fields.{comes_after, last_of};
ghost use Rattle.vk_image_format.specs.Image.{keeps_order, name_before, where_some};
ghost use Rattle.vk_image_fields.specs.Names.{last_name, last_text};

use vk_image_format::{EntryName, RawArray, RawEntry};
use vk_object::texts::is_before;

/// Whether an array of this text may come behind the others.
pub fn follows_arrays(arrays: &[RawArray], text: &[u8]) -> bool
    ensures { result ≡ comes_after is_before (last_text arrays.now) text.now }
{
    match arrays {
        [] => true,
        [.., last] => is_before(last.text.as_slice(), text),
    }
}

/// Whether an entry of this text may come behind the others, its lanes being unknown.
pub fn keeps_order(entries: &[RawEntry], text: &[u8]) -> bool
    ensures { result ≡ where_some keeps_order (last_name entries.now) text.now }
{
    match entries {
        [] => true,
        [.., last] => !is_before(text, last.front.name.text.as_slice()),
    }
}

// Whether the name is before the other one, by text and then by lanes.
fn name_before(a: &EntryName, b: &EntryName) -> bool
    ensures { result ≡ name_before a.now b.now }
{
    is_before(a.text.as_slice(), b.text.as_slice())
        || (!is_before(b.text.as_slice(), a.text.as_slice()) && a.lanes < b.lanes)
}

/// Whether an entry of this name may come behind the others.
pub fn follows_entries(entries: &[RawEntry], name: &EntryName) -> bool
    ensures { result ≡ where_some name_before (last_name entries.now) name.now }
{
    match entries {
        [] => true,
        [.., last] => name_before(&last.front.name, name),
    }
}
