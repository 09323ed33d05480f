// The laws of images that join objects.

ghost use Rattle.std.specs.Prelude.{◌≡◌, ◌≤◌, ℕ, List, true};
ghost use Rattle.vk_object.specs.Images.{is_image, is_within};
ghost use Rattle.vk_object.specs.Machine.{entry_at};
ghost use Rattle.vk_object.specs.Tables.{Tables};
ghost use Rattle.vk_joins.specs.Carries.{AreAccepted, HasArraysOf, HaveTables, Pair, objects_of, units_of};
ghost use Rattle.vk_joins.specs.Joins.{Joins};

/// An image that joins objects has the arrays of their accepted units, in the same order.
pub fn arrays_stay()
    ensures { (image : Tables) (ps : List Pair) → is_image image ≡ true → AreAccepted ps → HaveTables ps
        → Joins image (objects_of ps) → HasArraysOf image (units_of ps) }
{}

/// Where an entry's calls are at most so many deep, more depth changes nothing of what it does.
pub fn depth_of_entries_is_of_no_matter()
    ensures { (image : Tables) (turns depth more e : ℕ) → depth ≤ more → is_within image depth e ≡ true
        → entry_at image turns depth e ≡ entry_at image turns more e }
{}
