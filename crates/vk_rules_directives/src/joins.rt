// The first fault of a part and of what was found before it.

ghost use Rattle.std.specs.Prelude.{◌≡◌, ◌&&◌, ◌||◌, is_none};
ghost use Rattle.vk_rules_directives.specs.Inner.Joins.{joined};

use vk_rules_names::Note;

// Notes the first fault of a part.
#[tactic(auto, using(vk_rules_book::proofs::Noting::among_one))]
pub(crate) fn join(note: &mut Note, part: Note)
    ensures { note.new.first ≡ joined note.old.first part.first }
{
    if let Some(fault) = part.first {
        note.add(true, fault);
    }
}

// Whether no fault was noted.
pub(crate) fn is_clear(note: Note) -> bool
    ensures { result ≡ is_none note.first }
{
    note.first.is_none()
}

pub(crate) fn both(a: bool, b: bool) -> bool
    ensures { result ≡ (a && b) }
{
    a && b
}

pub(crate) fn either(a: bool, b: bool) -> bool
    ensures { result ≡ (a || b) }
{
    a || b
}
