// The directives of a function, one after another.

ghost use Rattle.std.specs.Prelude.{◌≡◌, ◌&&◌, ◌++◌, [], ◌∷◌, List, map, is_some, None, IfOk, OnOk};
ghost use Rattle.vk_ast.specs.declared.names.NameId.{NameId};
ghost use Rattle.vk_ast.specs.Directives.{DirectiveTree, directive_of};
ghost use Rattle.vk_ast.specs.Units.{function_of};
ghost use Rattle.vk_rules_book.specs.Directives.{all_entry_faults, all_said_faults, is_empty};
ghost use Rattle.vk_rules_book.specs.Noting.{found};
ghost use Rattle.vk_rules_book.specs.Visits.{clause_visits, directive, directive_visits, entries_of, entry_visits};
ghost use Rattle.vk_rules_names.specs.Seen.{unit_of};
ghost use Rattle.vk_rules_directives.specs.Inner.Marks.{AreEmpty, AreRead, form_visits, is_sound, own_visits};
ghost use Rattle.vk_rules_directives.specs.Inner.Signed.{AreSigned, seen, signed};
ghost use Rattle.vk_rules_directives.specs.Inner.Tables.{AreTypes, Holds, nothing};

use crate::clauses::judge_clauses;
use crate::entries::{At, judge_entries};
use crate::joins::{both, join};
use crate::listing::{entries_of, forget, mark_uniform};
use crate::names::NameSet;
use crate::signed::{Signed, sign};
use crate::whole::judge_whole;
use std::alloc::Global;
use vk_ast::{Clause, Function, Memory};
use vk_kinds::{CType, Signature};
use vk_rules_book::Entry;
use vk_rules_names::{Note, Place};

// Sets of names that the directive that is judged lists, empty between directives.
#[derive(Drop)]
pub(crate) struct Marks {
    // by `uniform`
    pub(crate) uniform: NameSet,
    // by `uniform` or `linear`, before the name that is judged
    pub(crate) shaped: NameSet,
    // by `aligned`, before the name that is judged
    pub(crate) aligned: NameSet,
}

impl Marks {
    // Empty sets, with room for so many names.
    pub(crate) fn new(alloc: Global, names: usize) -> Result<Marks, Memory>
        ensures { IfOk result AreEmpty }
    {
        let uniform = NameSet::new(alloc, names)?;
        let shaped = NameSet::new(alloc, names)?;
        let aligned = NameSet::new(alloc, names)?;
        Ok(Marks {
            uniform,
            shaped,
            aligned,
        })
    }

    // Takes out the names of a directive whose names these sets have.
    fn clear(&mut self, entries: &[Entry])
        requires { AreRead self.old entries.now }
        ensures { AreEmpty self.new }
    {
        forget(&mut self.uniform, entries);
        forget(&mut self.shaped, entries);
        forget(&mut self.aligned, entries);
    }
}

// Judges the clauses of a directive and these names, which they list; the answer is whether they break none of D1 to D14.
#[tactic(auto, using(vk_rules_book::proofs::Noting::found_append))]
fn judge_read(
    at: &At,
    marks: &mut Marks,
    entries: &[Entry],
    note: &mut Note,
) -> Result<bool, Memory>
    requires entries { entries.now ≡ entries_of (directive_of at.now.d.now).clauses }
    requires types { AreTypes at.now.types.now at.now.f.now.params.items }
    requires marks { AreEmpty marks.old }
    ensures noted { OnOk result (note.new.first ≡ found (unit_of at.now.place.now) note.old.first (form_visits (function_of at.now.f.now) (directive_of at.now.d.now))) }
    ensures sound { IfOk result (λ sound. sound ≡ is_sound (function_of at.now.f.now) (directive_of at.now.d.now)) }
    ensures marks { OnOk result (AreEmpty marks.new) }
{
    mark_uniform(&mut marks.uniform, entries)?;
    let right = judge_clauses(at, &marks.uniform, &at.d.clauses, note);
    let listed = judge_entries(at, &mut marks.shaped, &mut marks.aligned, entries, note)?;
    marks.clear(entries);
    Ok(both(right, listed))
}

// Judges the clauses of a directive and the names that they list; the answer is whether they break none of D1 to D14.
fn judge_form(alloc: Global, at: &At, marks: &mut Marks, note: &mut Note) -> Result<bool, Memory>
    requires types { AreTypes at.now.types.now at.now.f.now.params.items }
    requires marks { AreEmpty marks.old }
    ensures noted { OnOk result (note.new.first ≡ found (unit_of at.now.place.now) note.old.first (form_visits (function_of at.now.f.now) (directive_of at.now.d.now))) }
    ensures sound { IfOk result (λ sound. sound ≡ is_sound (function_of at.now.f.now) (directive_of at.now.d.now)) }
    ensures marks { OnOk result (AreEmpty marks.new) }
{
    let entries = entries_of(alloc, &at.d.clauses)?;
    let sound = judge_read(at, marks, &entries, note)?;
    Ok(sound)
}

// Judges a directive behind others, whose signatures these are.
fn judge_directive(
    alloc: Global,
    at: &At,
    marks: &mut Marks,
    earlier: &[Option<Signature>],
    note: &mut Note,
) -> Result<Option<Signature>, Memory>
    requires types { AreTypes at.now.types.now at.now.f.now.params.items }
    requires marks { AreEmpty marks.old }
    ensures noted { (before : List DirectiveTree) → map seen earlier.now ≡ map (signed (function_of at.now.f.now)) before →
        OnOk result (note.new.first ≡ found (unit_of at.now.place.now) note.old.first (own_visits (function_of at.now.f.now) before (directive_of at.now.d.now))) }
    ensures signature { IfOk result (λ s. seen s ≡ signed (function_of at.now.f.now) (directive_of at.now.d.now)) }
    ensures marks { OnOk result (AreEmpty marks.new) }
{
    let mut part = Note { first: None };
    let sound = judge_form(alloc, at, marks, &mut part)?;
    let signature = sign(at.f, at.d, sound);
    judge_whole(at.place.target, at.f, earlier, &signature, at.d, note);
    join(note, part);
    Ok(signature)
}

fn has_one(signature: &Option<Signature>) -> bool
    ensures { result ≡ is_some (seen signature.now) }
{
    signature.is_some()
}

// Judges the directives of a function, one after another.
pub(crate) fn judge_list(
    alloc: Global,
    place: &Place,
    types: &[Option<CType>],
    marks: &mut Marks,
    f: &Function,
    note: &mut Note,
) -> Result<Signed, Memory>
    requires types { AreTypes types.now f.now.params.items }
    requires marks { AreEmpty marks.old }
    ensures noted { OnOk result (note.new.first ≡ found (unit_of place.now) note.old.first (directive_visits (function_of f.now) [] (map directive_of f.now.directives.items))) }
    ensures signed { IfOk result (λ s. AreSigned s (function_of f.now)) }
    ensures marks { OnOk result (AreEmpty marks.new) }
{
    let mut list = Vec::new(alloc);
    let mut all = true;
    for d in &f.directives {
        let at = At { place, f, d, types };
        let signature = judge_directive(alloc, &at, marks, &list, note)?;
        all = both(all, has_one(&signature));
        list.push(signature)?;
    }
    Ok(Signed { list, all })
}
