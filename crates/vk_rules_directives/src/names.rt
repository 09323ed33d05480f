// Tables by the numbers of names.

ghost use Rattle.std.specs.Prelude.{◌≡◌, ◌<◌, ◌&&◌, ◌||◌, cond, false, not, length, IfOk, OnOk, None, Some};
ghost use Rattle.std.specs.Option.{option_or};
ghost use Rattle.vk_ast.specs.declared.names.NameId.{NameId};
ghost use Rattle.vk_rules_book.specs.Scopes.{same_name};
ghost use Rattle.vk_rules_directives.specs.Inner.Tables.{Holds, has, nothing, type_at};

use std::alloc::Global;
use vk_ast::{Memory, NameId};
use vk_kinds::CType;

// A set of names.
#[derive(Drop)]
pub(crate) struct NameSet {
    marks: Vec<bool>,
}

impl NameSet {
    // The empty set, with room for so many names.
    pub(crate) fn new(alloc: Global, names: usize) -> Result<NameSet, Memory>
        ensures { IfOk result (λ set. Holds set nothing) }
    {
        let mut marks = Vec::new(alloc);
        marks.resize(names, false)?;
        Ok(NameSet { marks })
    }

    // Makes the table longer than this place. What it says stays.
    fn reach(&mut self, place: usize) -> Result<(), Memory>
        requires { place < 4294967296 }
        ensures room { OnOk result (place < length self.new.marks.items) }
        ensures same { OnOk result ((id : NameId) → has self.new id ≡ has self.old id) }
    {
        if place >= self.marks.len() {
            self.marks.resize(place + 1, false)?;
        }
        Ok(())
    }

    pub(crate) fn add(&mut self, id: NameId) -> Result<(), Memory>
        ensures { OnOk result ((other : NameId) → has self.new other ≡ (has self.old other || same_name id other)) }
    {
        let place = id.0 as usize;
        self.reach(place)?;
        self.marks[place] = true;
        Ok(())
    }

    pub(crate) fn remove(&mut self, id: NameId)
        ensures { (other : NameId) → has self.new other ≡ (has self.old other && not (same_name id other)) }
    {
        let place = id.0 as usize;
        if place < self.marks.len() {
            self.marks[place] = false;
        }
    }

    pub(crate) fn has(&self, id: NameId) -> bool
        ensures { result ≡ has self.now id }
    {
        match self.marks.get(id.0 as usize) {
            Some(mark) => *mark,
            None => false,
        }
    }
}

// The table of no parameter, with room for so many names.
pub(crate) fn no_types(alloc: Global, names: usize) -> Result<Vec<Option<CType>>, Memory>
    ensures { IfOk result (λ types. (id : NameId) → type_at types.items id ≡ None) }
{
    let mut types = Vec::new(alloc);
    types.resize(names, None)?;
    Ok(types)
}

// Makes the table longer than this place. What it says stays.
fn reach(types: &mut Vec<Option<CType>>, place: usize) -> Result<(), Memory>
    requires { place < 4294967296 }
    ensures room { OnOk result (place < length types.new.items) }
    ensures same { OnOk result ((id : NameId) → type_at types.new.items id ≡ type_at types.old.items id) }
{
    if place >= types.len() {
        types.resize(place + 1, None)?;
    }
    Ok(())
}

// Sets what the table has for a name.
fn set_type(types: &mut Vec<Option<CType>>, id: NameId, ctype: Option<CType>) -> Result<(), Memory>
    ensures { OnOk result ((other : NameId) → type_at types.new.items other ≡ cond (same_name id other) ctype (type_at types.old.items other)) }
{
    let place = id.0 as usize;
    reach(types, place)?;
    types[place] = ctype;
    Ok(())
}

// Notes the type of a parameter. A name keeps its first one.
pub(crate) fn add_type(
    types: &mut Vec<Option<CType>>,
    id: NameId,
    ctype: CType,
) -> Result<(), Memory>
    ensures { OnOk result ((other : NameId) →
        type_at types.new.items other ≡ option_or (type_at types.old.items other) (cond (same_name id other) (Some ctype) None)) }
{
    let known = type_at(types, id);
    set_type(types, id, known.or(Some(ctype)))
}

// Takes a name out of the table.
pub(crate) fn remove_type(types: &mut Vec<Option<CType>>, id: NameId) -> Result<(), Memory>
    ensures { OnOk result ((other : NameId) → type_at types.new.items other ≡ cond (same_name id other) None (type_at types.old.items other)) }
{
    set_type(types, id, None)
}

pub(crate) fn type_at(types: &[Option<CType>], id: NameId) -> Option<CType>
    ensures { result ≡ type_at types.now id }
{
    match types.get(id.0 as usize) {
        Some(ctype) => *ctype,
        None => None,
    }
}
