// The functions of a unit that breaks no rule.

ghost use Rattle.std.specs.Prelude.{◌≡◌, ◌≤◌, ◌∷◌, ◌++◌, ◌||◌, [], List, cond, length, map, true, is_some, IfOk, OnOk};
ghost use Rattle.vk_kinds.specs.Sizes.{signature_tree};
ghost use Rattle.vk_ast.specs.Units.{ItemTree, FunctionTree, function_of, item_of};
ghost use Rattle.vk_rules_book.specs.Directives.{have_signatures, signatures};
ghost use Rattle.vk_rules_book.specs.Rules.{faults_of};
ghost use Rattle.vk_rules_book.specs.Scopes.{is_print};
ghost use Rattle.vk_rules_names.specs.Seen.{number_at};
ghost use Rattle.vk_rules.specs.Entries.{AreEntries, IsEntry};
ghost use Rattle.vk_rules.specs.Functions.{function_at, functions_from};
ghost use Rattle.vk_rules.specs.Inner.Walk.{IsSound, Knows};

use std::alloc::Global;
use vk_ast::{Function, Item, Memory, NameId, NameTable};
use vk_kinds::{Head, Signature, Target};
use vk_rules_names::{Place, declare_next, no_declarations};
use vk_rules_signatures::{head_of, signature_of};

/// A function, by its first declaration.
#[derive(Drop)]
pub struct Entry {
    pub name: NameId,
    pub head: Head,
    /// One for each directive.
    pub signatures: Vec<Signature>,
}

// What the directives of a function say.
fn signatures_of(alloc: Global, f: &Function) -> Result<Vec<Signature>, Memory>
    requires { have_signatures (function_of f.now) ≡ true }
    ensures { IfOk result (λ list. map signature_tree list.items ≡ signatures (function_of f.now)) }
{
    let mut list = Vec::new(alloc);
    for d in &f.directives {
        list.push(signature_of(f, d))?;
    }
    Ok(list)
}

// The entry of a function.
fn entry_of(alloc: Global, f: &Function) -> Result<Entry, Memory>
    requires sound { have_signatures (function_of f.now) ≡ true }
    requires count { length f.now.params.items ≤ 64 }
    ensures { IfOk result (λ entry. IsEntry (function_of f.now) entry) }
{
    Ok(Entry {
        name: f.name,
        head: head_of(f),
        signatures: signatures_of(alloc, f)?,
    })
}

// Whether the table has an item for the name.
fn is_declared(first: &[Option<usize>], id: NameId) -> bool
    ensures { result ≡ is_some (number_at first.now id) }
{
    match first.get(id.0 as usize) {
        Some(Some(_)) => true,
        Some(None) => false,
        None => false,
    }
}

// Whether the name is declared at the place, or is `print`.
fn is_known(place: &Place, id: NameId) -> bool
    ensures { result ≡ (is_some (number_at place.now.first.now id) || is_print place.now.names.now id) }
{
    is_declared(place.first, id) || place.with(&[], 0).is_print(id)
}

// Adds the entry of a function, unless its name is known.
fn add_function(
    alloc: Global,
    known: bool,
    f: &Function,
    entries: &mut Vec<Entry>,
) -> Result<(), Memory>
    requires sound { have_signatures (function_of f.now) ≡ true }
    requires count { length f.now.params.items ≤ 64 }
    ensures { (fs : List FunctionTree) → AreEntries fs entries.old.items →
        OnOk result (AreEntries (fs ++ cond known [] (function_of f.now ∷ [])) entries.new.items) }
{
    if known {
        return Ok(());
    }
    let entry = entry_of(alloc, f)?;
    entries.push(entry)?;
    Ok(())
}

// Adds the entry of an item that declares a function first.
fn add_item(
    alloc: Global,
    place: &Place,
    item: &Item,
    entries: &mut Vec<Entry>,
) -> Result<(), Memory>
    requires { IsSound (item_of item.now) }
    ensures { (before : List ItemTree) → Knows place.now.first.now before → (fs : List FunctionTree) → AreEntries fs entries.old.items →
        OnOk result (AreEntries (fs ++ function_at place.now.names.now before (item_of item.now)) entries.new.items) }
{
    match item {
        Item::Function(f) => {
            let known = is_known(place, f.name);
            add_function(alloc, known, f, entries)?;
            Ok(())
        }
        Item::Object(_) => Ok(()),
        Item::Lost(_) => Ok(()),
    }
}

/// The entries of all functions of a unit that breaks no rule.
pub fn entries_of(
    alloc: Global,
    target: Target,
    names: &NameTable,
    items: &[Item],
) -> Result<Vec<Entry>, Memory>
    requires { faults_of (record { items = map item_of items.now; texts = names.now; target = target }) ≡ [] }
    ensures { IfOk result (λ entries. AreEntries (functions_from names.now [] (map item_of items.now)) entries.items) }
{
    let mut first = no_declarations(alloc, names.len())?;
    let mut entries = Vec::new(alloc);
    for (number, item) in items.iter().enumerate() {
        let place = Place {
            target,
            names,
            items,
            first: &first,
        };
        add_item(alloc, &place, item, &mut entries)?;
        declare_next(&mut first, items, number)?;
    }
    Ok(entries)
}
