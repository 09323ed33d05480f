// Directives one after the other, and items one after the other.

ghost use Rattle.std.specs.Prelude.{◌≡◌, [], ◌∷◌, ◌++◌, map, IfOk};
ghost use Rattle.vk_ast.specs.declared.items.Item.TheVariants.{Lost};

use crate::lists::append;
use std::alloc::Global;
use std::marker::Model;
use vk_ast::{Directive, Item};
use vk_memory::Memory;

/// Directives one after the other.
#[derive(Drop)]
pub struct DirectiveList {
    list: Vec<Directive>,
}

impl Model for DirectiveList {
    ghost use Rattle.std.specs.Coded.{codes};
    ghost use Rattle.std.specs.Prelude.{List};
    ghost use Rattle.vk_ast.specs.contracts.directives.Directive as code;
    ghost use Rattle.vk_ast.specs.declared.directives.Directive.{Directive};

    ghost Value = { List Directive };

    ghost coded = { Prim.hlevel (codes, code.the_row.coded) };

    ghost view = { λ l. l.list.items };
}

impl DirectiveList {
    /// None.
    pub fn new(alloc: Global) -> DirectiveList
        ensures { result ≡ [] }
    {
        DirectiveList {
            list: Vec::new(alloc),
        }
    }

    /// Adds one behind the others.
    pub fn push(&mut self, directive: Directive) -> Result<(), Memory>
        ensures { IfOk result (λ _. self.new ≡ self.old ++ directive ∷ []) }
    {
        self.list.push(directive)?;
        Ok(())
    }

    /// The directives themselves.
    pub fn into_vec(self) -> Vec<Directive>
        ensures { result.items ≡ self }
    {
        self.list
    }

    /// Each as an item by itself.
    pub fn into_items(self, alloc: Global) -> Result<ItemList, Memory>
        ensures { IfOk result (λ list. list ≡ map Lost self) }
    {
        Ok(ItemList {
            list: self.list.into_iter().map(Item::Lost).collect(alloc)?,
        })
    }
}

/// Items one after the other.
#[derive(Drop)]
pub struct ItemList {
    list: Vec<Item>,
}

impl Model for ItemList {
    ghost use Rattle.std.specs.Coded.{codes};
    ghost use Rattle.std.specs.Prelude.{List};
    ghost use Rattle.vk_ast.specs.contracts.items.Item as code;
    ghost use Rattle.vk_ast.specs.declared.items.Item.{Item};

    ghost Value = { List Item };

    ghost coded = { Prim.hlevel (codes, code.the_row.coded) };

    ghost view = { λ l. l.list.items };
}

impl ItemList {
    /// None.
    pub fn new(alloc: Global) -> ItemList
        ensures { result ≡ [] }
    {
        ItemList {
            list: Vec::new(alloc),
        }
    }

    /// Adds one behind the others.
    pub fn push(&mut self, item: Item) -> Result<(), Memory>
        ensures { IfOk result (λ _. self.new ≡ self.old ++ item ∷ []) }
    {
        self.list.push(item)?;
        Ok(())
    }

    /// Moves the items of another list behind these.
    pub fn append(&mut self, more: ItemList) -> Result<(), Memory>
        ensures { IfOk result (λ _. self.new ≡ self.old ++ more) }
    {
        append(&mut self.list, more.list)
    }

    /// The items themselves.
    pub fn into_vec(self) -> Vec<Item>
        ensures { result.items ≡ self }
    {
        self.list
    }
}
