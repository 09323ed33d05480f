// The table of names.

ghost use Rattle.std.specs.Prelude.{◌≡◌, ℕ, ◌<◌, List, [], ◌∷◌, ◌++◌, map, length, slice_get, Some, Contains, IfOk, IsErr, OnErr};
ghost use Rattle.vk_ast.specs.Names.{texts_of, IsAdded, AreDistinct};
ghost use Rattle.indexmap.specs.IndexSet.{IsUnique};

use indexmap::IndexSet;
use std::alloc::Global;
use std::marker::Model;
use vk_memory::Memory;

/// The number of a name in its table, from 0.
#[derive(Clone, Copy, PartialEq, Eq, Debug)]
pub struct NameId(pub u32);

/// A table of names: a list of different texts, in the order in which they were added.
#[derive(Drop)]
pub struct NameTable {
    alloc: Global,
    texts: IndexSet<Vec<u8>>,
}

impl Model for NameTable {
    ghost Value = { List (List ℕ) };

    ghost view = { λ t. texts_of t.texts };
}

impl NameTable {
    /// A table of no name.
    pub fn new(alloc: Global) -> NameTable
        ensures { result ≡ [] }
    {
        NameTable {
            alloc,
            texts: IndexSet::new(alloc),
        }
    }

    /// The number of names.
    pub fn len(&self) -> usize
        ensures length { result ≡ length self.now }
        ensures distinct { AreDistinct self.now }
    {
        self.texts.len()
    }

    /// The number of the text: its own, or the next one where the text was not there. All others keep their texts.
    /// For want of memory the table stays as it was.
    pub fn add(&mut self, text: &[u8]) -> Result<NameId, Memory>
        requires { length self.old < 4294967295 }
        ensures added { IfOk result (λ id. IsAdded self.old self.new text.now id.0) }
        ensures same { OnErr result (self.new ≡ self.old) }
    {
        let _count = self.texts.len();
        if let Some(at) = self.texts.get_index_of(text) {
            return Ok(NameId(at as u32));
        }
        let mut name = Vec::new(self.alloc);
        name.extend_from_slice(text)?;
        let (at, _) = self.texts.insert_full(name)?;
        Ok(NameId(at as u32))
    }

    /// The text with this number, which is below the number of names.
    pub fn text(&self, id: NameId) -> &[u8]
        requires { id.0 < length self.now }
        ensures { slice_get self.now id.0 ≡ Some result.now }
    {
        match self.texts.get_index(id.0 as usize) {
            Some(text) => text.as_slice(),
            None => &[],
        }
    }
}
