//! Lists of texts.
ghost use Rattle.std.specs.Prelude.{◌≡◌, ℕ, List, [], ◌∷◌, ◌++◌, map, OnOk, OnErr, string_bytes};

use std::alloc::Global;
use std::marker::Model;
use vk_memory::Memory;

/// A list of texts, as the words of a command line.
#[derive(Drop)]
pub struct Words {
    alloc: Global,
    texts: Vec<String>,
}

impl Model for Words {
    ghost Value = { List (List ℕ) };

    ghost view = { λ words. map string_bytes words.texts.items };
}

impl Words {
    /// The empty list.
    pub fn new(alloc: Global) -> Words
        ensures { result ≡ [] }
    {
        Words {
            alloc,
            texts: Vec::new(alloc),
        }
    }

    /// Adds a text at the end.
    pub fn push(&mut self, text: &str) -> Result<(), Memory>
        ensures ok { OnOk result (self.new ≡ self.old ++ text.now ∷ []) }
        ensures err { OnErr result (self.new ≡ self.old) }
    {
        let text = String::from_str(self.alloc, text)?;
        self.texts.push(text)?;
        Ok(())
    }

    /// The texts, first to last.
    pub fn texts(&self) -> &[String]
        ensures { map string_bytes result.now ≡ self.now }
    {
        &self.texts
    }
}
