// Units that are accepted.

ghost use Rattle.std.specs.Prelude.{◌≡◌, ◌<◌, length, slice_get, IsSomeAnd};
ghost use Rattle.vk_kinds.specs.Sizes.{head_types, signature_tree};
ghost use Rattle.vk_rules_book.specs.Directives.{signatures};
ghost use Rattle.vk_rules_book.specs.Scopes.{text_of};
ghost use Rattle.vk_rules_book.specs.Signatures.{head_of};
ghost use Rattle.vk_rules.specs.Entries.{IsEntry};
ghost use Rattle.vk_rules.specs.Functions.{directives_at, functions_of};
ghost use Rattle.vk_rules.specs.Verdicts.{judged};

use crate::entries::Entry;
use std::marker::Model;
use vk_ast::{NameId, Unit};
use vk_kinds::{Head, Signature, Target};

/// A unit of C, and what it is compiled for.
#[derive(Drop)]
pub struct Source {
    pub unit: Unit,
    pub target: Target,
}

/// A unit that breaks none of the rules C8 to C18 and D1 to D19, and what it is compiled for.
///
/// Its functions are numbered from 0 in the order of their first declarations, `print` left out; what is told of one is what
/// its first declaration says.
#[derive(Drop)]
pub struct Checked {
    pub(crate) source: Source,
    pub(crate) entries: Vec<Entry>,
}

impl Model for Checked {
    ghost use Rattle.std.specs.Coded.{codes};
    ghost use Rattle.std.specs.Prelude.{◌≡◌, []};
    ghost use Rattle.vk_rules_book.specs.Rules.{faults_of};
    ghost use Rattle.vk_rules.specs.contracts.accepted.Source as code;
    ghost use Rattle.vk_rules.specs.declared.accepted.Source.{Source};
    ghost use Rattle.vk_rules.specs.Entries.{AreEntries};
    ghost use Rattle.vk_rules.specs.Entries.{IsEntry};
    ghost use Rattle.vk_rules.specs.Functions.{functions_of};
    ghost use Rattle.vk_rules.specs.Verdicts.{judged};

    ghost Value = { Source };

    ghost coded = { Prim.hlevel (codes, code.the_row.coded) };

    ghost view = { λ c. c.source };

    ghost invariant = { λ c. (faults_of (judged c.source) ≡ []) × AreEntries (functions_of (judged c.source)) c.entries.items };
}

impl Checked {
    /// The number of its functions.
    pub fn functions(&self) -> usize
        ensures { result ≡ length (functions_of (judged self.now)) }
    {
        self.entries.len()
    }

    // What is kept of a function.
    fn entry(&self, f: usize) -> &Entry
        requires { f < length (functions_of (judged self.now)) }
        ensures { IsSomeAnd (slice_get (functions_of (judged self.now)) f) (λ g. IsEntry g result.now) }
    {
        &self.entries[f]
    }

    /// The types of a function.
    pub fn head(&self, f: usize) -> &Head
        requires { f < length (functions_of (judged self.now)) }
        ensures { IsSomeAnd (slice_get (functions_of (judged self.now)) f) (λ g. head_types result.now ≡ head_of g) }
    {
        &self.entry(f).head
    }

    /// The name of a function.
    pub fn name(&self, f: usize) -> &[u8]
        requires { f < length (functions_of (judged self.now)) }
        ensures { IsSomeAnd (slice_get (functions_of (judged self.now)) f) (λ g. result.now ≡ text_of self.now.unit.names g.name) }
    {
        text(&self.source.unit, self.entry(f).name)
    }

    /// The number of a function's directives.
    pub fn directives(&self, f: usize) -> usize
        requires { f < length (functions_of (judged self.now)) }
        ensures { result ≡ directives_at (judged self.now) f }
    {
        self.entry(f).signatures.len()
    }

    /// What a directive of a function says.
    pub fn signature(&self, f: usize, d: usize) -> &Signature
        requires function { f < length (functions_of (judged self.now)) }
        requires directive { d < directives_at (judged self.now) f }
        ensures { IsSomeAnd (slice_get (functions_of (judged self.now)) f) (λ g. slice_get (signatures g) d ≡ Some (signature_tree result.now)) }
    {
        let entry = self.entry(f);
        &entry.signatures[d]
    }

    /// The unit.
    pub fn unit(&self) -> &Unit
        ensures { result.now ≡ self.now.unit }
    {
        &self.source.unit
    }

    /// What it is compiled for.
    pub fn target(&self) -> Target
        ensures { result ≡ self.now.target }
    {
        self.source.target
    }
}

// The text of a name, empty where the unit has none.
pub(crate) fn text(unit: &Unit, id: NameId) -> &[u8]
    ensures { result.now ≡ text_of unit.now.names id }
{
    if (id.0 as usize) < unit.names.len() {
        unit.names.text(id)
    } else {
        &[]
    }
}
