// Reading a name that comes in pieces.
ghost use Rattle.std.specs.Prelude.{◌≡◌, ℕ, ◌<◌, List, [], ◌++◌, length, IfOk, IfErr, IsOkAnd, IsErrAnd, IsTrue, IsFalse};
ghost use Rattle.vk_names.specs.Spelling.{Name, text_of, name_in, Spells};
ghost use Rattle.vk_names.specs.declared.rules.NameRule.{NameRule};
ghost use Rattle.vk_names.specs.Refusal.{NameRefused};
ghost use Rattle.vk_names.specs.Pieces.{told_at, is_ended, is_due, SaysRefused, IfMore, IfDone, IfFault, IsDoneAnd, IsFaultAnd};
ghost use Rattle.vk_names.specs.Inner.Steps.{end_on};
ghost use Rattle.vk_names.specs.Inner.Feeds.{Stands, IsRead, IsProgress, IsEnd};

use crate::names::{NameHead, ReadName};
use crate::rules::{NameFault, NameRule};
use crate::shortcuts::run_on;
use crate::states::{Found, State, end_on};
use vk_kinds::Params;

/// What a feed answers.
#[derive(PartialEq, Eq, Debug, Drop)]
pub enum Progress {
    /// Nothing is due to be answered yet.
    More,
    /// The name has ended.
    Done(ReadName),
    /// Whatever follows, the bytes are refused so.
    Fault(NameFault),
}

/// A name that comes in pieces. It stands for all bytes that were fed to it, and keeps none of them: only what was read
/// of them so far.
#[derive(Drop)]
pub struct NameFeed {
    state: State,
    /// The whole parameters so far.
    params: Params,
}

impl NameFeed {
    /// A feed of no byte yet.
    pub fn new() -> NameFeed
        ensures { Stands result [] }
    {
        NameFeed {
            state: State::Mark(0),
            params: Params::new(),
        }
    }

    /// Takes the next piece, and answers by all bytes that were fed, in whatever pieces and however many.
    ///
    /// `Done` comes once a byte that ends the text was fed and the text is a name. A fault comes once that byte was
    /// fed, or before it where the refusal is told. Either stays the answer, whatever is fed after it. A place past
    /// `u32::MAX` is told as `u32::MAX`.
    pub fn feed(&mut self, piece: &[u8]) -> Progress
        ensures fed { (bytes : List ℕ) → Stands self.old bytes → Stands self.new (bytes ++ piece.now) }
        // More comes only before the text has ended: in every case but those of the two answers below.
        ensures more { (bytes : List ℕ) → Stands self.new bytes → IfMore result (IsFalse (is_ended bytes)) }
        // Done comes only where the text has ended, with the name that the bytes spell.
        ensures ended { (bytes : List ℕ) → Stands self.new bytes → IfDone result (λ r. IsTrue (is_ended bytes)) }
        ensures spelled { (bytes : List ℕ) → Stands self.new bytes
            → IfDone result (λ r. Spells (name_in r.head r.scalar_at r.used bytes) bytes) }
        ensures scalar { (bytes : List ℕ) → Stands self.new bytes → IfDone result (λ r. r.scalar_at < r.used) }
        ensures used { (bytes : List ℕ) → Stands self.new bytes
            → IfDone result (λ r. r.used ≡ length (text_of bytes)) }
        // A fault comes only where it is due, and the bytes are refused so.
        ensures refused { (bytes : List ℕ) → Stands self.new bytes
            → IfFault result (λ fault. SaysRefused bytes fault) }
        ensures due { (bytes : List ℕ) (at : ℕ) (rule : NameRule) → Stands self.new bytes → NameRefused bytes at rule
            → IfFault result (λ fault. IsTrue (is_due bytes at rule)) }
        // Each name and each refusal that is due is answered.
        ensures every_name { (bytes : List ℕ) (name : Name) → Stands self.new bytes → IsTrue (is_ended bytes)
            → Spells name bytes → IsDoneAnd result (λ r. name_in r.head r.scalar_at r.used bytes ≡ name) }
        ensures every_fault { (bytes : List ℕ) (at : ℕ) (rule : NameRule) → Stands self.new bytes
            → IsTrue (is_due bytes at rule) → NameRefused bytes at rule
            → IsFaultAnd result (λ fault. (fault.at ≡ told_at at) × (fault.rule ≡ rule)) }
        // What was due before this piece is answered again.
        ensures again_name { (bytes : List ℕ) (name : Name) → Stands self.old bytes → IsTrue (is_ended bytes)
            → Spells name bytes
            → IsDoneAnd result (λ r. name_in r.head r.scalar_at r.used (bytes ++ piece.now) ≡ name) }
        ensures again_used { (bytes : List ℕ) → Stands self.old bytes → IsTrue (is_ended bytes)
            → IfDone result (λ r. r.used ≡ length (text_of bytes)) }
        ensures again_fault { (bytes : List ℕ) (at : ℕ) (rule : NameRule) → Stands self.old bytes
            → IsTrue (is_due bytes at rule) → NameRefused bytes at rule
            → IsFaultAnd result (λ fault. (fault.at ≡ told_at at) × (fault.rule ≡ rule)) }
    {
        self.take_all(piece);
        self.progress()
    }

    /// What `read_name` answers of all bytes that were fed. A place past `u32::MAX` is told as `u32::MAX`.
    pub fn end(&mut self) -> Result<ReadName, NameFault>
        ensures same { self.new ≡ self.old }
        ensures spelled { (bytes : List ℕ) → Stands self.old bytes
            → IfOk result (λ r. Spells (name_in r.head r.scalar_at r.used bytes) bytes) }
        ensures scalar { (bytes : List ℕ) → Stands self.old bytes → IfOk result (λ r. r.scalar_at < r.used) }
        ensures used { (bytes : List ℕ) → Stands self.old bytes
            → IfOk result (λ r. r.used ≡ length (text_of bytes)) }
        ensures refused { (bytes : List ℕ) → Stands self.old bytes → IfErr result (λ fault. SaysRefused bytes fault) }
        ensures every_name { (bytes : List ℕ) (name : Name) → Stands self.old bytes → Spells name bytes
            → IsOkAnd result (λ r. name_in r.head r.scalar_at r.used bytes ≡ name) }
        ensures every_fault { (bytes : List ℕ) (at : ℕ) (rule : NameRule) → Stands self.old bytes
            → NameRefused bytes at rule
            → IsErrAnd result (λ fault. (fault.at ≡ told_at at) × (fault.rule ≡ rule)) }
    {
        self.ended()
    }

    /// Takes some bytes.
    pub(crate) fn take_all(&mut self, piece: &[u8])
        ensures { (bytes : List ℕ) → Stands self.old bytes → Stands self.new (bytes ++ piece.now) }
    {
        self.state = run_on(self.state, &mut self.params, piece);
    }

    /// The name that was found.
    fn name(&self, found: Found) -> ReadName
        ensures { IsRead found self.now.params.items result }
    {
        let mut params = Params::new();
        let _fits = params.try_extend_from_slice(self.params.as_slice());
        name_of(found, params)
    }

    fn progress(&self) -> Progress
        ensures { IsProgress self.now.params.items self.now.state result }
    {
        match self.state {
            State::Done(found) => Progress::Done(self.name(found)),
            State::Fault(fault) => Progress::Fault(fault),
            _ => Progress::More,
        }
    }

    fn ended(&self) -> Result<ReadName, NameFault>
        ensures { IsEnd self.now.params.items (end_on self.now.state) result }
    {
        match end_on(self.state) {
            Ok(found) => Ok(self.name(found)),
            Err(fault) => Err(fault),
        }
    }

    /// What `end` answers, of a feed that is done with.
    pub(crate) fn finish(self) -> Result<ReadName, NameFault>
        ensures { IsEnd self.params.items (end_on self.state) result }
    {
        match end_on(self.state) {
            Ok(found) => Ok(name_of(found, self.params)),
            Err(fault) => Err(fault),
        }
    }
}

/// The name that was found, with these parameters.
fn name_of(found: Found, params: Params) -> ReadName
    ensures { IsRead found params.items result }
{
    ReadName {
        head: NameHead {
            isa: found.front.isa,
            masked: found.front.masked,
            len: found.front.len,
            params,
        },
        scalar_at: found.scalar_at,
        used: found.used,
    }
}
