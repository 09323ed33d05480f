// What the words of a command line ask.

ghost use Rattle.std.specs.Prelude.{◌≡◌, ℕ, List, IfOk, IsErr, IsErrOf, IfSome, IsNone, map, string_bytes, false};
ghost use Rattle.clap.specs.Words.{takes};
ghost use Rattle.vk_requests.specs.Command.{Command, IsCommand, IsUnstated, IsWordFault, Picks, command_of, name_text, table_of};
ghost use Rattle.vk_requests.specs.declared.request.Name.{Name as NameOf};
ghost use Rattle.vk_ends.specs.declared.ends.WordRule.{WordRule as RuleOf};

use std::alloc::Global;
use vk_ends::WordRule;
use vk_words::MangleRequest;
use vk_words::demangle::demangle_of;
use vk_words::mangle::mangle_of;
use vk_words::matching::NoRequest;
use vk_words_units::{LanesRequest, lanes_of};

/// The commands that are built.
#[derive(Clone, Copy)]
pub enum Name {
    Demangle,
    Lanes,
    Mangle,
}

/// What is asked.
#[derive(Drop)]
pub enum Request<'a> {
    /// `demangle`: tells the vector names of this file in words.
    Demangle(&'a str),
    /// `lanes`: calls a variant of a unit.
    Lanes(LanesRequest<'a>),
    /// `mangle`: gives the vector names of a unit.
    Mangle(MangleRequest<'a>),
}

/// Why there is no request.
#[derive(Clone, Copy)]
pub enum WordFail {
    Fault(WordRule),
    Memory,
}

// The command that a word names.
fn name_of(word: &str) -> Option<Name>
    ensures found { IfSome result (λ n. word.now ≡ name_text n) }
    ensures none { IsNone result → (n : NameOf) → word.now ≡ name_text n → ⊥ }
{
    match word {
        "demangle" => Some(Name::Demangle),
        "lanes" => Some(Name::Lanes),
        "mangle" => Some(Name::Mangle),
        _ => None,
    }
}

// What the words of a command ask.
fn asked_of<'a>(alloc: Global, name: Name, words: &'a [String]) -> Result<Request<'a>, NoRequest>
    requires { Picks (map string_bytes words.now) name }
    ensures found { IfOk result (λ r. IsCommand (map string_bytes words.entry.now) (command_of r)) }
    ensures refused { IsErrOf result NoRequest.Refused → takes (table_of name) (map string_bytes words.entry.now) ≡ false }
    ensures unstated { IsErrOf result NoRequest.Unstated → IsUnstated name (map string_bytes words.entry.now) }
{
    match name {
        Name::Demangle => Ok(Request::Demangle(demangle_of(alloc, words)?)),
        Name::Lanes => Ok(Request::Lanes(lanes_of(alloc, words)?)),
        Name::Mangle => Ok(Request::Mangle(mangle_of(alloc, words)?)),
    }
}

// The request, or the first rule that is broken.
fn judged<'a>(alloc: Global, words: &'a [String]) -> Result<Request<'a>, WordFail>
    ensures found { IfOk result (λ r. IsCommand (map string_bytes words.entry.now) (command_of r)) }
    ensures fault { (rule : RuleOf) → IsErrOf result (WordFail.Fault rule) → IsWordFault (map string_bytes words.entry.now) rule }
{
    let Some(first) = words.first() else {
        return Err(WordFail::Fault(WordRule::P1));
    };
    let Some(name) = name_of(first.as_str()) else {
        return Err(WordFail::Fault(WordRule::P2));
    };
    match asked_of(alloc, name, words) {
        Ok(request) => Ok(request),
        Err(NoRequest::Refused) => Err(WordFail::Fault(WordRule::P3)),
        Err(NoRequest::Unstated) => Err(WordFail::Fault(WordRule::P4)),
        Err(NoRequest::Memory) => Err(WordFail::Memory),
    }
}

/// What the words ask, or the rule that they break: P1 where there is no word, P2 where the first is no command, P3 where the
/// command's table does not take the others, P4 where a value is not one of those stated.
pub fn request_of<'a>(alloc: Global, words: &'a [String]) -> Result<Request<'a>, WordFail>
    ensures found { IfOk result (λ r. IsCommand (map string_bytes words.entry.now) (command_of r)) }
    ensures only { (k : Command) → IsCommand (map string_bytes words.entry.now) k → IfOk result (λ r. command_of r ≡ k) }
    ensures due { (k : Command) → IsCommand (map string_bytes words.entry.now) k → (rule : RuleOf) → IsErrOf result (WordFail.Fault rule) → ⊥ }
    ensures fault { (rule : RuleOf) → IsErrOf result (WordFail.Fault rule) → IsWordFault (map string_bytes words.entry.now) rule }
    ensures every { (rule : RuleOf) → IsWordFault (map string_bytes words.entry.now) rule → (r : RuleOf) → IsErrOf result (WordFail.Fault r) → r ≡ rule }
    ensures none { (rule : RuleOf) → IsWordFault (map string_bytes words.entry.now) rule → IsErr result }
{
    judged(alloc, words)
}
