// Vector names in words.

ghost use Rattle.std.specs.Prelude.{◌≡◌, ℕ, ◌-◌, ◌<◌, ◌≤◌, List, [], ◌∷◌, length, string_bytes, IfOk, IfSome, IfNone, IsErrOf};
ghost use Rattle.std.specs.List.{concat};
ghost use Rattle.std.specs.Str.Lines.{lines, strip_carriage_return};
ghost use Rattle.vk_names.specs.declared.rules.NameRule.{NameRule};
ghost use Rattle.vk_names.specs.Spelling.{Name};
ghost use Rattle.vk_cmd_demangle.specs.Lines.{AreNames, IsFirstRefused, IsLineRefused, IsNameLine, name_line, name_lines};

use crate::describe::describe;
use std::alloc::{AllocError, Global};
use vk_io::{Lines, Memory};
use vk_names::{NameRule, read_name};

/// Why the lines of a file are not all names.
#[derive(Clone, Copy, PartialEq, Eq, Debug)]
pub enum DemangleFail {
    /// The first line that is no name, from 1, and the place and rule by which it is refused.
    Name { line: u32, at: u32, rule: NameRule },
    /// There was no memory left.
    Memory,
}

impl From<AllocError> for DemangleFail {
    ghost use Rattle.vk_cmd_demangle.specs.declared.names.DemangleFail.{DemangleFail};

    ghost from_gives = { λ _ e. e ≡ DemangleFail.Memory };

    fn from(_error: AllocError) -> DemangleFail {
        DemangleFail::Memory
    }
}

impl From<Memory> for DemangleFail {
    ghost use Rattle.vk_cmd_demangle.specs.declared.names.DemangleFail.{DemangleFail};

    ghost from_gives = { λ _ e. e ≡ DemangleFail.Memory };

    fn from(_memory: Memory) -> DemangleFail {
        DemangleFail::Memory
    }
}

/// The lines that `demangle` prints for the names of a file, one name a line.
///
/// A carriage return before a newline is dropped, a last line without newline counts, and an empty file has no line. Every
/// line is judged: the first that is no name is refused by its rule, N13 where bytes stand after its name.
pub fn demangled(alloc: Global, bytes: &[u8]) -> Result<Lines, DemangleFail>
    requires { length bytes.now ≤ 1048576 }
    ensures names { IfOk result (λ texts. (ns : List Name) × AreNames ns (lines bytes.now)) }
    ensures printed { IfOk result (λ texts. (ns : List Name) → AreNames ns (lines bytes.now) → concat texts ≡ name_lines ns) }
    ensures refused { (line at : ℕ) (rule : NameRule) → IsErrOf result (DemangleFail.Name line at rule) →
        (0 < line) × IsFirstRefused (lines bytes.now) (line - 1) at rule }
{
    let mut texts = Lines::new(alloc);
    let mut text = String::new(alloc);
    let mut number = 0u32;
    let mut rest = bytes;
    while let Some((line, after)) = next_line(rest) {
        number += 1;
        write_line(&mut text, number, line)?;
        texts.push(text.as_bytes())?;
        rest = after;
    }
    Ok(texts)
}

// What `demangle` prints for one line, which has this number, in place of the text.
fn write_line(text: &mut String, number: u32, line: &[u8]) -> Result<(), DemangleFail>
    requires { length line.now ≤ 1048576 }
    ensures name { IfOk result (λ done. (n : Name) × IsNameLine n line.now) }
    ensures text { IfOk result (λ done. (n : Name) → IsNameLine n line.now → string_bytes text.new ≡ name_line n) }
    ensures refused { (place at : ℕ) (rule : NameRule) → IsErrOf result (DemangleFail.Name place at rule) →
        (place ≡ number) × IsLineRefused line.now at rule }
{
    let name = match read_name(line) {
        Ok(name) => name,
        Err(fault) => {
            return Err(DemangleFail::Name {
                line: number,
                at: fault.at,
                rule: fault.rule,
            });
        }
    };
    if (name.used as usize) < line.len() {
        return Err(DemangleFail::Name {
            line: number,
            at: name.used,
            rule: NameRule::N13,
        });
    }
    text.clear();
    describe(text, &name.head, &line[name.scalar_at as usize..])?;
    Ok(())
}

// The first line, and what follows its newline.
fn next_line(rest: &[u8]) -> Option<(&[u8], &[u8])>
    ensures none { IfNone result (lines rest.now ≡ []) }
    ensures line { IfSome result (λ x. lines rest.now ≡ x.0.now ∷ lines x.1.now) }
    ensures shorter { IfSome result (λ x. (length x.0.now ≤ length rest.now) × (length x.1.now < length rest.now)) }
{
    if rest.is_empty() {
        return None;
    }
    match rest.iter().position(|b| *b == b'\n') {
        Some(at) => Some((without_return(&rest[..at]), &rest[at + 1..])),
        None => Some((rest, &[])),
    }
}

// A line without the carriage return at its end.
fn without_return(line: &[u8]) -> &[u8]
    ensures { result.now ≡ strip_carriage_return line.now }
{
    match line {
        [front @ .., b'\r'] => front,
        _ => line,
    }
}
