// The tokens outside directive lines, and those of each line's clauses.

ghost use Rattle.std.specs.Prelude.{◌≡◌, ◌+◌, ◌≤◌, ◌<◌, ℕ, length, cond, IfOk, OnOk};
ghost use Rattle.std.specs.List.{All};
ghost use Rattle.vk_tokens.specs.Names.{IsNamed};
ghost use Rattle.vk_parse_words.specs.Lines.{outside, clauses, begun, ended, sym_kind, is_heading, is_line_end, with_last, next_outside, next_lines};
ghost use Rattle.vk_parse_words.specs.Inner.Syms.{rows, line_of, IsKnown, HasLine};

use crate::words::name_kind;
use std::alloc::Global;
use vk_ast::NameTable;
use vk_grammar_expr::{Sym, SymKind};
use vk_memory::Memory;
use vk_tokens::{TokenKind, Tokens};

/// The tokens of a unit as the grammar reads them.
#[derive(Drop)]
pub struct Syms {
    /// The tokens outside directive lines, each such line being one.
    pub outside: Vec<Sym>,
    /// The tokens of the clauses of each directive line, in the order of the lines.
    pub lines: Vec<Vec<Sym>>,
}

impl Syms {
    /// The tokens of the clauses of the directive line `number`, counted from 1.
    pub fn clauses(&self, number: u32) -> &[Sym]
        requires some { 1 ≤ number }
        requires within { number ≤ length self.now.lines.items }
        ensures { result.now ≡ line_of self.now number }
    {
        self.lines[number as usize - 1].as_slice()
    }

    // One token more, which stands in a directive line or not.
    fn add(&mut self, alloc: Global, inside: bool, kind: TokenKind, sym: Sym) -> Result<(), Memory>
        ensures outside { OnOk result (self.new.outside.items ≡ next_outside inside kind sym self.old.outside.items) }
        ensures lines { OnOk result (rows self.new.lines.items ≡ next_lines inside kind sym (rows self.old.lines.items)) }
    {
        let ends = is_line_end(kind);
        if is_heading(kind) {
            self.lines.push(Vec::new(alloc))?;
        } else if inside && !ends {
            push_last(&mut self.lines, sym)?;
        }
        if !inside && !ends {
            self.outside.push(sym)?;
        }
        Ok(())
    }
}

fn is_heading(kind: TokenKind) -> bool
    ensures { result ≡ is_heading kind }
{
    matches!(kind, TokenKind::Simd | TokenKind::Simdfn)
}

fn is_line_end(kind: TokenKind) -> bool
    ensures { result ≡ is_line_end kind }
{
    matches!(kind, TokenKind::LineEnd)
}

// What a token is to the grammar, in or behind the directive line `number`.
fn sym_kind(names: &NameTable, number: u32, kind: TokenKind) -> SymKind
    requires { IsNamed names.now kind }
    ensures { result ≡ sym_kind names.now number kind }
{
    match kind {
        TokenKind::Name(id) => name_kind(names.text(id), id),
        TokenKind::Int(ty, value) => SymKind::Int(ty, value),
        TokenKind::Sign(mark) => SymKind::Sign(mark),
        TokenKind::Simdfn => SymKind::Simdfn(number),
        TokenKind::Simd => SymKind::Simd(number),
        TokenKind::LineEnd => SymKind::LeftOut,
    }
}

// One token more in the last of the lines.
fn push_last(lines: &mut Vec<Vec<Sym>>, sym: Sym) -> Result<(), Memory>
    ensures { OnOk result (rows lines.new.items ≡ with_last sym (rows lines.old.items)) }
{
    let count = lines.len();
    if count > 0 {
        lines[count - 1].push(sym)?;
    }
    Ok(())
}

/// The tokens of a unit of at most 1048576 tokens as the grammar reads them, of which each name is in the table.
pub fn classify(alloc: Global, tokens: &Tokens) -> Result<Syms, Memory>
    requires count { length tokens.now.list.items ≤ 1048576 }
    requires named { All (λ t. IsNamed tokens.now.names t.kind) tokens.now.list.items }
    // The tokens outside directive lines, each such line being one.
    ensures outside { IfOk result (λ s. s.outside.items ≡ outside tokens.now.names tokens.now.list.items) }
    // Those of the clauses of each line, the lines being counted from 1.
    ensures count { IfOk result (λ s. length s.lines.items ≡ begun tokens.now.list.items) }
    ensures clauses { IfOk result (λ s. (n : ℕ) → 1 ≤ n → n ≤ length s.lines.items → line_of s n ≡ clauses tokens.now.names tokens.now.list.items n) }
    // Each name is in the table, and each line has one of these numbers.
    ensures named { IfOk result (λ s. All (λ t. IsKnown tokens.now.names t.kind) s.outside.items) }
    ensures named_clauses { IfOk result (λ s. (n : ℕ) → 1 ≤ n → n ≤ length s.lines.items → All (λ t. IsKnown tokens.now.names t.kind) (line_of s n)) }
    ensures numbered { IfOk result (λ s. All (λ t. HasLine (length s.lines.items) t.kind) s.outside.items) }
{
    let mut syms = Syms {
        outside: Vec::new(alloc),
        lines: Vec::new(alloc),
    };
    let mut ended = 0usize;
    for (at, token) in tokens.list.iter().enumerate() {
        let begun = syms.lines.len();
        let number = begun + usize::from(is_heading(token.kind));
        let sym = Sym {
            line: token.line,
            at: at as u32,
            kind: sym_kind(&tokens.names, number as u32, token.kind),
        };
        syms.add(alloc, ended < begun, token.kind, sym)?;
        ended += usize::from(is_line_end(token.kind));
    }
    Ok(syms)
}
