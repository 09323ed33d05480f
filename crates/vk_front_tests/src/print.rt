// Tokens and trees as texts. Each node stands behind the number of its first token, or of the declared name, from 1.

use std::alloc::{AllocError, Global};
use std::str;
use vk_ast::{
    Clause, ClauseKind, Directive, Expr, ExprKind, Function, Item, NameId, NameTable, Object,
    ParamDecl, PlacedName, Stmt, StmtKind,
};
use vk_grammar_expr::{Sym, SymKind};
use vk_kinds::CType;
use vk_lex::signs::mark_text;
use vk_parse_expr::ReadFail;
use vk_tokens::{Mark, Token, TokenKind};
use vk_types::Ty;
use vk_unit_rules::UnitFail;

/// Texts, and the names in them.
#[derive(Drop)]
pub(crate) struct Printer<'a> {
    pub(crate) alloc: Global,
    pub(crate) names: &'a NameTable,
}

// The number of a token, from 1.
fn place(token: u32) -> u32 {
    token.wrapping_add(1)
}

fn mark(mark: Mark) -> &'static str {
    str::from_utf8(mark_text(mark)).unwrap_or("?")
}

/// What a reader refuses: the rule, and how many tokens are left from the place on.
pub(crate) fn fault(alloc: Global, fail: ReadFail) -> Result<String, AllocError> {
    match fail {
        ReadFail::Syntax(left) => format!(in alloc; "C5 {left}"),
        ReadFail::Deep(left) => format!(in alloc; "C6 {left}"),
        ReadFail::Memory => Err(AllocError),
    }
}

/// The rule that a unit breaks, and the line.
pub(crate) fn refusal(alloc: Global, fail: UnitFail) -> Result<String, AllocError> {
    match fail {
        UnitFail::Fault { line, rule } => format!(in alloc; "{rule:?} {line}"),
        UnitFail::Memory => Err(AllocError),
    }
}

impl Printer<'_> {
    fn name(&self, id: NameId) -> &str {
        if (id.0 as usize) < self.names.len() {
            str::from_utf8(self.names.text(id)).unwrap_or("?")
        } else {
            "?"
        }
    }

    // ---- tokens

    /// A token behind its line.
    pub(crate) fn token(&self, token: Token) -> Result<String, AllocError> {
        let line = token.line;
        match token.kind {
            TokenKind::Name(id) => {
                let name = self.name(id);
                format!(in self.alloc; "{line}:{name}")
            }
            TokenKind::Int(ty, value) => format!(in self.alloc; "{line}:{value}{ty:?}"),
            TokenKind::Sign(sign) => {
                let sign = mark(sign);
                format!(in self.alloc; "{line}:{sign}")
            }
            TokenKind::Simdfn => format!(in self.alloc; "{line}:SIMDFN"),
            TokenKind::Simd => format!(in self.alloc; "{line}:SIMD"),
            TokenKind::LineEnd => format!(in self.alloc; "{line}:END"),
        }
    }

    /// What a token is to the grammar.
    pub(crate) fn sym(&self, sym: Sym) -> Result<String, AllocError> {
        match sym.kind {
            SymKind::Name(id) => {
                let name = self.name(id);
                format!(in self.alloc; "name {name}")
            }
            SymKind::Int(ty, value) => format!(in self.alloc; "{value}{ty:?}"),
            SymKind::Sign(sign) => {
                let sign = mark(sign);
                format!(in self.alloc; "{sign}")
            }
            SymKind::Keyword(keyword) => format!(in self.alloc; "keyword {keyword:?}"),
            SymKind::TypeWord(word) => format!(in self.alloc; "type {word:?}"),
            SymKind::LeftOut => format!(in self.alloc; "left out"),
            SymKind::Simd(number) => format!(in self.alloc; "SIMD {number}"),
            SymKind::Simdfn(number) => format!(in self.alloc; "SIMDFN {number}"),
        }
    }

    // ---- expressions

    pub(crate) fn expr(&self, e: &Expr) -> Result<String, AllocError> {
        let first = place(e.token);
        match &e.kind {
            ExprKind::Int(_, value) => format!(in self.alloc; "{first}#{value}"),
            ExprKind::Name(id) => {
                let name = self.name(*id);
                format!(in self.alloc; "{first}{name}")
            }
            ExprKind::Index(base, subscript) => {
                let base = self.expr(base)?;
                let subscript = self.expr(subscript)?;
                format!(in self.alloc; "{first}[{base} {subscript}]")
            }
            ExprKind::Deref(operand) => {
                let operand = self.expr(operand)?;
                format!(in self.alloc; "{first}(* {operand})")
            }
            ExprKind::Addr(operand) => {
                let operand = self.expr(operand)?;
                format!(in self.alloc; "{first}(& {operand})")
            }
            ExprKind::Unary(op, operand) => {
                let operand = self.expr(operand)?;
                format!(in self.alloc; "{first}({op:?} {operand})")
            }
            ExprKind::Binary(op, left, right) => {
                let left = self.expr(left)?;
                let right = self.expr(right)?;
                format!(in self.alloc; "{first}({left} {op:?} {right})")
            }
            ExprKind::Cond(condition, yes, other) => {
                let condition = self.expr(condition)?;
                let yes = self.expr(yes)?;
                let other = self.expr(other)?;
                format!(in self.alloc; "{first}({condition} ? {yes} : {other})")
            }
            ExprKind::Cast(ty, operand) => {
                let operand = self.expr(operand)?;
                format!(in self.alloc; "{first}({ty:?} {operand})")
            }
            ExprKind::Call(id, list) => {
                let name = self.name(*id);
                let mut text = format!(in self.alloc; "{first}{name}(")?;
                for argument in list {
                    text.push_str(self.expr(argument)?.as_str())?;
                    text.push(',')?;
                }
                text.push(')')?;
                Ok(text)
            }
        }
    }

    fn optional(&self, e: &Option<Expr>, none: &str) -> Result<String, AllocError> {
        match e {
            Some(e) => self.expr(e),
            None => format!(in self.alloc; "{none}"),
        }
    }

    fn exprs(&self, list: &[Expr]) -> Result<String, AllocError> {
        let mut text = String::new(self.alloc);
        for e in list {
            self.behind(&mut text, self.expr(e)?.as_str())?;
        }
        Ok(text)
    }

    // One text more, with a blank between two.
    fn behind(&self, text: &mut String, more: &str) -> Result<(), AllocError> {
        if !text.is_empty() {
            text.push(' ')?;
        }
        text.push_str(more)
    }

    // ---- directives

    fn ids(&self, ids: &[PlacedName]) -> Result<String, AllocError> {
        let mut text = String::new(self.alloc);
        for id in ids {
            self.behind(&mut text, self.name(id.name))?;
        }
        Ok(text)
    }

    /// Names, each with its line.
    pub(crate) fn placed(&self, names: &[PlacedName]) -> Result<String, AllocError> {
        let mut text = String::new(self.alloc);
        for name in names {
            let line = name.line;
            let shown = self.name(name.name);
            let placed = format!(in self.alloc; "{shown}@{line}")?;
            self.behind(&mut text, placed.as_str())?;
        }
        Ok(text)
    }

    pub(crate) fn clause(&self, clause: &Clause) -> Result<String, AllocError> {
        let first = place(clause.token);
        match &clause.kind {
            ClauseKind::Simdlen(e) => {
                let length = self.expr(e)?;
                format!(in self.alloc; "{first}simdlen({length})")
            }
            ClauseKind::Uniform(ids) => {
                let ids = self.ids(ids)?;
                format!(in self.alloc; "{first}uniform({ids})")
            }
            ClauseKind::Aligned(ids, to) => {
                let ids = self.ids(ids)?;
                let to = self.optional(to, "-")?;
                format!(in self.alloc; "{first}aligned({ids}; {to})")
            }
            ClauseKind::Linear(ids, modifier, step) => {
                let ids = self.ids(ids)?;
                let step = self.optional(step, "-")?;
                match modifier {
                    Some(m) => format!(in self.alloc; "{first}linear({ids}; {m:?}; {step})"),
                    None => format!(in self.alloc; "{first}linear({ids}; -; {step})"),
                }
            }
            ClauseKind::Inside => format!(in self.alloc; "{first}inbranch"),
            ClauseKind::Outside => format!(in self.alloc; "{first}notinbranch"),
            ClauseKind::Other => format!(in self.alloc; "{first}other"),
        }
    }

    pub(crate) fn clauses(&self, clauses: &[Clause]) -> Result<String, AllocError> {
        let mut text = String::new(self.alloc);
        for clause in clauses {
            self.behind(&mut text, self.clause(clause)?.as_str())?;
        }
        Ok(text)
    }

    /// The line of each clause, and the names in it with theirs.
    pub(crate) fn places(&self, clauses: &[Clause]) -> Result<String, AllocError> {
        let mut text = String::new(self.alloc);
        for clause in clauses {
            let line = clause.line;
            let names = self.placed(&clause.names)?;
            let more = format!(in self.alloc; "{line}({names})")?;
            self.behind(&mut text, more.as_str())?;
        }
        Ok(text)
    }

    /// The number of a directive, and its clauses where it has any.
    pub(crate) fn directive(&self, directive: &Directive) -> Result<String, AllocError> {
        let number = directive.number;
        if directive.clauses.is_empty() {
            return format!(in self.alloc; "{number}");
        }
        let clauses = self.clauses(&directive.clauses)?;
        format!(in self.alloc; "{number}[{clauses}]")
    }

    // ---- statements

    // A local variable; a `!` tells of `const`.
    fn local(
        &self,
        ty: Ty,
        fixed: bool,
        id: NameId,
        initial: &Option<Expr>,
    ) -> Result<String, AllocError> {
        let sign = if fixed { '!' } else { ':' };
        let name = self.name(id);
        match initial {
            Some(e) => {
                let value = self.expr(e)?;
                format!(in self.alloc; "{sign}{ty:?} {name}={value}")
            }
            None => format!(in self.alloc; "{sign}{ty:?} {name}"),
        }
    }

    pub(crate) fn stmt(&self, s: &Stmt) -> Result<String, AllocError> {
        let first = place(s.token);
        match &s.kind {
            StmtKind::Empty => format!(in self.alloc; "{first};"),
            StmtKind::Block(list) => {
                let mut inner = String::new(self.alloc);
                for entry in list {
                    self.behind(&mut inner, self.stmt(entry)?.as_str())?;
                }
                format!(in self.alloc; "{first}[{inner}]")
            }
            StmtKind::Local(ty, fixed, id, initial) => {
                let local = self.local(*ty, *fixed, *id, initial)?;
                format!(in self.alloc; "{first}{local}")
            }
            StmtKind::Assign(op, left, right) => {
                let left = self.expr(left)?;
                let right = self.expr(right)?;
                match op {
                    Some(op) => format!(in self.alloc; "{first}{op:?}=({left} {right})"),
                    None => format!(in self.alloc; "{first}=({left} {right})"),
                }
            }
            StmtKind::Value(e) => {
                let value = self.expr(e)?;
                format!(in self.alloc; "{first}e({value})")
            }
            StmtKind::If(condition, yes, other) => {
                let condition = self.expr(condition)?;
                let yes = self.stmt(yes)?;
                match other {
                    Some(other) => {
                        let other = self.stmt(other)?;
                        format!(in self.alloc; "{first}if({condition} {yes} else {other})")
                    }
                    None => format!(in self.alloc; "{first}if({condition} {yes})"),
                }
            }
            StmtKind::While(condition, body) => {
                let condition = self.expr(condition)?;
                let body = self.stmt(body)?;
                format!(in self.alloc; "{first}while({condition} {body})")
            }
            StmtKind::Do(body, condition) => {
                let body = self.stmt(body)?;
                let condition = self.expr(condition)?;
                format!(in self.alloc; "{first}do({body} {condition})")
            }
            StmtKind::For(start, condition, step, body) => {
                let start = self.stmt(start)?;
                let condition = self.optional(condition, "-")?;
                let step = self.stmt(step)?;
                let body = self.stmt(body)?;
                format!(in self.alloc; "{first}for({start} {condition} {step} {body})")
            }
            StmtKind::Break => format!(in self.alloc; "{first}break"),
            StmtKind::Continue => format!(in self.alloc; "{first}continue"),
            StmtKind::Return(value) => {
                let value = self.optional(value, "")?;
                format!(in self.alloc; "{first}return({value})")
            }
            StmtKind::Simd(directive, body) => {
                let directive = self.directive(directive)?;
                let body = self.stmt(body)?;
                format!(in self.alloc; "{first}simd{directive}({body})")
            }
            StmtKind::Lost(directive) => {
                let directive = self.directive(directive)?;
                format!(in self.alloc; "{first}lost{directive}")
            }
        }
    }

    // ---- items

    // A type; a `c` tells of what a pointer only reads.
    fn ctype(&self, ctype: CType) -> Result<String, AllocError> {
        match ctype {
            CType::Void => format!(in self.alloc; "void"),
            CType::Int(ty) => format!(in self.alloc; "{ty:?}"),
            CType::Ptr { to, written: true } => format!(in self.alloc; "{to:?}*"),
            CType::Ptr { to, written: false } => format!(in self.alloc; "{to:?}*c"),
        }
    }

    fn param(&self, param: &ParamDecl) -> Result<String, AllocError> {
        let first = place(param.token);
        let name = match param.name {
            Some(id) => self.name(id),
            None => "-",
        };
        let sign = if param.fixed { '!' } else { ':' };
        let ctype = self.ctype(param.ctype)?;
        format!(in self.alloc; "{first}{name}{sign}{ctype}")
    }

    fn params(&self, params: &[ParamDecl]) -> Result<String, AllocError> {
        let mut text = String::new(self.alloc);
        for param in params {
            self.behind(&mut text, self.param(param)?.as_str())?;
        }
        Ok(text)
    }

    // The name, the directives, the parameters, the result and the body of a function.
    fn function(&self, f: &Function) -> Result<String, AllocError> {
        let first = place(f.token);
        let name = self.name(f.name);
        let mut text = format!(in self.alloc; "{first}{name}")?;
        for directive in &f.directives {
            text.push('#')?;
            text.push_str(self.directive(directive)?.as_str())?;
        }
        let params = self.params(&f.params)?;
        let ctype = self.ctype(f.result)?;
        text.push_str(format!(in self.alloc; "({params}) {ctype}")?.as_str())?;
        if let Some(body) = &f.body {
            self.behind(&mut text, self.stmt(body)?.as_str())?;
        }
        Ok(text)
    }

    fn array(&self, array: &Option<Option<Expr>>) -> Result<String, AllocError> {
        match array {
            Some(Some(length)) => {
                let length = self.expr(length)?;
                format!(in self.alloc; "[{length}]")
            }
            Some(None) => format!(in self.alloc; "[]"),
            None => Ok(String::new(self.alloc)),
        }
    }

    // An initialiser, whose braces are told by `<` and `>`.
    fn initial(&self, o: &Object) -> Result<String, AllocError> {
        match &o.init {
            Some(init) => {
                let at = place(o.init_token);
                let values = self.exprs(init)?;
                if o.braced {
                    format!(in self.alloc; "={at}<{values}>")
                } else {
                    format!(in self.alloc; "={at}({values})")
                }
            }
            None => Ok(String::new(self.alloc)),
        }
    }

    // An `x` tells of `extern`, a dot of none, a `!` of `const`.
    fn object(&self, o: &Object) -> Result<String, AllocError> {
        let first = place(o.token);
        let name = self.name(o.name);
        let outside = if o.outside { 'x' } else { '.' };
        let sign = if o.fixed { '!' } else { ':' };
        let ty = o.ty;
        let array = self.array(&o.array)?;
        let initial = self.initial(o)?;
        format!(in self.alloc; "{first}{name}{outside}{sign}{ty:?}{array}{initial}")
    }

    fn item(&self, item: &Item) -> Result<String, AllocError> {
        match item {
            Item::Function(f) => self.function(f),
            Item::Object(o) => self.object(o),
            Item::Lost(directive) => {
                let directive = self.directive(directive)?;
                format!(in self.alloc; "lost{directive}")
            }
        }
    }

    pub(crate) fn items(&self, items: &[Item]) -> Result<String, AllocError> {
        let mut text = String::new(self.alloc);
        for item in items {
            self.behind(&mut text, self.item(item)?.as_str())?;
        }
        Ok(text)
    }
}
