// What names mean.

ghost use Rattle.std.specs.Prelude.{◌≡◌, map, slice_get, Some};
ghost use Rattle.vk_ast.specs.Directives.{directive_of};
ghost use Rattle.vk_ast.specs.Units.{item_of};
ghost use Rattle.vk_rules_book.specs.Expressions.{is_changing, is_plain_function, is_undeclared, is_written_parameter};
ghost use Rattle.vk_rules_book.specs.Scopes.{declared_meaning, has_directives, is_long, is_main, is_print, is_taken, last_binding, meaning_of, same_name, text_of};
ghost use Rattle.vk_rules_book.specs.Typings.{called_typing, is_callable, name_typing, wanted_types};
ghost use Rattle.vk_rules_names.specs.Seen.{item_at, meaning_seen, scope_at, scope_of, unit_in, unit_of};

use vk_ast::{Directive, Item, NameId, NameTable, ParamDecl};
use vk_kinds::{CType, Target};
use vk_rules_book::{Binding, Typing};
use vk_types::Ty;

/// A place of a unit at file scope: the unit, what it is compiled for, the names in it, and what they mean there.
#[derive(Clone, Copy)]
pub struct Place<'a> {
    pub target: Target,
    pub names: &'a NameTable,
    pub items: &'a [Item],
    /// For each name, by its number, the number of the item that declares it first, of those up to there.
    pub first: &'a [Option<usize>],
}

impl<'a> Place<'a> {
    /// The place in a function, where these parameters and variables are visible.
    pub fn with(&self, inner: &'a [Binding], outer: usize) -> Scopes<'a>
        ensures unit { unit_in result ≡ unit_of self.now }
        ensures names { result.names.now ≡ self.now.names.now }
        ensures scope { scope_of result ≡ scope_at self.now inner.now outer }
    {
        Scopes {
            target: self.target,
            names: self.names,
            items: self.items,
            first: self.first,
            inner,
            outer,
        }
    }
}

/// What is declared at some place of a unit.
#[derive(Clone, Copy)]
pub struct Scopes<'a> {
    pub target: Target,
    pub names: &'a NameTable,
    pub items: &'a [Item],
    pub first: &'a [Option<usize>],
    /// Parameters and local variables, in their order.
    pub inner: &'a [Binding],
    /// How many of them stand in blocks around the innermost one.
    pub outer: usize,
}

/// What a name means, `Unknown` where it is not declared.
#[derive(Clone, Copy)]
pub enum Known<'a> {
    Unknown,
    /// A parameter or a local variable.
    Variable {
        ctype: CType,
        fixed: bool,
    },
    /// An object of file scope.
    Object {
        ty: Ty,
        is_array: bool,
        fixed: bool,
    },
    Function {
        result: CType,
        params: &'a [ParamDecl],
        is_simd: bool,
    },
    /// The built-in `print`.
    Print,
}

// What an item declares.
fn declared(item: &Item) -> Known<'_>
    ensures { meaning_seen result ≡ declared_meaning (Some (item_of item.now)) }
{
    match item {
        Item::Function(f) => Known::Function {
            result: f.result,
            params: &f.params,
            is_simd: has_directives(&f.directives),
        },
        Item::Object(o) => Known::Object {
            ty: o.ty,
            is_array: o.array.is_some(),
            fixed: o.fixed,
        },
        Item::Lost(_) => Known::Unknown,
    }
}

fn has_directives(directives: &[Directive]) -> bool
    ensures { result ≡ has_directives (map directive_of directives.now) }
{
    match directives {
        [] => false,
        [_, ..] => true,
    }
}

fn has_name(b: Binding, id: NameId) -> bool
    ensures { result ≡ same_name b.name id }
{
    b.name.0 == id.0
}

impl<'a> Scopes<'a> {
    /// The text of a name.
    pub fn text(&self, id: NameId) -> &[u8]
        ensures { result.now ≡ text_of self.now.names.now id }
    {
        if (id.0 as usize) < self.names.len() {
            self.names.text(id)
        } else {
            &[]
        }
    }

    pub fn is_long(&self, id: NameId) -> bool
        ensures { result ≡ is_long self.now.names.now id }
    {
        self.text(id).len() > 1024
    }

    pub fn is_print(&self, id: NameId) -> bool
        ensures { result ≡ is_print self.now.names.now id }
    {
        self.text(id) == b"print".as_slice()
    }

    pub fn is_main(&self, id: NameId) -> bool
        ensures { result ≡ is_main self.now.names.now id }
    {
        self.text(id) == b"main".as_slice()
    }

    /// Whether the innermost block has declared the name.
    pub fn is_taken(&self, id: NameId) -> bool
        ensures { result ≡ is_taken (scope_of self.now) id }
    {
        self.inner.iter().skip(self.outer).any(|b| b.name.0 == id.0)
    }

    // The last parameter or local variable with this name.
    fn binding(&self, id: NameId) -> Option<Binding>
        ensures { result ≡ last_binding self.now.inner.now id }
    {
        let mut count = self.inner.len();
        while count > 0 {
            count -= 1;
            let b = self.inner[count];
            if has_name(b, id) {
                return Some(b);
            }
        }
        None
    }

    // The first declaration at file scope.
    fn declaration(&self, id: NameId) -> Known<'a>
        ensures { meaning_seen result ≡ declared_meaning (item_at self.now.items.now self.now.first.now id) }
    {
        match self.first.get(id.0 as usize) {
            Some(Some(number)) => match self.items.get(*number) {
                Some(item) => declared(item),
                None => Known::Unknown,
            },
            Some(None) | None => Known::Unknown,
        }
    }

    /// What a name means.
    #[tactic(auto, unfolding(vk_rules_book::specs::Scopes::meaning_of))]
    pub fn meaning(&self, id: NameId) -> Known<'a>
        ensures { meaning_seen result ≡ meaning_of (scope_of self.now) id }
    {
        if let Some(b) = self.binding(id) {
            return Known::Variable {
                ctype: b.ctype,
                fixed: b.fixed,
            };
        }
        if self.is_print(id) {
            return Known::Print;
        }
        self.declaration(id)
    }
}

impl<'a> Known<'a> {
    pub fn is_undeclared(&self) -> bool
        ensures { result ≡ is_undeclared (meaning_seen self.now) }
    {
        matches!(&self, Known::Unknown)
    }

    pub fn is_changing(&self) -> bool
        ensures { result ≡ is_changing (meaning_seen self.now) }
    {
        match *self {
            Known::Object {
                ty: _,
                is_array: _,
                fixed,
            } => !fixed,
            _ => false,
        }
    }

    pub fn is_plain_function(&self) -> bool
        ensures { result ≡ is_plain_function (meaning_seen self.now) }
    {
        match *self {
            Known::Function {
                result: _,
                params: _,
                is_simd,
            } => !is_simd,
            Known::Print => true,
            _ => false,
        }
    }

    pub fn is_written_parameter(&self) -> bool
        ensures { result ≡ is_written_parameter (meaning_seen self.now) }
    {
        match *self {
            Known::Variable {
                ctype: CType::Ptr { to: _, written },
                fixed: _,
            } => written,
            _ => false,
        }
    }

    /// The type of the name as an expression.
    pub fn typing(&self) -> Typing
        ensures { result ≡ name_typing (meaning_seen self.now) }
    {
        match *self {
            Known::Unknown => Typing::Untyped,
            Known::Variable { ctype, fixed } => match ctype {
                CType::Void => Typing::Untyped,
                CType::Int(ty) => Typing::Variable { ty, fixed },
                CType::Ptr { to, written } => Typing::Pointer { to, written },
            },
            Known::Object {
                ty,
                is_array,
                fixed,
            } => {
                if is_array {
                    Typing::Pointer {
                        to: ty,
                        written: !fixed,
                    }
                } else {
                    Typing::Cell {
                        ty,
                        written: !fixed,
                    }
                }
            }
            Known::Function { .. } | Known::Print => Typing::Function,
        }
    }

    /// The type that an argument with this number is for.
    pub fn wanted(&self, number: usize) -> Option<CType>
        ensures { result ≡ slice_get (wanted_types (meaning_seen self.now)) number }
    {
        match *self {
            Known::Function {
                result: _,
                params,
                is_simd: _,
            } => match params.get(number) {
                Some(p) => Some(p.ctype),
                None => None,
            },
            Known::Print => {
                if number == 0 {
                    Some(CType::Int(Ty::I64))
                } else {
                    None
                }
            }
            _ => None,
        }
    }

    pub fn is_callable(&self, count: usize) -> bool
        ensures { result ≡ is_callable (meaning_seen self.now) count }
    {
        match *self {
            Known::Function {
                result: _,
                params,
                is_simd: _,
            } => params.len() == count,
            Known::Print => count == 1,
            _ => false,
        }
    }

    /// The type of a call.
    pub fn called(&self) -> Typing
        ensures { result ≡ called_typing (meaning_seen self.now) }
    {
        match *self {
            Known::Function {
                result,
                params: _,
                is_simd: _,
            } => match result {
                CType::Void => Typing::Nothing,
                CType::Int(ty) => Typing::Number(ty),
                CType::Ptr { .. } => Typing::Untyped,
            },
            Known::Print => Typing::Nothing,
            _ => Typing::Untyped,
        }
    }
}
