// What is known of variables where an argument stands.

ghost use Rattle.std.specs.Prelude.{◌≡◌, ◌+◌, ◌^◌, ◌<◌, length};
ghost use Rattle.std.specs.Option.{option_map};
ghost use Rattle.vk_ast.specs.Tree.{expr_of};
ghost use Rattle.vk_meaning.specs.Points.{variable_among, variable_named};
ghost use Rattle.vk_rules_names.specs.Seen.{meaning_seen, scope_of};
ghost use Rattle.vk_sites.specs.Loops.{LoopText, variable_number};
ghost use Rattle.vk_sites.specs.Shapes.{is_loop, is_loop_variable, loop_view, name_shape, object_shape};
ghost use Rattle.vk_rules_book.specs.Scopes.{meaning_of};
ghost use Rattle.vk_shapes.specs.Views.{is_loop_number, number_of, view_of};

use crate::shapes::uniform_if;
use vk_ast::{Expr, ExprKind, NameId};
use vk_code::Shape;
use vk_rules_book::Binding;
use vk_rules_names::{Known, Scopes};

/// What is known of variables.
#[derive(Clone, Copy)]
pub enum View<'a> {
    /// In the code of a directive: the shapes of its parameters, which are the first variables.
    Directive(&'a [Shape]),
    /// In the body of a simd loop: the number of its variable, behind those from outside.
    Loop(usize),
}

/// The body of a simd loop behind so many variables.
pub fn in_loop(outside: usize) -> View<'static>
    ensures { (l : LoopText) → variable_number l ≡ outside → view_of result ≡ loop_view l }
{
    View::Loop(outside)
}

/// The number of the variable that a name means among these, which are numbered from `first` on: the last one of that name
/// (C17 6.2.1).
pub fn number_among(first: usize, bindings: &[Binding], name: NameId) -> Option<usize>
    requires { first + length bindings.now < 2 ^ 64 }
    ensures { result ≡ option_map number_of (variable_among first bindings.now name) }
{
    let [b, later @ ..] = bindings else {
        return None;
    };
    let found = number_among(first + 1, later, name);
    if found.is_some() || b.name != name {
        return found;
    }
    Some(first)
}

impl<'a> View<'a> {
    /// The shape of the variable with this number.
    pub fn variable(&self, number: usize) -> Shape
        ensures { result ≡ (view_of self.now).variable number }
    {
        match *self {
            View::Directive(shapes) => match shapes.get(number) {
                Some(shape) => *shape,
                None => Shape::Vector,
            },
            View::Loop(own) => {
                if number < own {
                    Shape::Uniform
                } else if number == own {
                    Shape::By(1)
                } else {
                    Shape::Vector
                }
            }
        }
    }

    // Whether this is the number of the loop's variable.
    fn is_loop(&self, number: Option<usize>) -> bool
        ensures { is_loop_number (view_of self.now).loop number ≡ result }
    {
        match (*self, number) {
            (View::Loop(own), Some(number)) => own == number,
            _ => false,
        }
    }

    /// The name of the loop's variable.
    pub fn is_loop_variable(&self, scopes: &Scopes, e: &Expr) -> bool
        ensures { result ≡ is_loop_variable (view_of self.now) (scope_of scopes.now) (expr_of e.now) }
    {
        match &e.kind {
            ExprKind::Name(id) => self.is_loop(number_among(0, scopes.inner, *id)),
            _ => false,
        }
    }

    /// The shape of a name.
    pub fn name_shape(&self, scopes: &Scopes, id: NameId) -> Shape
        ensures { result ≡ name_shape (view_of self.now) (variable_named (scope_of scopes.now) id) (meaning_of (scope_of scopes.now) id) }
    {
        match number_among(0, scopes.inner, id) {
            Some(number) => self.variable(number),
            None => object_shape(&scopes.meaning(id)),
        }
    }
}

// The address of an array, or the number in a `const` scalar.
fn object_shape(known: &Known) -> Shape
    ensures { result ≡ object_shape (meaning_seen known.now) }
{
    match *known {
        Known::Object {
            ty: _,
            is_array,
            fixed,
        } => uniform_if(is_array || fixed),
        _ => Shape::Vector,
    }
}
