// Which units are one function of one `return`.

ghost use Rattle.std.specs.Prelude.{◌≡◌, ◌&&◌, [], map, Option, None, is_some, IfSome, IsNone};
ghost use Rattle.std.specs.List.{list_all};
ghost use Rattle.std.specs.Option.{option_and_then, option_map};
ghost use Rattle.vk_types.specs.declared.types.Ty.{Ty};
ghost use Rattle.vk_ast.specs.Directives.{directive_of};
ghost use Rattle.vk_ast.specs.Statements.{list_stmts, stmt_of};
ghost use Rattle.vk_ast.specs.Tree.{Tree, expr_of};
ghost use Rattle.vk_ast.specs.Units.{FunctionTree, function_of, items_of};
ghost use Rattle.vk_rules_book.specs.Rules.{faults_of};
ghost use Rattle.vk_rules_book.specs.Scopes.{has_directives};
ghost use Rattle.vk_rules.specs.Verdicts.{judged};
ghost use Rattle.vk_one_return.specs.Form.{IsForm, IsSmall, is_integer, is_name, is_param, is_plain, returned_alone, returned_by, returned_in};
ghost use Rattle.vk_one_return.specs.Inner.Reading.{form_of_function, form_of_items, form_tree, is_form};

use vk_ast::{Directive, Expr, ExprKind, Function, Item, NameId, ParamDecl, Stmt, StmtKind, Unit};
use vk_rules::Checked;
use vk_rules_laws::laws::{definitions_fit, functions_fit};
use vk_types::Ty;

/// What a unit of this form says.
#[derive(Clone, Copy)]
pub struct Form<'a> {
    /// Its function, whose parameters are integers.
    pub function: &'a Function,
    /// The expression that the function returns.
    pub value: &'a Expr,
    /// The type of the function's result.
    pub result: Ty,
}

// Whether there is a directive.
fn has_directives(directives: &[Directive]) -> bool
    ensures { result ≡ has_directives (map directive_of directives.now) }
{
    match directives {
        [] => false,
        [_, ..] => true,
    }
}

// Whether a parameter has a name and an integer type.
fn is_integer(param: &ParamDecl) -> bool
    ensures { result ≡ is_integer param.now }
{
    param.name.is_some() && param.ctype.integer().is_some()
}

// Whether all parameters do.
fn are_integers(params: &[ParamDecl]) -> bool
    ensures { result ≡ list_all is_integer params.now }
{
    match params {
        [] => true,
        [param, rest @ ..] => is_integer(param) && are_integers(rest),
    }
}

// Whether a parameter has the name.
fn is_name(name: Option<NameId>, id: NameId) -> bool
    ensures { result ≡ is_name name id }
{
    match name {
        Some(name) => name.0 == id.0,
        None => false,
    }
}

// Whether one of the parameters has the name.
fn is_param(params: &[ParamDecl], id: NameId) -> bool
    ensures { result ≡ is_param params.now id }
{
    match params {
        [] => false,
        [param, rest @ ..] => is_name(param.name, id) || is_param(rest, id),
    }
}

// Whether an expression has literals, parameters, casts, operators on numbers and `?:` alone.
fn is_plain(params: &[ParamDecl], e: &Expr) -> bool
    ensures { result ≡ is_plain params.now (expr_of e.now) }
{
    match &e.kind {
        ExprKind::Int(_, _) => true,
        ExprKind::Name(id) => is_param(params, *id),
        ExprKind::Cast(_, operand) | ExprKind::Unary(_, operand) => is_plain(params, operand),
        ExprKind::Binary(_, left, right) => is_plain(params, left) && is_plain(params, right),
        ExprKind::Cond(condition, first, second) => {
            is_plain(params, condition) && is_plain(params, first) && is_plain(params, second)
        }
        ExprKind::Index(_, _) | ExprKind::Deref(_) | ExprKind::Addr(_) | ExprKind::Call(_, _) =>
            false,
    }
}

// The expression that a statement returns, where it is a `return` of one.
fn returned_by(statement: &Stmt) -> Option<&Expr>
    ensures { option_map (λ e. expr_of e.now) result ≡ returned_by (stmt_of statement.now) }
{
    match &statement.kind {
        StmtKind::Return(Some(e)) => Some(e),
        _ => None,
    }
}

// The expression that statements return, where they are one `return` of one.
fn returned_alone(statements: &[Stmt]) -> Option<&Expr>
    ensures { option_map (λ e. expr_of e.now) result ≡ returned_alone (list_stmts statements.now) }
{
    match statements {
        [] => None,
        [statement] => returned_by(statement),
        [_, _, ..] => None,
    }
}

// The expression that a body returns, where it is one `return` of one.
fn returned_in(body: &Stmt) -> Option<&Expr>
    ensures { option_map (λ e. expr_of e.now) result ≡ returned_in (stmt_of body.now) }
{
    match &body.kind {
        StmtKind::Block(statements) => returned_alone(statements),
        _ => None,
    }
}

// Whether the function's directives, its parameters and its expression are those of the form.
fn is_form(function: &Function, value: &Expr) -> bool
    ensures { result ≡ is_form (function_of function.now) (expr_of value.now) }
{
    has_directives(&function.directives)
        && are_integers(&function.params)
        && is_plain(&function.params, value)
}

// The form of a function.
fn form_of_function(function: &Function) -> Option<Form<'_>>
    ensures { option_map form_tree result ≡ form_of_function (function_of function.now) }
{
    let result = function.result.integer()?;
    let value = returned_in(function.body.as_ref()?)?;
    if is_form(function, value) {
        Some(Form {
            function,
            value,
            result,
        })
    } else {
        None
    }
}

// The form of a unit.
fn form_of_unit(unit: &Unit) -> Option<Form<'_>>
    ensures { option_map form_tree result ≡ form_of_items (items_of unit.now) }
{
    match unit.items.as_slice() {
        [Item::Function(function)] => form_of_function(function),
        _ => None,
    }
}

/// The form of an accepted unit, where it has one: it is one definition of a function with directives, whose parameters and result are
/// integers, and whose body is one `return` of an expression of literals, parameters, casts, operators on numbers and `?:`.
pub fn form_of(checked: &Checked) -> Option<Form<'_>>
    ensures found { IfSome result (λ form. IsForm (judged checked.now) (function_of form.function.now) (expr_of form.value.now) form.result) }
    ensures small { faults_of (judged checked.now) ≡ [] → IfSome result (λ form. IsSmall (function_of form.function.now)) }
    ensures none { IsNone result → (f : FunctionTree) (e : Tree) (t : Ty) → IsForm (judged checked.now) f e t → ⊥ }
{
    definitions_fit();
    functions_fit();
    form_of_unit(checked.unit())
}
