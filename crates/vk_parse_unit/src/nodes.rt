// Items, and what they are made of.

ghost use Rattle.std.specs.Prelude.{◌≡◌, map, MatchResult, IfOk, ◌∷◌, []};
ghost use Rattle.std.specs.List.{list_all};
ghost use Rattle.std.specs.Option.{option_map};
ghost use Rattle.vk_ast.specs.Directives.{directive_of};
ghost use Rattle.vk_ast.specs.Statements.{stmt_of};
ghost use Rattle.vk_ast.specs.Tree.{expr_of};
ghost use Rattle.vk_ast.specs.Units.{item_of};
ghost use Rattle.vk_parse_expr.specs.declared.fail.ReadFail.TheVariants.{Memory as MemoryFail};
ghost use Rattle.vk_grammar_unit.specs.Items as items;
ghost use Rattle.vk_parse_unit.specs.Inner.Answers.{named_of, type_of, initial_of};

use std::alloc::Global;
use vk_ast::{Expr, Function, Item, NameId, Object, ParamDecl};
use vk_kinds::CType;
use vk_nodes::{DirectiveList, ExprBox, ExprList, ItemList, Start, StmtBox};
use vk_parse_expr::ReadFail;
use vk_types::Ty;

/// A name, with the line and the number of its token.
#[derive(Clone, Copy, PartialEq, Eq, Debug)]
pub(crate) struct Named {
    pub line: u32,
    pub token: u32,
    pub id: NameId,
}

/// The type in front of the objects of a declaration.
#[derive(Clone, Copy, PartialEq, Eq, Debug)]
pub(crate) struct ObjectType {
    pub ty: Ty,
    /// Whether it is `const`.
    pub fixed: bool,
    /// Whether it is `extern`.
    pub outside: bool,
}

/// An initialiser, with the line and the number of its first token; nothing and zeros where there is none.
#[derive(Drop)]
pub(crate) struct Initial {
    pub items: Option<ExprList>,
    /// Whether it stands in braces.
    pub braced: bool,
    pub line: u32,
    pub token: u32,
}

/// A parameter that is a pointer reads alone where the type behind it is `const`.
pub(crate) fn pointer_to(ty: Ty, fixed: bool) -> CType
    ensures { result ≡ items.pointer_to ty fixed }
{
    CType::Ptr {
        to: ty,
        written: !fixed,
    }
}

/// A parameter with a name.
pub(crate) fn with_name(name: Named, ctype: CType, fixed: bool) -> ParamDecl
    ensures { result ≡ items.with_name (named_of name) ctype fixed }
{
    ParamDecl {
        line: name.line,
        token: name.token,
        name: Some(name.id),
        ctype,
        fixed,
    }
}

/// A parameter without a name, which begins at `first`.
pub(crate) fn without_name(first: Start, ctype: CType, fixed: bool) -> ParamDecl
    ensures { result ≡ items.without_name first.line first.token ctype fixed }
{
    ParamDecl {
        line: first.line,
        token: first.token,
        name: None,
        ctype,
        fixed,
    }
}

fn has_name(name: Option<NameId>) -> bool
    ensures { result ≡ items.has_name name }
{
    name.is_some()
}

fn each_named(params: &[ParamDecl]) -> bool
    ensures { result ≡ list_all (λ p. items.has_name p.name) params.now }
{
    params.iter().all(|param| has_name(param.name))
}

/// Whether each parameter has a name.
#[tactic(auto, using(crate::proofs::Names::each_named))]
pub(crate) fn all_named(params: &[ParamDecl]) -> bool
    ensures { result ≡ items.all_named params.now }
{
    each_named(params)
}

/// No initialiser.
pub(crate) fn no_initial() -> Initial
    ensures { initial_of result ≡ items.no_initial }
{
    Initial {
        items: None,
        braced: false,
        line: 0,
        token: 0,
    }
}

// The length of an array, where one is given.
fn length_of(length: Option<ExprBox>) -> Option<Expr>
    ensures { option_map expr_of result ≡ option_map expr_of length }
{
    length.map(|e| e.into_expr())
}

/// An object.
pub(crate) fn object_node(
    of: ObjectType,
    name: Named,
    array: Option<Option<ExprBox>>,
    init: Initial,
) -> Item
    ensures { item_of result ≡ items.object_tree (type_of of) (named_of name) (option_map (option_map expr_of) array) (initial_of init) }
{
    Item::Object(Object {
        line: name.line,
        token: name.token,
        name: name.id,
        ty: of.ty,
        fixed: of.fixed,
        outside: of.outside,
        array: array.map(length_of),
        init: init.items.map(|list| list.into_vec()),
        braced: init.braced,
        init_line: init.line,
        init_token: init.token,
    })
}

/// A declaration of a function, or its definition where there is a body.
pub(crate) fn function_node(
    name: Named,
    directives: DirectiveList,
    result_type: CType,
    params: Vec<ParamDecl>,
    body: Option<StmtBox>,
) -> Item
    ensures { item_of result ≡ items.function_tree (named_of name) (map directive_of directives) result_type params.items (option_map stmt_of body) }
{
    Item::Function(Function {
        line: name.line,
        token: name.token,
        name: name.id,
        directives: directives.into_vec(),
        result: result_type,
        params,
        body: body.map(|block| block.into_stmt()),
    })
}

/// A list of one item.
pub(crate) fn single(alloc: Global, item: Item) -> Result<ItemList, ReadFail>
    ensures { MatchResult result (λ list. list ≡ item ∷ []) (λ fail. fail ≡ MemoryFail) }
{
    let mut list = ItemList::new(alloc);
    list.push(item)?;
    Ok(list)
}
