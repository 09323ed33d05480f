// The rule on whole lists of directives, D17.

ghost use Rattle.std.specs.Prelude.{◌≡◌, ◌&&◌, [], is_some, map};
ghost use Rattle.std.specs.List.{list_all};
ghost use Rattle.vk_ast.specs.Directives.{directive_of};
ghost use Rattle.vk_ast.specs.Units.{function_of};
ghost use Rattle.vk_rules_book.specs.Directives.{all_entry_faults, all_said_faults, has_signature, is_empty};
ghost use Rattle.vk_rules_book.specs.Visits.{entries_of};
ghost use Rattle.vk_rules_directives.specs.Inner.Signed.{differs, is_nil, list_seen, same_lists, seen, signed};

use crate::whole::same_option;
use vk_ast::{Directive, Function};
use vk_kinds::Signature;
use vk_rules_signatures::signature_of;

// The signatures of a function's directives, none of those that break a rule, and whether each has one.
#[derive(Drop)]
pub(crate) struct Signed {
    pub(crate) list: Vec<Option<Signature>>,
    pub(crate) all: bool,
}

// The signature of a directive whose clauses and listed names break no rule.
#[tactic(auto, unfolding(vk_rules_book::specs::Directives::has_signature))]
pub(crate) fn sign(f: &Function, d: &Directive, sound: bool) -> Option<Signature>
    requires { sound ≡ (is_empty (all_said_faults (function_of f.now) (directive_of d.now) [] (directive_of d.now).clauses)
        && is_empty (all_entry_faults (function_of f.now) (directive_of d.now) [] (entries_of (directive_of d.now).clauses))) }
    ensures { seen result ≡ signed (function_of f.now) (directive_of d.now) }
{
    if f.params.len() <= 64 && sound {
        Some(signature_of(f, d))
    } else {
        None
    }
}

// Whether two lists of signatures are alike.
fn same_lists(first: &[Option<Signature>], own: &[Option<Signature>]) -> bool
    ensures { result ≡ same_lists (map seen first.now) (map seen own.now) }
{
    if first.len() != own.len() {
        return false;
    }
    for (i, s) in first.iter().enumerate() {
        if !same_option(s, &own[i]) {
            return false;
        }
    }
    true
}

fn is_nil(list: &[Option<Signature>]) -> bool
    ensures { result ≡ is_nil (map seen list.now) }
{
    matches!(list, [])
}

// Whether a function's directives are others than those of its first declaration.
pub(crate) fn differs(first: &Signed, own: &Signed) -> bool
    requires first { first.now.all ≡ list_all is_some (list_seen first.now) }
    requires own { own.now.all ≡ list_all is_some (list_seen own.now) }
    ensures { result ≡ differs (list_seen first.now) (list_seen own.now) }
{
    !is_nil(&own.list) && (first.all && own.all && !same_lists(&first.list, &own.list))
}
