// The code of a function that is one `return` of an expression.

ghost use Rattle.std.specs.Prelude.{◌≡◌, ◌<◌, ◌≤◌, ℕ, length, Bool, false, true, List, Option, Some};
ghost use Rattle.vk_types.specs.declared.types.Ty.{Ty};
ghost use Rattle.vk_kinds.specs.declared.heads.CType.{CType};
ghost use Rattle.vk_kinds.specs.declared.heads.CType.TheVariants.{Int};
ghost use Rattle.vk_ast.specs.Tree.{Tree};
ghost use Rattle.vk_rules_book.specs.Rules.{Subject};
ghost use Rattle.vk_meaning.specs.Programs.{Definition, arrays_of, definition_of};
ghost use Rattle.vk_meaning.specs.Meaning.{means};
ghost use Rattle.vk_meaning.specs.Lanes.{AreApart, AreTyped, Words, arguments_of};
ghost use Rattle.vk_code.specs.Listing.{Routine};
ghost use Rattle.vk_code.specs.Tests.{all_good};
ghost use Rattle.vk_code.specs.Valid.{Environment, body_verdicts};
ghost use Rattle.vk_object.specs.Memory.{Memory};
ghost use Rattle.vk_object.specs.Machine.{Site, enters};
ghost use Rattle.vk_lane.specs.Runs.{Bodies, IsLaneRun, IsSameRun, one_lane};
ghost use Rattle.vk_construct.specs.Adds.{AddsValue, HasType, Written};
ghost use Rattle.vk_construct.specs.Trees.{param_table};
ghost use Rattle.vk_construct_whole.specs.Wholes.{IsFinished, IsMachineOf, IsOneReturn, body_scope, own_context, param_types, returned_value, started};

/// Code that was appended to the parameters' registers and leaves the returned value in a register is the function's: called on lanes it
/// gives each active lane what a call of the function means, called on one lane it runs as the function does, and its instructions are
/// good.
pub fn one_return_is_code()
    ensures on_lanes { (units : List Subject) (turns : ℕ) (text : List ℕ) (d : Definition) (e : Tree) (t : Ty) (s : Site) (b : Bodies) (entry : ℕ)
        (w : Written) (r size : ℕ) (m : Memory) (mask : ℕ → Bool) (words : Words) (old : ℕ → ℕ)
        → definition_of units text ≡ Some d → IsOneReturn d e t
        → AddsValue (started (param_types d)) w (param_table (body_scope d)) (returned_value d e t) (Int t) r 0 (length (param_types d)) 1 size
        → HasType w r t → IsFinished s.code.routine w (Some r) → IsMachineOf (own_context units turns d) s → 0 < s.entry.lanes → b.is_body entry ≡ false
        → AreTyped (param_types d) (arrays_of units) s.entry.lanes words mask → AreApart (param_types d) (arrays_of units) s.entry.lanes words mask
        → IsLaneRun (arrays_of units) b (param_types d) (means units turns text) s.entry.lanes mask words m old (enters entry s mask words m) }
    ensures alone { (units : List Subject) (turns : ℕ) (text : List ℕ) (d : Definition) (e : Tree) (t : Ty) (s : Site) (b : Bodies) (entry : ℕ)
        (w : Written) (r size : ℕ) (m : Memory) (words : Words)
        → definition_of units text ≡ Some d → IsOneReturn d e t
        → AddsValue (started (param_types d)) w (param_table (body_scope d)) (returned_value d e t) (Int t) r 0 (length (param_types d)) 1 size
        → HasType w r t → IsFinished s.code.routine w (Some r) → IsMachineOf (own_context units turns d) s → s.entry.lanes ≡ 1 → b.is_body entry ≡ false
        → AreTyped (param_types d) (arrays_of units) 1 words one_lane
        → IsSameRun b m (means units turns text (arguments_of (param_types d) words 0) m.cells) (enters entry s one_lane words m) }
    ensures good { (d : Definition) (e : Tree) (t : Ty) (w : Written) (r size : ℕ) (environment : Environment) (c : Routine)
        → AddsValue (started (param_types d)) w (param_table (body_scope d)) (returned_value d e t) (Int t) r 0 (length (param_types d)) 1 size
        → IsFinished c w (Some r) → all_good (body_verdicts environment c) ≡ true }
{}
