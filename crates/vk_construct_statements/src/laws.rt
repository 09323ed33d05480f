// How the code of statements and functions is put together, in every run and every lane.

ghost use Rattle.std.specs.Prelude.{◌≡◌, ◌≢◌, ◌+◌, ◌<◌, ◌≤◌, ℕ, length, Bool, false, true, List, Option, Some, is_some};
ghost use Rattle.std.specs.List.{AllByRecursion};
ghost use Rattle.vk_types.specs.declared.types.Ty.{Ty};
ghost use Rattle.vk_kinds.specs.declared.heads.CType.TheVariants.{Int, Ptr};
ghost use Rattle.vk_ast.specs.declared.items.ParamDecl.{ParamDecl};
ghost use Rattle.vk_rules_book.specs.Rules.{Subject};
ghost use Rattle.vk_meaning.specs.Expressions.{Context};
ghost use Rattle.vk_meaning.specs.Statements.{Effect, Evaluation, branch, repeat, then_do};
ghost use Rattle.vk_meaning.specs.Programs.{Definition, arrays_of, definition_of};
ghost use Rattle.vk_meaning.specs.Meaning.{means};
ghost use Rattle.vk_meaning.specs.Lanes.{AreApart, AreTyped, Words, arguments_of};
ghost use Rattle.vk_code.specs.declared.instruction.Instr.{Instr};
ghost use Rattle.vk_code.specs.Listing.{Routine};
ghost use Rattle.vk_code.specs.Tests.{all_good};
ghost use Rattle.vk_code.specs.Valid.{Environment, body_verdicts};
ghost use Rattle.vk_object.specs.Memory.{Memory};
ghost use Rattle.vk_object.specs.Machine.{Site, enters};
ghost use Rattle.vk_lane.specs.Runs.{Bodies, IsLaneRun, IsSameRun, one_lane};
ghost use Rattle.vk_lane.specs.Pieces.{Repeats};
ghost use Rattle.vk_lane.specs.Places.{Share};
ghost use Rattle.vk_lane.specs.Entries.{LaneCall, place_of};
ghost use Rattle.vk_construct.specs.Computes.{Computes, Table};
ghost use Rattle.vk_construct.specs.Adds.{Adds, HasType, IsTableOf, Splits, Written};
ghost use Rattle.vk_construct.specs.Trees.{param_table};
ghost use Rattle.vk_construct_whole.specs.Wholes.{IsFinished, IsMachineOf, body_scope, own_context, param_types, started};
ghost use Rattle.vk_construct_statements.specs.Follows.{AreApart as AreMasksApart, Guards, IsFront, IsTested, ReturnPlace, Turn, first_branch, second_branch};
ghost use Rattle.vk_construct_statements.specs.Statements.{AddsFunction, AddsStatement, Meets, Unites, body_effect};

/// One statement after another; the branches of an `if`, each under a mask of its own; a `while`, whose block runs again while a lane is
/// in the loop's mask.
pub fn statements_follow()
    ensures sequence { (a b c : Written) (v : ReturnPlace) (tb tb' tb'' : Table) (first second : Context → Effect) (m : Guards) (n1 n2 depth : ℕ)
        → AreMasksApart m → IsFront tb tb' → AddsStatement a b v tb tb' first m n1 depth → AddsStatement b c v tb' tb'' second m n2 depth
        → AddsStatement a c v tb tb'' (λ x. then_do (first x) (second x)) m (n1 + n2) depth }
    ensures branch { (c0 c1 c2 c3 c4 c5 : Written) (v : ReturnPlace) (tb : Table) (e : Context → Evaluation) (first second : Context → Effect)
        (t : Ty) (r k : ℕ) (m : Guards) (n n1 n2 depth : ℕ) → AreMasksApart m → IsTableOf c0 tb k → HasType c1 r t
        → Adds c0 c1 (λ q. Computes (place_of q) tb (e q.context) (Int t) r m.running k m.free) n depth → Adds c1 c2 (Splits m.running m.free r) 2 depth
        → AddsStatement c2 c3 v tb tb first (first_branch m) n1 depth → AddsStatement c3 c4 v tb tb second (second_branch m) n2 depth
        → Adds c4 c5 (Unites m.running m.free (m.free + 1)) 1 depth
        → AddsStatement c0 c5 v tb tb (λ x. branch (e x) (first x) (second x)) m (n + n1 + n2 + 3) depth }
    ensures repeat { (a b c d f : Written) (v : ReturnPlace) (tb : Table) (e : Context → Evaluation) (work : Context → Effect) (m : Guards) (i : Instr) (n1 n2 depth : ℕ)
        → AreMasksApart m → i.m ≡ m.free → Adds a b (Meets m.free m.running m.running) 1 depth
        → Adds b c (λ q. IsTested (place_of q) tb (e q.context) m.free m.staying) n1 depth
        → Adds c d (λ q. Repeats i.m (λ (j : ℕ) (h h' : Share). Turn (place_of q) v tb (e q.context) (work q.context) m.free m.staying j h h') q.site.turns) n2 depth
        → Adds d f (Meets m.running m.running m.staying) 1 depth
        → AddsStatement a f v tb tb (λ x. repeat x.turns (e x) (work x)) m (n1 + n2 + 2) depth }
{}

/// Code that was appended to the parameters' registers and does in each lane what a definition's body does is the function's: called on
/// lanes it gives each active lane what a call of the function means, called on one lane it runs as the function does, and its
/// instructions are good.
pub fn functions_are_code()
    ensures on_lanes { (units : List Subject) (turns : ℕ) (text : List ℕ) (d : Definition) (result : Option ℕ) (s : Site) (b : Bodies) (entry : ℕ)
        (w : Written) (size depth : ℕ) (m : Memory) (mask : ℕ → Bool) (words : Words) (old : ℕ → ℕ)
        → definition_of units text ≡ Some d → AllByRecursion (λ (p : ParamDecl). is_some p.name ≡ true) d.function.params
        → ((to : Ty) (written : Bool) → d.function.result ≢ Ptr to written)
        → AddsFunction (started (param_types d)) w (param_table (body_scope d)) d.function.result result (body_effect d) size depth
        → IsFinished s.code.routine w result → IsMachineOf (own_context units turns d) s → 0 < s.entry.lanes → b.is_body entry ≡ false
        → AreTyped (param_types d) (arrays_of units) s.entry.lanes words mask → AreApart (param_types d) (arrays_of units) s.entry.lanes words mask
        → IsLaneRun (arrays_of units) b (param_types d) (means units turns text) s.entry.lanes mask words m old (enters entry s mask words m) }
    ensures alone { (units : List Subject) (turns : ℕ) (text : List ℕ) (d : Definition) (result : Option ℕ) (s : Site) (b : Bodies) (entry : ℕ)
        (w : Written) (size depth : ℕ) (m : Memory) (words : Words)
        → definition_of units text ≡ Some d → AllByRecursion (λ (p : ParamDecl). is_some p.name ≡ true) d.function.params
        → ((to : Ty) (written : Bool) → d.function.result ≢ Ptr to written)
        → AddsFunction (started (param_types d)) w (param_table (body_scope d)) d.function.result result (body_effect d) size depth
        → IsFinished s.code.routine w result → IsMachineOf (own_context units turns d) s → s.entry.lanes ≡ 1 → b.is_body entry ≡ false
        → AreTyped (param_types d) (arrays_of units) 1 words one_lane
        → IsSameRun b m (means units turns text (arguments_of (param_types d) words 0) m.cells) (enters entry s one_lane words m) }
    ensures good { (d : Definition) (result : Option ℕ) (w : Written) (size depth : ℕ) (environment : Environment) (c : Routine)
        → AddsFunction (started (param_types d)) w (param_table (body_scope d)) d.function.result result (body_effect d) size depth
        → depth ≤ 64 → IsFinished c w result → all_good (body_verdicts environment c) ≡ true }
{}
