// The code of a call's arguments, and the call behind them, in one lane of any run.

ghost use Rattle.std.specs.Prelude.{◌≡◌, ◌+◌, ◌*◌, ◌<◌, ◌≤◌, ◌++◌, ◌∷◌, [], ℕ, List, length, Some, Ok, slice_get};
ghost use Rattle.vk_types.specs.declared.types.Ty.{Ty};
ghost use Rattle.vk_types.specs.Numbers.{wrap_number};
ghost use Rattle.vk_kinds.specs.declared.heads.CType.{CType};
ghost use Rattle.vk_kinds.specs.declared.heads.CType.TheVariants.{Int};
ghost use Rattle.vk_ast.specs.declared.names.NameId.{NameId};
ghost use Rattle.vk_ast.specs.Tree.{Tree, Trees, all_nodes, call, more_trees, no_trees};
ghost use Rattle.vk_rules_book.specs.Scopes.{Scope, meaning_of};
ghost use Rattle.vk_rules_book.specs.Typings.{wanted_types};
ghost use Rattle.vk_meaning.specs.World.{Memory as Cells, World};
ghost use Rattle.vk_meaning.specs.Data.{Action, Datum, Value, and_then, as_type, given};
ghost use Rattle.vk_meaning.specs.Lanes.{arguments_of};
ghost use Rattle.vk_meaning.specs.Types.{next_type, next_types};
ghost use Rattle.vk_code.specs.declared.instruction.Instr.{Instr};
ghost use Rattle.vk_code.specs.declared.instruction.Operation.TheVariants.{Call};
ghost use Rattle.vk_code.specs.Instruction.{operation_of};
ghost use Rattle.vk_code.specs.Listing.{CallSite};
ghost use Rattle.vk_lane.specs.Pieces.{Always, Does};
ghost use Rattle.vk_meaning.specs.Expressions.{Context, value_of, with_arguments};
ghost use Rattle.vk_object.specs.Lane.{is_live};
ghost use Rattle.vk_lane.specs.Places.{IsFine, Share};
ghost use Rattle.vk_lane.specs.Entries.{LaneCall, place_of};
ghost use Rattle.vk_lane_calls.specs.Callees.{TakesIf, value_behind};
ghost use Rattle.vk_lane_calls.specs.Callable.{own_words};
ghost use Rattle.vk_construct.specs.Adds.{Adds, AddsNumber, AddsValue, HasWritten, IsTableOf, Written};
ghost use Rattle.vk_construct.specs.Applies.{one};
ghost use Rattle.vk_construct.specs.Computes.{Computes, Idles, IsTable, Table};
ghost use Rattle.vk_construct.specs.Trees.{AddsTree};
ghost use Rattle.vk_construct_calls.specs.Arguments.{AddsArgument, AddsArguments};
ghost use Rattle.vk_construct_calls.specs.Called.{PassesIntegers, ReachesEntry};
ghost use Rattle.vk_construct_calls.specs.Gathers.{Gathering, Gathers, HaveAll};

/// Arguments are computed in order, each converted to its parameter's type into a register of its own; a stop in one ends the lane. The
/// call behind them gives the expression's value.
pub fn calls_follow_arguments()
    ensures arguments { (q : LaneCall) (tb : Table) (c : Context) (scope : Scope) (ts : List CType) (e : Tree) (es : Trees) (before : List Datum) (r : ℕ) (rs : List ℕ) (m d dk f j : ℕ) (h mid h' : Share)
        → IsTable (place_of q) tb d → m < f → d ≤ dk → r < dk
        → Computes (place_of q) tb (λ vs. and_then (value_of c scope vs e) (λ dt. given (as_type (next_type ts) dt))) (next_type ts) r m d f j h mid
        → ((dt : Datum) → Gathers (place_of q) tb (λ vs. with_arguments c scope vs (next_types ts) es (before ++ dt ∷ [])) (next_types ts) rs (before ++ dt ∷ []) m dk f j mid h')
        → Idles m f mid h' → Gathers (place_of q) tb (λ vs. with_arguments c scope vs ts (more_trees e es) before) ts (r ∷ rs) before m d f j h h' }
    ensures call { (q : LaneCall) (tb : Table) (E : Gathering) (call : List Datum → Action) (ts : List CType) (rs : List ℕ) (rt : CType) (rd m d f j : ℕ) (value : Share → Value) (h mid h' : Share)
        → m < f → d ≤ rd → ((dt : Datum) → IsFine (place_of q) j rt dt) → Gathers (place_of q) tb E ts rs [] m d f j h mid
        → TakesIf (is_live m mid.lane) rt (Some rd) mid h' (value mid)
        → ((ds : List Datum) (w : World) → HaveAll (place_of q) j ts rs ds mid → mid.world ≡ w → value mid ≡ call ds w)
        → Computes (place_of q) tb (λ vs. E vs call) rt rd m d f j h h' }
{}

/// The code of a call's arguments: each is converted to its parameter's type (C17 6.5.2.2) and comes before the ones behind it.
pub fn arguments_are_converted()
    ensures converted { (a b c : Written) (scope : Scope) (tb : Table) (s t : Ty) (e : Tree) (r d m f : ℕ)
        → IsTableOf a tb (length a.regs) → m < f → AddsTree a b scope tb e s r m f
        → AddsNumber b c (one (λ z. Ok (wrap_number t z)) s r) t d m (length b.regs) f 1 → AddsArgument a c scope tb (Int t) e d m f }
    ensures none { (a : Written) (scope : Scope) (tb : Table) (ts : List CType) (m f : ℕ) → AddsArguments a a scope tb ts no_trees [] m f }
    ensures more { (a b c : Written) (scope : Scope) (tb : Table) (ts : List CType) (e : Tree) (es : Trees) (r : ℕ) (rs : List ℕ) (m f : ℕ)
        → IsTableOf a tb (length a.regs) → m < f → r < length b.regs
        → AddsArgument a b scope tb (next_type ts) e r m f → AddsArguments b c scope tb (next_types ts) es rs m f
        → AddsArguments a c scope tb ts (more_trees e es) (r ∷ rs) m f }
{}

/// In a run where a slot of the code reaches an entry of several lanes that is lane-wise for a function of integers, each of the kind v
/// (the vector function ABIs: one value a lane), the slot's call gives each live lane what the function gives on the lane's own arguments.
pub fn slots_are_called()
    ensures { (q : LaneCall) (w : Written) (i : Instr) (k : ℕ) (slot : CallSite) (ts : List CType) (t : Ty) (rd : ℕ) (scalar : List Datum → Cells → Value)
        → HasWritten q w → operation_of i ≡ Some (Call k) → slice_get w.slots k ≡ Some slot → PassesIntegers w slot ts t rd → ReachesEntry q k ts (Int t) scalar
        → Does (place_of q) Always (i ∷ []) (λ j h h'. TakesIf (is_live i.m h.lane) (Int t) (Some rd) h h' (value_behind h.world (scalar (arguments_of ts (own_words slot h) j) h.world.memory))) }
{}
