// How the code of loads and stores is put together, in every run and every lane.

ghost use Rattle.std.specs.Prelude.{◌≡◌, ◌+◌, ◌<◌, ◌≤◌, ℕ, length, Bool, false, true, List, [], Some};
ghost use Rattle.vk_types.specs.declared.types.Ty.{Ty};
ghost use Rattle.vk_kinds.specs.declared.heads.CType.{CType};
ghost use Rattle.vk_kinds.specs.declared.heads.CType.TheVariants.{Int, Ptr, Void};
ghost use Rattle.vk_ast.specs.Tree.{Tree, deref, index};
ghost use Rattle.vk_rules_book.specs.declared.typings.Typing.TheVariants.{Pointer};
ghost use Rattle.vk_rules_book.specs.Scopes.{Scope};
ghost use Rattle.vk_rules_book.specs.Typings.{typing_of};
ghost use Rattle.vk_meaning.specs.Expressions.{Context, converted};
ghost use Rattle.vk_meaning.specs.Statements.{Evaluation, assigned};
ghost use Rattle.vk_code.specs.declared.instruction.Instr.{Instr};
ghost use Rattle.vk_code.specs.declared.instruction.Operation.TheVariants.{Load, PtrAdd, Store};
ghost use Rattle.vk_code.specs.Instruction.{operation_of};
ghost use Rattle.vk_construct.specs.Computes.{Table};
ghost use Rattle.vk_construct.specs.Adds.{AddsValue, HasType, IsTableOf, Puts, Written};
ghost use Rattle.vk_construct.specs.Trees.{AddsTree};
ghost use Rattle.vk_construct_memory.specs.Pointers.{AddsPointerTree, HasPointer, IsPointerTarget};

/// `P[E]`, for a pointer that may only be read through, is the code of both, the pointer moved, and a load; `*P` is the code of the
/// pointer and a load. A lane whose pointer names no element stops.
pub fn loads_follow_pointers()
    ensures index { (a b c d g : Written) (scope : Scope) (tb : Table) (line token : ℕ) (base e : Tree) (i i' : Instr) (types types' : List CType) (to s : Ty) (r r' rd re m f : ℕ)
        → IsTableOf a tb (length a.regs) → m < f → typing_of scope base ≡ Pointer to false → r < length b.regs
        → AddsPointerTree a b scope tb base to false r m f → AddsTree b c scope tb e s r' m f
        → Puts c d i types → i.m ≡ m → m < d.masks → operation_of i ≡ Some (PtrAdd rd r r') → IsPointerTarget d to false rd (length a.regs) → HasPointer d r to false → HasType d r' s
        → Puts d g i' types' → i'.m ≡ m → m < g.masks → operation_of i' ≡ Some (Load re rd) → HasType g re to → g.params ≤ re → length a.regs ≤ re → HasPointer g rd to false
        → AddsTree a g scope tb (index line token base e) to re m f }
    ensures deref { (a b c : Written) (scope : Scope) (tb : Table) (line token : ℕ) (operand : Tree) (i : Instr) (types : List CType) (to : Ty) (written : Bool) (r d m f : ℕ)
        → IsTableOf a tb (length a.regs) → m < f → typing_of scope operand ≡ Pointer to written → AddsPointerTree a b scope tb operand to written r m f
        → Puts b c i types → i.m ≡ m → m < c.masks → operation_of i ≡ Some (Load d r) → HasType c d to → c.params ≤ d → length a.regs ≤ d → HasPointer c r to written
        → AddsTree a c scope tb (deref line token operand) to d m f }
{}

/// `place = e` is the code of the place's pointer, that of the value as one of the element's type, and a store. The lane's own copy of
/// the memory has the value in its element then, and no other cell changed.
pub fn stores_follow_values()
    ensures { (a b c d : Written) (tb : Table) (place e : Context → Evaluation) (i : Instr) (to : Ty) (r r' m k k1 f n1 n2 : ℕ)
        → IsTableOf a tb k → m < f → k ≤ k1 → r < k1 → AddsValue a b tb place (Ptr to true) r m k f n1
        → AddsValue b c tb (λ x vs. converted to (e x vs)) (Int to) r' m k1 f n2
        → Puts c d i [] → i.m ≡ m → m < d.masks → operation_of i ≡ Some (Store r r') → HasPointer d r to true → HasType d r' to
        → AddsValue a d tb (λ x vs. assigned x to (place x vs) (e x vs)) Void 0 m k f (n1 + n2 + 1) }
{}
