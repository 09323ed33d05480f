// How the code of places and of moved pointers is put together, in every run and every lane.

ghost use Rattle.std.specs.Prelude.{◌≡◌, ◌<◌, ◌≤◌, ℕ, ℤ, length, Bool, Ok};
ghost use Rattle.vk_types.specs.declared.types.Ty.{Ty};
ghost use Rattle.vk_types.specs.declared.types.Ty.TheVariants.{I64};
ghost use Rattle.vk_ast.specs.declared.expressions.BinOp.TheVariants.{Add, Sub};
ghost use Rattle.vk_ast.specs.Tree.{Tree, addr, binary, deref, index, int};
ghost use Rattle.vk_rules_book.specs.declared.typings.Typing.TheVariants.{Pointer};
ghost use Rattle.vk_rules_book.specs.Scopes.{Scope};
ghost use Rattle.vk_rules_book.specs.Typings.{typing_of};
ghost use Rattle.vk_construct.specs.Adds.{AddsNumber, HasType, IsTableOf, Written};
ghost use Rattle.vk_construct.specs.Applies.{one};
ghost use Rattle.vk_construct.specs.Computes.{Table};
ghost use Rattle.vk_construct.specs.Trees.{AddsTree, HasNumber};
ghost use Rattle.vk_construct_memory.specs.Pointers.{AddsPointerTree};
ghost use Rattle.vk_construct_places.specs.Places.{AddsPlace, IsTurned, Loads, MayMove, Moves};

/// `*P` is where `P` points, `P[E]` where `P + E` does, and `P[0]` where `P` does, without a sum; `&` gives the pointer to a place. What
/// is loaded from there is the element's value.
pub fn places_follow_pointers()
    ensures deref { (a b : Written) (scope : Scope) (tb : Table) (line token : ℕ) (operand : Tree) (to : Ty) (written : Bool) (r m f : ℕ)
        → AddsPointerTree a b scope tb operand to written r m f → AddsPlace a b scope tb (deref line token operand) to written r m f }
    ensures index { (a b c d : Written) (scope : Scope) (tb : Table) (line token : ℕ) (base e : Tree) (to s : Ty) (written : Bool) (r n rd m f : ℕ)
        → IsTableOf a tb (length a.regs) → m < f → r < length b.regs → MayMove a to written → AddsPointerTree a b scope tb base to written r m f
        → AddsTree b c scope tb e s n m f → Moves c d to written s r n rd m (length a.regs) → AddsPlace a d scope tb (index line token base e) to written rd m f }
    ensures first { (a b : Written) (scope : Scope) (tb : Table) (line token line' token' : ℕ) (base : Tree) (t to : Ty) (written : Bool) (r m f : ℕ)
        → AddsPointerTree a b scope tb base to written r m f → AddsPlace a b scope tb (index line token base (int line' token' t 0)) to written r m f }
    ensures address { (a b : Written) (scope : Scope) (tb : Table) (line token : ℕ) (e : Tree) (to : Ty) (written : Bool) (r m f : ℕ)
        → AddsPlace a b scope tb e to written r m f → AddsPointerTree a b scope tb (addr line token e) to written r m f }
    ensures element { (a b c : Written) (scope : Scope) (tb : Table) (line token : ℕ) (base e : Tree) (to : Ty) (written : Bool) (r d m f : ℕ)
        → IsTableOf a tb (length a.regs) → m < f → typing_of scope base ≡ Pointer to written → Loads b c to written r d m (length a.regs)
        → AddsPlace a b scope tb (index line token base e) to written r m f → AddsTree a c scope tb (index line token base e) to d m f }
    ensures pointed { (a b c : Written) (scope : Scope) (tb : Table) (line token : ℕ) (base : Tree) (to : Ty) (written : Bool) (r d m f : ℕ)
        → IsTableOf a tb (length a.regs) → m < f → typing_of scope base ≡ Pointer to written → Loads b c to written r d m (length a.regs)
        → AddsPlace a b scope tb (deref line token base) to written r m f → AddsTree a c scope tb (deref line token base) to d m f }
{}

/// `P + E` and `E + P` are the code of the pointer, that of the number, and the pointer moved; in `P - E` the number is turned first.
pub fn sums_move_pointers()
    ensures right { (a b c d : Written) (scope : Scope) (tb : Table) (line token : ℕ) (base e : Tree) (to s : Ty) (written : Bool) (r n rd m f : ℕ)
        → IsTableOf a tb (length a.regs) → m < f → r < length b.regs → MayMove a to written → typing_of scope base ≡ Pointer to written
        → AddsPointerTree a b scope tb base to written r m f → AddsTree b c scope tb e s n m f → Moves c d to written s r n rd m (length a.regs)
        → AddsPointerTree a d scope tb (binary line token Add base e) to written rd m f }
    ensures left { (a b c d : Written) (scope : Scope) (tb : Table) (line token : ℕ) (e base : Tree) (to s : Ty) (written : Bool) (r n rd m f : ℕ)
        → IsTableOf a tb (length a.regs) → m < f → r < length b.regs → MayMove a to written → HasNumber scope e s → typing_of scope base ≡ Pointer to written
        → AddsPointerTree a b scope tb base to written r m f → AddsTree b c scope tb e s n m f → Moves c d to written s r n rd m (length a.regs)
        → AddsPointerTree a d scope tb (binary line token Add e base) to written rd m f }
    ensures difference { (a b c d e : Written) (scope : Scope) (tb : Table) (line token : ℕ) (base n : Tree) (g : ℤ → ℤ) (to s : Ty) (written : Bool) (r rn y rd m f size : ℕ)
        → IsTableOf a tb (length a.regs) → m < f → r < length b.regs → size ≤ 7 → MayMove a to written → IsTurned s g → typing_of scope base ≡ Pointer to written → HasType c rn s
        → AddsPointerTree a b scope tb base to written r m f → AddsTree b c scope tb n s rn m f → AddsNumber c d (one (λ z. Ok (g z)) s rn) I64 y m (length c.regs) f size
        → Moves d e to written I64 r y rd m (length c.regs) → AddsPointerTree a e scope tb (binary line token Sub base n) to written rd m f }
{}
