// How the code of an expression is put together from the code of its parts, in every run and every lane.

ghost use Rattle.std.specs.Prelude.{◌≡◌, ◌+◌, ◌<◌, ℕ, length, ℤ, pos, Bool, false, cond, Ok};
ghost use Rattle.vk_types.specs.declared.types.Ty.{Ty};
ghost use Rattle.vk_types.specs.declared.types.Ty.TheVariants.{I32};
ghost use Rattle.vk_types.specs.Numbers.{wrap_number};
ghost use Rattle.vk_types.specs.Conversions.{common_type};
ghost use Rattle.vk_ast.specs.declared.expressions.UnOp.{UnOp};
ghost use Rattle.vk_ast.specs.declared.expressions.BinOp.{BinOp};
ghost use Rattle.vk_ast.specs.declared.expressions.BinOp.TheVariants.{LogAnd, LogOr};
ghost use Rattle.vk_ast.specs.Tree.{Tree, binary, cast, choice, unary};
ghost use Rattle.vk_numbers.specs.Laws.{is_logical};
ghost use Rattle.vk_numbers.specs.Operators.{binary_number, is_on, unary_number};
ghost use Rattle.vk_numbers.specs.Types.{binary_type, unary_type};
ghost use Rattle.vk_rules_book.specs.Scopes.{Scope};
ghost use Rattle.vk_construct.specs.Adds.{Adds, AddsNumber, HasType, IsTableOf, Splits, Written};
ghost use Rattle.vk_construct.specs.Applies.{one, two};
ghost use Rattle.vk_construct.specs.Computes.{Table};
ghost use Rattle.vk_construct.specs.Trees.{AddsTree, HasNumber};

/// An operator comes behind its operands. Where an operand stops, the lane stops, and the code behind it does nothing there.
pub fn operators_follow_operands()
    ensures cast { (a b c : Written) (scope : Scope) (tb : Table) (line token : ℕ) (s t : Ty) (e : Tree) (r d m f : ℕ)
        → IsTableOf a tb (length a.regs) → m < f → AddsTree a b scope tb e s r m f
        → AddsNumber b c (one (λ z. Ok (wrap_number t z)) s r) t d m (length b.regs) f 1 → AddsTree a c scope tb (cast line token t e) t d m f }
    ensures unary { (a b c : Written) (scope : Scope) (tb : Table) (line token : ℕ) (op : UnOp) (s : Ty) (e : Tree) (r d m f : ℕ)
        → IsTableOf a tb (length a.regs) → m < f → HasNumber scope e s → AddsTree a b scope tb e s r m f
        → AddsNumber b c (one (unary_number op s) s r) (unary_type op s) d m (length b.regs) f 3
        → AddsTree a c scope tb (unary line token op e) (unary_type op s) d m f }
    ensures binary { (a b c e : Written) (scope : Scope) (tb : Table) (line token : ℕ) (op : BinOp) (s t : Ty) (left right : Tree) (r r' d m f : ℕ)
        → IsTableOf a tb (length a.regs) → m < f → is_logical op ≡ false → HasNumber scope left s → HasNumber scope right t → r < length b.regs
        → AddsTree a b scope tb left s r m f → AddsTree b c scope tb right t r' m f
        → AddsNumber c e (two (binary_number op s t) s r t r') (binary_type op s t) d m (length c.regs) f 3
        → AddsTree a e scope tb (binary line token op left right) (binary_type op s t) d m f }
{}

/// The second operand of `&&` and `||`, and each case of `?:`, runs under a mask of its own, in the lanes that C evaluates it in.
pub fn cases_have_masks()
    ensures and { (c0 c1 c3 c4 c5 e : Written) (scope : Scope) (tb : Table) (line token : ℕ) (s t : Ty) (left right : Tree) (r r' d m f : ℕ)
        → IsTableOf c0 tb (length c0.regs) → m < f → HasNumber scope left s → HasNumber scope right t → HasType c1 r s
        → AddsTree c0 c1 scope tb left s r m f → Adds c1 c3 (Splits m f r) 2 0 → AddsTree c3 e scope tb right t r' f (f + 2)
        → AddsNumber e c4 (one (λ z. Ok (cond (is_on z) (pos 1) (pos 0))) t r') I32 d f (length c0.regs) (f + 2) 3
        → AddsNumber c4 c5 (λ h. Ok (pos 0)) I32 d (f + 1) (length c0.regs) (f + 2) 1
        → AddsTree c0 c5 scope tb (binary line token LogAnd left right) I32 d m f }
    ensures or { (c0 c1 c3 c4 c5 e : Written) (scope : Scope) (tb : Table) (line token : ℕ) (s t : Ty) (left right : Tree) (r r' d m f : ℕ)
        → IsTableOf c0 tb (length c0.regs) → m < f → HasNumber scope left s → HasNumber scope right t → HasType c1 r s
        → AddsTree c0 c1 scope tb left s r m f → Adds c1 c3 (Splits m f r) 2 0 → AddsNumber c3 c4 (λ h. Ok (pos 1)) I32 d f (length c0.regs) (f + 2) 1
        → AddsTree c4 e scope tb right t r' (f + 1) (f + 2)
        → AddsNumber e c5 (one (λ z. Ok (cond (is_on z) (pos 1) (pos 0))) t r') I32 d (f + 1) (length c0.regs) (f + 2) 3
        → AddsTree c0 c5 scope tb (binary line token LogOr left right) I32 d m f }
    ensures choice { (c0 c1 c3 x4 c4 x5 c5 : Written) (scope : Scope) (tb : Table) (line token : ℕ) (c s t : Ty) (test first second : Tree) (r r1 r2 d m f : ℕ)
        → IsTableOf c0 tb (length c0.regs) → m < f → HasNumber scope first s → HasNumber scope second t → HasType c1 r c
        → AddsTree c0 c1 scope tb test c r m f → Adds c1 c3 (Splits m f r) 2 0 → AddsTree c3 x4 scope tb first s r1 f (f + 2)
        → AddsNumber x4 c4 (one (λ z. Ok (wrap_number (common_type s t) z)) s r1) (common_type s t) d f (length c0.regs) (f + 2) 1
        → AddsTree c4 x5 scope tb second t r2 (f + 1) (f + 2)
        → AddsNumber x5 c5 (one (λ z. Ok (wrap_number (common_type s t) z)) t r2) (common_type s t) d (f + 1) (length c0.regs) (f + 2) 1
        → AddsTree c0 c5 scope tb (choice line token test first second) (common_type s t) d m f }
{}
