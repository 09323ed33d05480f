// What the definitions of values mean, as laws.

ghost use Rattle.std.specs.Prelude.{◌≡◌, ◌≢◌, false, ℤ, pos};
ghost use Rattle.vk_types.specs.declared.types.Ty.{Ty};
ghost use Rattle.vk_types.specs.declared.types.Stop.{Stop};
ghost use Rattle.vk_types.specs.Numbers.{wrap_number};
ghost use Rattle.vk_types.specs.Conversions.{common_type};
ghost use Rattle.vk_ast.specs.declared.expressions.BinOp.{BinOp};
ghost use Rattle.vk_ast.specs.declared.expressions.BinOp.TheVariants.{LogAnd, LogOr};
ghost use Rattle.vk_numbers.specs.Values.{Value, got, halts, truth_value, value_of_result, with_value};
ghost use Rattle.vk_numbers.specs.Operators.{binary_number, binary_value, choice_value, is_on};
ghost use Rattle.vk_numbers.specs.Laws.{is_logical};

/// An operator but `&&` and `||` evaluates its left operand, then its right one, and gives its result on their numbers
/// (C17 6.5.5 to 6.5.12).
pub fn evaluates_left_first()
    ensures stopped { (op : BinOp) (s t : Ty) (stop : Stop) (y : Value) → binary_value op s t (halts stop) y ≡ halts stop }
    ensures stopped_behind { (op : BinOp) (s t : Ty) (x : ℤ) (stop : Stop) → is_logical op ≡ false →
        binary_value op s t (got x) (halts stop) ≡ halts stop }
    ensures result { (op : BinOp) (s t : Ty) (x y : ℤ) → is_logical op ≡ false →
        binary_value op s t (got x) (got y) ≡ value_of_result (binary_number op s t x y) }
{}

/// `&&` and `||` evaluate their second operand only where the first does not decide (C17 6.5.13, 6.5.14).
pub fn short_circuits()
    ensures and_decided { (s t : Ty) (y : Value) → binary_value LogAnd s t (got (pos 0)) y ≡ got (pos 0) }
    ensures and_undecided { (s t : Ty) (z : ℤ) (y : Value) → z ≢ pos 0 →
        binary_value LogAnd s t (got z) y ≡ with_value y (λ n. truth_value (is_on n)) }
    ensures or_decided { (s t : Ty) (z : ℤ) (y : Value) → z ≢ pos 0 → binary_value LogOr s t (got z) y ≡ got (pos 1) }
    ensures or_undecided { (s t : Ty) (y : Value) →
        binary_value LogOr s t (got (pos 0)) y ≡ with_value y (λ n. truth_value (is_on n)) }
{}

/// `?:` evaluates one of its second and third operand, and gives it in their common type (C17 6.5.15).
pub fn chooses()
    ensures first { (s t : Ty) (z x : ℤ) (second : Value) → z ≢ pos 0 →
        choice_value s t (got z) (got x) second ≡ got (wrap_number (common_type s t) x) }
    ensures second { (s t : Ty) (x : ℤ) (first : Value) →
        choice_value s t (got (pos 0)) first (got x) ≡ got (wrap_number (common_type s t) x) }
    ensures stopped { (s t : Ty) (z : ℤ) (stop : Stop) (second : Value) → z ≢ pos 0 →
        choice_value s t (got z) (halts stop) second ≡ halts stop }
    ensures stopped_else { (s t : Ty) (stop : Stop) (first : Value) →
        choice_value s t (got (pos 0)) first (halts stop) ≡ halts stop }
{}
