// The laws of constants, and of the operators that leave out an operand.

ghost use Rattle.std.specs.Prelude.{◌≡◌, ◌≢◌, ℕ, ℤ, pos, Some};
ghost use Rattle.vk_types.specs.declared.types.Ty.{Ty};
ghost use Rattle.vk_types.specs.declared.types.Stop.{Stop};
ghost use Rattle.vk_types.specs.Numbers.{IsInRange};
ghost use Rattle.vk_types.specs.Operators.{truth};
ghost use Rattle.vk_ast.specs.declared.expressions.BinOp.TheVariants.{LogAnd, LogOr};
ghost use Rattle.vk_ast.specs.Tree.{Tree, int, binary, choice};
ghost use Rattle.vk_numbers.specs.Constants.{Computed, computed, constant_of};
ghost use Rattle.vk_numbers.specs.Operators.{is_on};
ghost use Rattle.vk_rules_book.specs.Scopes.{Scope};
ghost use Rattle.vk_rules_book.specs.Typings.{number_type, typing_of};
ghost use Rattle.vk_meaning.specs.Data.{number, got, halts};
ghost use Rattle.vk_meaning.specs.Expressions.{Context, Variables, value_of};
ghost use Rattle.vk_meaning.specs.World.{World};
ghost use Rattle.vk_meaning_constants.specs.Standing.{stands_for};

/// What the rules of units compute of a constant (C17 6.6) is its type and its value or stop, in any program, whatever names stand for;
/// and its evaluation leaves the world as it is.
pub fn constants_have_their_values()
    ensures ty { (scope : Scope) (e : Tree) (k : Computed) → computed e ≡ Some k → number_type (typing_of scope e) ≡ Some k.ty }
    ensures value { (c : Context) (scope : Scope) (vs : Variables) (e : Tree) (k : Computed) (w : World) → computed e ≡ Some k →
        value_of c scope vs e w ≡ stands_for k.value w }
    ensures number { (c : Context) (scope : Scope) (vs : Variables) (e : Tree) (z : ℤ) (w : World) → constant_of e ≡ Some z →
        value_of c scope vs e w ≡ got (number z) w }
{}

/// A literal stands for its value (C17 6.4.4.1).
pub fn literals()
    ensures { (c : Context) (scope : Scope) (vs : Variables) (l k : ℕ) (t : Ty) (n : ℕ) (w : World) → IsInRange t (pos n) →
        value_of c scope vs (int l k t n) w ≡ got (number (pos n)) w }
{}

/// `&&` and `||` evaluate their second operand only where the first does not decide (C17 6.5.13, 6.5.14), and then behind it.
pub fn short_circuits()
    ensures and { (c : Context) (scope : Scope) (vs : Variables) (l k : ℕ) (a b : Tree) (w w' : World) →
        value_of c scope vs a w ≡ got (number (pos 0)) w' → value_of c scope vs (binary l k LogAnd a b) w ≡ got (number (pos 0)) w' }
    ensures or { (c : Context) (scope : Scope) (vs : Variables) (l k : ℕ) (a b : Tree) (x : ℤ) (w w' : World) →
        value_of c scope vs a w ≡ got (number x) w' → x ≢ pos 0 → value_of c scope vs (binary l k LogOr a b) w ≡ got (number (pos 1)) w' }
    ensures and_goes_on { (c : Context) (scope : Scope) (vs : Variables) (l k : ℕ) (a b : Tree) (x y : ℤ) (w w' w'' : World) →
        value_of c scope vs a w ≡ got (number x) w' → x ≢ pos 0 → value_of c scope vs b w' ≡ got (number y) w'' →
        value_of c scope vs (binary l k LogAnd a b) w ≡ got (number (truth (is_on y))) w'' }
    ensures or_goes_on { (c : Context) (scope : Scope) (vs : Variables) (l k : ℕ) (a b : Tree) (y : ℤ) (w w' w'' : World) →
        value_of c scope vs a w ≡ got (number (pos 0)) w' → value_of c scope vs b w' ≡ got (number y) w'' →
        value_of c scope vs (binary l k LogOr a b) w ≡ got (number (truth (is_on y))) w'' }
{}

/// `?:` evaluates its second operand where the first is not 0, else its third (C17 6.5.15), and nothing of the other one: it gives that
/// operand's stop, or its number where this is one of the expression's type, and leaves the world as that operand does.
pub fn choices_evaluate_one()
    ensures first { (c : Context) (scope : Scope) (vs : Variables) (l k : ℕ) (a x y : Tree) (t : Ty) (n z : ℤ) (w w' w'' : World) →
        number_type (typing_of scope (choice l k a x y)) ≡ Some t → value_of c scope vs a w ≡ got (number n) w' → n ≢ pos 0 →
        value_of c scope vs x w' ≡ got (number z) w'' → IsInRange t z → value_of c scope vs (choice l k a x y) w ≡ got (number z) w'' }
    ensures second { (c : Context) (scope : Scope) (vs : Variables) (l k : ℕ) (a x y : Tree) (t : Ty) (z : ℤ) (w w' w'' : World) →
        number_type (typing_of scope (choice l k a x y)) ≡ Some t → value_of c scope vs a w ≡ got (number (pos 0)) w' →
        value_of c scope vs y w' ≡ got (number z) w'' → IsInRange t z → value_of c scope vs (choice l k a x y) w ≡ got (number z) w'' }
    ensures first_stops { (c : Context) (scope : Scope) (vs : Variables) (l k : ℕ) (a x y : Tree) (n : ℤ) (stop : Stop) (w w' w'' : World) →
        value_of c scope vs a w ≡ got (number n) w' → n ≢ pos 0 → value_of c scope vs x w' ≡ halts stop w'' →
        value_of c scope vs (choice l k a x y) w ≡ halts stop w'' }
    ensures second_stops { (c : Context) (scope : Scope) (vs : Variables) (l k : ℕ) (a x y : Tree) (stop : Stop) (w w' w'' : World) →
        value_of c scope vs a w ≡ got (number (pos 0)) w' → value_of c scope vs y w' ≡ halts stop w'' →
        value_of c scope vs (choice l k a x y) w ≡ halts stop w'' }
{}
