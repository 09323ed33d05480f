// Texts of expressions with their trees or faults, both by hand from the grammar.

use crate::front::{front_of, tower};
use crate::print::{Printer, fault};
use std::test::Fail;
use vk_parse_expr::{High, read_expr};

// A fault stands with the number of tokens from its place on.
static TEXTS: [(&str, &str); 78] = [
    // Literals and names.
    ("a", "1a"),
    ("7", "1#7"),
    // The ten levels, each from the left.
    ("a * b / c % d", "1(1(1(1a Mul 3b) Div 5c) Rem 7d)"),
    ("a + b - c + d", "1(1(1(1a Add 3b) Sub 5c) Add 7d)"),
    ("a << b >> c", "1(1(1a Shl 3b) Shr 5c)"),
    (
        "a < b > c <= d >= e",
        "1(1(1(1(1a Lt 3b) Gt 5c) Le 7d) Ge 9e)",
    ),
    ("a == b != c", "1(1(1a Eq 3b) Ne 5c)"),
    ("a & b & c", "1(1(1a And 3b) And 5c)"),
    ("a ^ b ^ c", "1(1(1a Xor 3b) Xor 5c)"),
    ("a | b | c", "1(1(1a Or 3b) Or 5c)"),
    ("a && b && c", "1(1(1a LogAnd 3b) LogAnd 5c)"),
    ("a || b || c", "1(1(1a LogOr 3b) LogOr 5c)"),
    // Each level binds before the next.
    ("a + b * c", "1(1a Add 3(3b Mul 5c))"),
    ("a * b + c", "1(1(1a Mul 3b) Add 5c)"),
    ("a << b + c", "1(1a Shl 3(3b Add 5c))"),
    ("a < b << c", "1(1a Lt 3(3b Shl 5c))"),
    ("a == b < c", "1(1a Eq 3(3b Lt 5c))"),
    ("a & b == c", "1(1a And 3(3b Eq 5c))"),
    ("a ^ b & c", "1(1a Xor 3(3b And 5c))"),
    ("a | b ^ c", "1(1a Or 3(3b Xor 5c))"),
    ("a && b | c", "1(1a LogAnd 3(3b Or 5c))"),
    ("a || b && c", "1(1a LogOr 3(3b LogAnd 5c))"),
    ("a || b ? c : d", "1(1(1a LogOr 3b) ? 5c : 7d)"),
    // The conditional operator, from the right.
    ("a ? b : c ? d : e", "1(1a ? 3b : 5(5c ? 7d : 9e))"),
    ("a ? b ? c : d : e", "1(1a ? 3(3b ? 5c : 7d) : 9e)"),
    // Signs before an operand.
    ("- - a", "1(Neg 2(Neg 3a))"),
    ("* & a [ b ]", "1(* 2(& 3[3a 5b]))"),
    ("! ~ + a", "1(LogNot 2(Not 3(Plus 4a)))"),
    ("a - - b", "1(1a Sub 3(Neg 4b))"),
    ("- a * b", "1(1(Neg 2a) Mul 4b)"),
    // Casts.
    ("( int ) a + b", "1(1(I32 4a) Add 6b)"),
    ("( const unsigned char ) ( long ) a", "1(U8 6(I64 9a))"),
    ("( long unsigned long ) - a", "1(U64 6(Neg 7a))"),
    ("( int ) ( a ) [ b ]", "1(I32 4[5a 8b])"),
    ("( uint8_t const ) a", "1(U8 5a)"),
    ("( int char ) a", "1(I32 5a)"),
    // Parentheses.
    ("( a ) + b", "1(2a Add 5b)"),
    ("( ( a ) )", "3a"),
    ("( a + b ) * c", "1(2(2a Add 4b) Mul 7c)"),
    ("a - ( b - c )", "1(1a Sub 4(4b Sub 6c))"),
    ("( a ) ? b : c", "1(2a ? 5b : 7c)"),
    // Calls and subscripts.
    ("f ( )", "1f()"),
    ("f ( a )", "1f(3a,)"),
    ("f ( a + b , ( c ) , d )", "1f(3(3a Add 5b),8c,11d,)"),
    ("f ( g ( ) ) [ 2 ]", "1[1f(3g(),) 8#2]"),
    ("a [ b ] [ c ]", "1[1[1a 3b] 6c]"),
    // No expression, with the number of tokens from the place on.
    ("", "C5 0"),
    ("a +", "C5 0"),
    ("*", "C5 0"),
    ("a b", "C5 1"),
    ("+ )", "C5 1"),
    ("( a", "C5 0"),
    ("( )", "C5 1"),
    ("( a ]", "C5 1"),
    ("a [ b", "C5 0"),
    ("a [ ]", "C5 1"),
    ("a [ b )", "C5 1"),
    ("a [ b ] c", "C5 1"),
    ("f ( a", "C5 0"),
    ("f ( a , )", "C5 1"),
    ("f ( , a )", "C5 3"),
    ("f ( a b )", "C5 2"),
    ("a ( b ) ( c )", "C5 3"),
    ("( f ) ( a )", "C5 3"),
    ("1 ( )", "C5 2"),
    ("a ? b", "C5 0"),
    ("a ? : b", "C5 2"),
    ("a ? b , c", "C5 2"),
    ("a , b", "C5 2"),
    ("( int )", "C5 0"),
    ("( int a )", "C5 2"),
    ("( const ) a", "C5 2"),
    ("int", "C5 1"),
    ("a = b", "C5 2"),
    ("a ++", "C5 1"),
    ("a ;", "C5 1"),
    ("sizeof a", "C5 2"),
    ("if", "C5 1"),
];

// A text between repeated ones, and the height of its tree.
static TOWERS: [(&str, u32, &str, &str, &str); 17] = [
    ("( ", 63, "a", " )", "64"),
    ("( ", 64, "a", " )", "C6 66"),
    ("- ", 63, "a", "", "64"),
    ("- ", 64, "a", "", "C6 2"),
    ("( int ) ", 63, "a", "", "64"),
    ("( int ) ", 64, "a", "", "C6 4"),
    ("", 63, "a", " + a", "64"),
    ("", 64, "a", " + a", "C6 2"),
    ("a ? a : ", 63, "a", "", "64"),
    ("a ? a : ", 64, "a", "", "C6 4"),
    ("f ( ", 63, "a", " )", "64"),
    ("f ( ", 64, "", " )", "64"),
    ("f ( ", 64, "a", " )", "C6 65"),
    ("", 63, "a", " [ a ]", "64"),
    ("", 64, "a", " [ a ]", "C6 3"),
    ("a [ ", 63, "a", " ]", "64"),
    ("a [ ", 64, "a", " ]", "C6 66"),
];

#[test]
fn reads_expressions(rt: HostRuntime) -> Result<(), Fail> {
    let alloc = rt.alloc();
    for (text, want) in &TEXTS {
        let front = front_of(&rt, alloc, text)?;
        let printer = Printer {
            alloc,
            names: &front.tokens.names,
        };
        let found = match read_expr(alloc, &front.syms.outside) {
            Ok(read) => printer.expr(&read.expr.into_expr())?,
            Err(fail) => fault(alloc, fail)?,
        };
        assert!(rt; found.as_str() == *want, "{text}");
    }
    Ok(())
}

#[test]
fn counts_levels_of_expressions(rt: HostRuntime) -> Result<(), Fail> {
    let alloc = rt.alloc();
    for (open, times, middle, close, want) in &TOWERS {
        let text = tower(alloc, open, *times, middle, close)?;
        let front = front_of(&rt, alloc, text.as_str())?;
        let found = match read_expr(alloc, &front.syms.outside) {
            Ok(High { height, .. }) => format!(in alloc; "{height}")?,
            Err(fail) => fault(alloc, fail)?,
        };
        assert!(rt; found.as_str() == *want, "{open} {middle} {close}");
    }
    Ok(())
}
