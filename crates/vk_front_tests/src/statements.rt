// Blocks of functions with their trees or faults, both by hand from the grammar.

use crate::front::{front_of, tower};
use crate::print::{Printer, fault};
use crate::units::NoClauses;
use std::test::Fail;
use vk_parse_stmt::read_body;

// Behind a `+`, or with a fault from its place on, stands how many tokens are left.
static TEXTS: [(&str, &str); 60] = [
    // Blocks and parts.
    ("{ }", "1[]"),
    ("{ ; }", "1[2;]"),
    ("{ { ; } ; }", "1[2[3;] 5;]"),
    ("{ } ;", "1[] +1"),
    ("{ a = 1 ; }", "1[2=(2a 4#1)]"),
    ("{ a += b ; }", "1[2Add=(2a 4b)]"),
    ("{ a <<= b ; }", "1[2Shl=(2a 4b)]"),
    ("{ ++ a ; }", "1[2Add=(3a 2#1)]"),
    ("{ a -- ; }", "1[2Sub=(2a 3#1)]"),
    ("{ a + b ; }", "1[2e(2(2a Add 4b))]"),
    ("{ break ; continue ; }", "1[2break 4continue]"),
    ("{ return ; return a ; }", "1[2return() 4return(5a)]"),
    // Declarations.
    ("{ int a ; }", "1[3:I32 a]"),
    ("{ int a , b = 1 ; }", "1[3:I32 a 5:I32 b=7#1]"),
    ("{ const long a = 2 ; }", "1[4!I64 a=6#2]"),
    ("{ const const int a ; }", "1[5!I32 a]"),
    ("{ if ( a ) int b ; }", "1[2if(4a 7:I32 b)]"),
    ("{ if ( a ) int b , c ; }", "1[2if(4a 6[7:I32 b 9:I32 c])]"),
    // An `else` belongs to the nearest `if`.
    ("{ if ( a ) ; }", "1[2if(4a 6;)]"),
    ("{ if ( a ) ; else ; }", "1[2if(4a 6; else 8;)]"),
    (
        "{ if ( a ) if ( b ) ; else ; }",
        "1[2if(4a 6if(8b 10; else 12;))]",
    ),
    (
        "{ if ( a ) while ( b ) if ( c ) ; else ; }",
        "1[2if(4a 6while(8b 10if(12c 14; else 16;)))]",
    ),
    (
        "{ if ( a ) { if ( b ) ; } else ; }",
        "1[2if(4a 6[7if(9b 11;)] else 14;)]",
    ),
    (
        "{ if ( a ) do ; while ( b ) ; else ; }",
        "1[2if(4a 6do(7; 10b) else 14;)]",
    ),
    // Loops.
    ("{ while ( a ) ; }", "1[2while(4a 6;)]"),
    ("{ do ; while ( a ) ; }", "1[2do(3; 6a)]"),
    ("{ for ( ; ; ) ; }", "1[2for(4; - 6; 7;)]"),
    (
        "{ for ( int a = 0 ; a < 9 ; a ++ ) ; }",
        "1[2for(5:I32 a=7#0 9(9a Lt 11#9) 13Add=(13a 14#1) 16;)]",
    ),
    (
        "{ for ( int a , b ; ; ) ; }",
        "1[2for(4[5:I32 a 7:I32 b] - 10; 11;)]",
    ),
    (
        "{ for ( a = 0 ; ; a -= 1 ) ; }",
        "1[2for(4=(4a 6#0) - 9Sub=(9a 11#1) 13;)]",
    ),
    // Lines of directives.
    ("{\n#pragma omp simd\n; }", "1[2simd1(4;)]"),
    (
        "{\n#pragma omp simd\nfor ( ; ; ) ; }",
        "1[2simd1(4for(6; - 8; 9;))]",
    ),
    ("{\n#pragma omp declare simd\n; }", "1[2lost1 4;]"),
    (
        "{\n#pragma omp simd\n#pragma omp declare simd\n}",
        "1[2simd1(4lost2)]",
    ),
    // No block, with the number of tokens from the place on.
    ("", "C5 0"),
    (";", "C5 1"),
    ("{", "C5 0"),
    ("{ a", "C5 0"),
    ("{ a }", "C5 1"),
    ("{ else ; }", "C5 3"),
    ("{ if a ) ; }", "C5 4"),
    ("{ if ( ) ; }", "C5 3"),
    ("{ while ( a ; }", "C5 2"),
    ("{ do ; ( a ) ; }", "C5 5"),
    ("{ do ; while ( a ) }", "C5 1"),
    ("{ for ( a ; ) ; }", "C5 3"),
    ("{ for ( ; ; ; ) ; }", "C5 4"),
    ("{ break }", "C5 1"),
    ("{ return int ; }", "C5 3"),
    ("{ int ; }", "C5 2"),
    ("{ int a b ; }", "C5 3"),
    ("{ int a = ; }", "C5 2"),
    ("{ int a , ; }", "C5 2"),
    ("{ const a ; }", "C5 3"),
    ("{ a = b = c ; }", "C5 4"),
    ("{ a + b = c ; }", "C5 4"),
    ("{ ++ a ++ ; }", "C5 3"),
    ("{\n#pragma omp simd\n}", "C5 1"),
    ("{ extern a ; }", "C5 4"),
    ("{ if ( a ) ; else }", "C5 1"),
];

// A text between repeated ones.
static TOWERS: [(&str, &str, u32, &str, &str, &str); 8] = [
    ("", "{ ", 65, "", "} ", "ok"),
    ("", "{ ", 66, "", "} ", "C6 67"),
    ("", "{ ", 64, "; ", "} ", "ok"),
    ("", "{ ", 65, "; ", "} ", "C6 66"),
    ("{ ", "while ( a ) ", 63, "; } ", "", "ok"),
    ("{ ", "while ( a ) ", 64, "; } ", "", "C6 6"),
    ("{ ", "while ( a ) ", 63, "int b , c ; } ", "", "C6 4"),
    ("{ ", "while ( a ) ", 62, "int b , c ; } ", "", "ok"),
];

#[test]
fn reads_blocks(rt: HostRuntime) -> Result<(), Fail> {
    let alloc = rt.alloc();
    for (text, want) in &TEXTS {
        let front = front_of(&rt, alloc, text)?;
        let printer = Printer {
            alloc,
            names: &front.tokens.names,
        };
        let found = match read_body(alloc, &NoClauses, &front.syms.outside) {
            Ok((body, [])) => printer.stmt(&body.into_stmt())?,
            Ok((body, rest)) => {
                let tree = printer.stmt(&body.into_stmt())?;
                let left = rest.len();
                format!(in alloc; "{tree} +{left}")?
            }
            Err(fail) => fault(alloc, fail)?,
        };
        assert!(rt; found.as_str() == *want, "{text}");
    }
    Ok(())
}

#[test]
fn counts_levels_of_statements(rt: HostRuntime) -> Result<(), Fail> {
    let alloc = rt.alloc();
    for (before, open, times, middle, close, want) in &TOWERS {
        let behind = tower(alloc, open, *times, middle, close)?;
        let text = format!(in alloc; "{before}{behind}")?;
        let front = front_of(&rt, alloc, text.as_str())?;
        let found = match read_body(alloc, &NoClauses, &front.syms.outside) {
            Ok(_) => format!(in alloc; "ok")?,
            Err(fail) => fault(alloc, fail)?,
        };
        assert!(rt; found.as_str() == *want, "{open} {middle} {close}");
    }
    Ok(())
}
