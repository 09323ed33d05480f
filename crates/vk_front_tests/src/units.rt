// Units with their items or faults, both by hand from the grammar.

ghost use Rattle.std.specs.Prelude.{[]};

use crate::front::{front_of, tower};
use crate::print::{Printer, fault, refusal};
use std::alloc::{AllocError, Global};
use std::test::Fail;
use vk_ast::Directive;
use vk_grammar_expr::Sym;
use vk_lex::lex;
use vk_parse::parse;
use vk_parse_expr::ReadFail;
use vk_parse_stmt::Directives;
use vk_parse_unit::read_unit;

// A fault stands with the number of tokens from its place on.
static TEXTS: [(&str, &str); 64] = [
    // Functions.
    ("", ""),
    ("int f ( ) ;", "2f() I32"),
    ("void f ( void ) ;", "2f() void"),
    ("extern int f ( ) ;", "3f() I32"),
    ("extern void f ( ) ;", "3f() void"),
    ("int f ( ) { }", "2f() I32 5[]"),
    ("void f ( ) { ; ; }", "2f() void 5[6; 7;]"),
    ("const int f ( ) ;", "3f() I32"),
    // Parameters.
    (
        "int f ( int a , long b ) { return a ; }",
        "2f(5a:I32 8b:I64) I32 10[11return(12a)]",
    ),
    ("int f ( int , long ) ;", "2f(4-:I32 6-:I64) I32"),
    ("int f ( const int a ) ;", "2f(6a!I32) I32"),
    ("int f ( int * a ) ;", "2f(6a:I32*) I32"),
    ("int f ( const int * a ) ;", "2f(7a:I32*c) I32"),
    ("int f ( int * const restrict a ) ;", "2f(8a!I32*) I32"),
    ("int f ( int * const const a ) ;", "2f(8a!I32*) I32"),
    ("int f ( int * restrict ) ;", "2f(4-:I32*) I32"),
    ("int f ( int a [ ] ) ;", "2f(5a:I32*) I32"),
    ("int f ( const int a [ 3 ] ) ;", "2f(6a:I32*c) I32"),
    // Objects.
    ("int a ;", "2a.:I32"),
    ("int a , b ;", "2a.:I32 4b.:I32"),
    ("extern const int a ;", "4ax!I32"),
    ("int a = 1 ;", "2a.:I32=4(4#1)"),
    ("int a [ 3 ] ;", "2a.:I32[4#3]"),
    ("int a [ ] = { 1 , 2 , } ;", "2a.:I32[]=6<7#1 9#2>"),
    ("int a [ 2 ] = { 1 } ;", "2a.:I32[4#2]=7<8#1>"),
    ("int a = { } ;", "2a.:I32=4<>"),
    ("int a = { 1 } , b = 2 ;", "2a.:I32=4<5#1> 8b.:I32=10(10#2)"),
    // Lines of directives.
    ("#pragma omp declare simd\nint f ( ) ;", "4f#1() I32"),
    (
        "#pragma omp declare simd\n#pragma omp declare simd\nint f ( ) { }",
        "6f#1#2() I32 9[]",
    ),
    ("#pragma omp declare simd\nint a ;", "lost1 4a.:I32"),
    ("#pragma omp declare simd\n", "lost1"),
    (
        "int a ;\n#pragma omp declare simd\n#pragma omp declare simd\n",
        "2a.:I32 lost1 lost2",
    ),
    (
        "void f ( ) {\n#pragma omp simd\n;\n#pragma omp declare simd\n}\n#pragma omp declare simd\nvoid g ( ) ;",
        "2f() void 5[6simd1(8;) 9lost2] 15g#3() void",
    ),
    // Several items.
    (
        "int f ( ) ; int a ; void g ( ) { }",
        "2f() I32 7a.:I32 10g() void 13[]",
    ),
    // No unit, with the number of tokens from the place on.
    (";", "C5 1"),
    ("int", "C5 0"),
    ("const a ;", "C5 2"),
    ("int f (", "C5 0"),
    ("int f ( )", "C5 0"),
    ("int f ( ) int", "C5 1"),
    ("int f ( int ) { }", "C5 2"),
    ("int f ( int a , int * ) { }", "C5 2"),
    ("int f ( int a , ) ;", "C5 2"),
    ("int f ( void a ) ;", "C5 3"),
    ("int f ( int a , void ) ;", "C5 3"),
    ("int f ( int * [ ] ) ;", "C5 4"),
    ("int f ( int [ ] ) ;", "C5 4"),
    ("void a ;", "C5 1"),
    ("extern ;", "C5 1"),
    ("int a", "C5 0"),
    ("int a b ;", "C5 2"),
    ("int a = ;", "C5 1"),
    ("int a [ ;", "C5 1"),
    ("int a = { , } ;", "C5 3"),
    ("int a = { 1 2 } ;", "C5 3"),
    ("int a = { 1 , , } ;", "C5 3"),
    ("int a = { 1 ;", "C5 1"),
    ("int a , ;", "C5 1"),
    ("#pragma omp simd\nint a ;", "C5 4"),
    ("int f ( ) { } ;", "C5 1"),
    ("int f ( ) , g ( ) ;", "C5 5"),
    ("int a , f ( ) ;", "C5 3"),
    ("int f ( ) {", "C5 0"),
    ("int f ( ) { a }", "C5 1"),
];

// A text between repeated ones.
static TOWERS: [(&str, &str, u32, &str, &str, &str); 4] = [
    ("void f ( ) ", "{ ", 65, "", "} ", "ok"),
    ("void f ( ) ", "{ ", 66, "", "} ", "C6 67"),
    ("int a = ", "- ", 63, "b ;", "", "ok"),
    ("int a = ", "- ", 64, "b ;", "", "C6 3"),
];

// Whole units, with clauses. A fault stands with its line.
static UNITS: [(&str, &str); 21] = [
    ("", ""),
    ("int a;", "2a.:I32"),
    (
        "int a, b = 2, c[3];\nint f(int x, short *p);",
        "2a.:I32 4b.:I32=6(6#2) 8c.:I32[10#3] 14f(17x:I32 21p:I16*) I32",
    ),
    (
        "#pragma omp declare simd simdlen(4)\nint f(int a) { return a; }",
        "8f#1[2simdlen(4#4)](11a:I32) I32 13[14return(15a)]",
    ),
    ("#pragma omp declare simd\nint a;", "lost1 4a.:I32"),
    ("int a;\n#pragma omp declare simd\n", "2a.:I32 lost1"),
    (
        "void f(int n) {\n#pragma omp simd\nfor (int i = 0; i < n; i++) ;\n}",
        "2f(5n:I32) void 7[8simd1(10for(13:I32 i=15#0 17(17i Lt 19n) 21Add=(21i 22#1) 24;))]",
    ),
    ("int", "C5 1"),
    ("int a\n", "C5 2"),
    ("int a;\nint f(int) { return 1; }", "C5 2"),
    ("int f(void) {\nreturn 1 +;\n}", "C5 2"),
    ("int f(void) {\nelse ;\n}", "C5 2"),
    ("int char x;\nint y", "C7 1"),
    ("int y\nint char x;", "C7 2"),
    ("int y }\nint char x;", "C5 1"),
    ("int a;\ngoto b;", "C7 2"),
    ("long long long a;", "C7 1"),
    ("signed unsigned a;", "C7 1"),
    ("typedef int t;", "C7 1"),
    ("int a; }", "C5 1"),
    ("int f(void) { return 0; }\n\nint f", "C5 3"),
];

/// Directives without clauses.
#[derive(Drop)]
pub(crate) struct NoClauses;

impl Directives for NoClauses {
    ghost clauses = { λ _ _. [] };

    fn directive(&self, alloc: Global, sym: Sym, number: u32) -> Result<Directive, ReadFail> {
        Ok(Directive {
            line: sym.line,
            token: sym.at,
            number,
            clauses: Vec::new(alloc),
        })
    }
}

#[test]
fn reads_items(rt: HostRuntime) -> Result<(), Fail> {
    let alloc = rt.alloc();
    for (text, want) in &TEXTS {
        let front = front_of(&rt, alloc, text)?;
        let printer = Printer {
            alloc,
            names: &front.tokens.names,
        };
        let found = match read_unit(alloc, &NoClauses, &front.syms.outside) {
            Ok(items) => printer.items(&items)?,
            Err(fail) => fault(alloc, fail)?,
        };
        assert!(rt; found.as_str() == *want, "{text}");
    }
    Ok(())
}

#[test]
fn counts_levels_of_units(rt: HostRuntime) -> Result<(), Fail> {
    let alloc = rt.alloc();
    for (before, open, times, middle, close, want) in &TOWERS {
        let behind = tower(alloc, open, *times, middle, close)?;
        let text = format!(in alloc; "{before}{behind}")?;
        let front = front_of(&rt, alloc, text.as_str())?;
        let found = match read_unit(alloc, &NoClauses, &front.syms.outside) {
            Ok(_) => format!(in alloc; "ok")?,
            Err(fail) => fault(alloc, fail)?,
        };
        assert!(rt; found.as_str() == *want, "{open} {middle} {close}");
    }
    Ok(())
}

fn shown(alloc: Global, bytes: &[u8]) -> Result<String, AllocError> {
    if bytes.len() > 1000 {
        return Ok(String::new(alloc));
    }
    match lex(alloc, bytes) {
        Ok(tokens) => match parse(alloc, &tokens) {
            Ok(unit) => {
                let printer = Printer {
                    alloc,
                    names: &unit.names,
                };
                printer.items(&unit.items)
            }
            Err(fail) => refusal(alloc, fail),
        },
        Err(fail) => refusal(alloc, fail),
    }
}

#[test]
fn reads_whole_units(rt: HostRuntime) -> Result<(), Fail> {
    for (unit, want) in &UNITS {
        let found = shown(rt.alloc(), unit.as_bytes())?;
        assert!(rt; found.as_str() == *want, "{unit}");
    }
    Ok(())
}
