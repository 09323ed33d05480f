// Words by the lists of the standard, lines of directives, and the places of C7 by hand from the rule.

use crate::front::front_of;
use crate::print::Printer;
use std::alloc::AllocError;
use std::test::Fail;
use vk_grammar_expr::Sym;
use vk_parse_words::first_word_fault;

static WORDS: [(&str, &str); 39] = [
    ("auto", "left out"),
    ("case", "left out"),
    ("default", "left out"),
    ("enum", "left out"),
    ("goto", "left out"),
    ("inline", "left out"),
    ("register", "left out"),
    ("sizeof", "left out"),
    ("static", "left out"),
    ("struct", "left out"),
    ("switch", "left out"),
    ("typedef", "left out"),
    ("union", "left out"),
    ("volatile", "left out"),
    ("_Alignas", "left out"),
    ("_Alignof", "left out"),
    ("_Atomic", "left out"),
    ("_Bool", "left out"),
    ("_Generic", "left out"),
    ("_Imaginary", "left out"),
    ("_Noreturn", "left out"),
    ("_Static_assert", "left out"),
    ("_Thread_local", "left out"),
    ("x", "name x"),
    ("simdlen", "name simdlen"),
    ("uniform", "name uniform"),
    ("val", "name val"),
    ("main", "name main"),
    ("Int", "name Int"),
    ("int128_t", "name int128_t"),
    ("size_t", "name size_t"),
    ("_Atomics", "name _Atomics"),
    ("if", "keyword If"),
    ("restrict", "keyword Restrict"),
    ("void", "keyword Void"),
    ("signed", "type Signed"),
    ("long", "type Long"),
    ("int8_t", "type Int8"),
    ("uint64_t", "type Uint64"),
];

// The tokens outside directive lines, each with its number from 0, and those of each line's clauses.
static LINES: [(&str, &str, &[&str]); 1] = [(
    ";\n#pragma omp declare simd , :\n?\n#pragma omp simd\n",
    "0 ; 1 SIMDFN 1 5 ? 6 SIMD 2",
    &["2 , 3 :", ""],
)];

// A place is the number of tokens from it on.
static PLACES: [(&str, Option<usize>); 22] = [
    ("", None),
    ("int x", None),
    ("const unsigned long const int x", None),
    ("long unsigned long", None),
    ("signed char", None),
    ("const x", None),
    ("void x", None),
    ("char x", Some(2)),
    ("x long char", Some(2)),
    ("const char x", Some(2)),
    ("const const char const x", Some(3)),
    ("int int", Some(2)),
    ("int const int x", Some(4)),
    ("int , int", None),
    ("int , char", Some(1)),
    ("long long long", Some(3)),
    ("unsigned signed", Some(2)),
    ("int8_t int", Some(2)),
    ("int\n#pragma omp simd\nchar", Some(1)),
    ("auto int", Some(2)),
    ("int x auto char", Some(2)),
    ("char auto", Some(2)),
];

fn shown(printer: &Printer, syms: &[Sym]) -> Result<String, AllocError> {
    let mut text = String::new(printer.alloc);
    for sym in syms {
        let at = sym.at;
        let kind = printer.sym(*sym)?;
        if !text.is_empty() {
            text.push(' ')?;
        }
        text.push_str(format!(in printer.alloc; "{at} {kind}")?.as_str())?;
    }
    Ok(text)
}

#[test]
fn tells_words_apart(rt: HostRuntime) -> Result<(), Fail> {
    let alloc = rt.alloc();
    for (word, want) in &WORDS {
        let front = front_of(&rt, alloc, word)?;
        let printer = Printer {
            alloc,
            names: &front.tokens.names,
        };
        assert_eq!(rt; front.syms.outside.len(), 1, "{word}");
        assert!(rt;
            printer.sym(front.syms.outside[0])?.as_str() == *want,
            "{word}"
        );
    }
    Ok(())
}

#[test]
fn takes_directive_lines_apart(rt: HostRuntime) -> Result<(), Fail> {
    let alloc = rt.alloc();
    for (text, outside, lines) in &LINES {
        let front = front_of(&rt, alloc, text)?;
        let printer = Printer {
            alloc,
            names: &front.tokens.names,
        };
        assert!(rt;
            shown(&printer, &front.syms.outside)?.as_str() == *outside,
            "{text}"
        );
        assert_eq!(rt; front.syms.lines.len(), lines.len(), "{text}");
        for (line, want) in front.syms.lines.iter().zip(lines.iter()) {
            assert!(rt; shown(&printer, line)?.as_str() == *want, "{text}");
        }
    }
    Ok(())
}

#[test]
fn finds_the_first_place(rt: HostRuntime) -> Result<(), Fail> {
    for (text, want) in &PLACES {
        let front = front_of(&rt, rt.alloc(), text)?;
        assert!(rt; first_word_fault(&front.syms.outside) == *want, "{text}");
    }
    Ok(())
}
