// Lines of clauses with what they say, by hand from the forms of clauses.

use crate::front::{front_of, tower};
use crate::print::Printer;
use std::test::Fail;
use vk_parse_directives::{read_clauses, read_directive};

static LINES: [(&str, &str); 61] = [
    ("", ""),
    ("inbranch", "1inbranch"),
    ("notinbranch", "1notinbranch"),
    ("simdlen ( 4 )", "1simdlen(3#4)"),
    ("simdlen ( 2 + 2 )", "1simdlen(3(3#2 Add 5#2))"),
    ("uniform ( a )", "1uniform(a)"),
    ("uniform ( a , b , c )", "1uniform(a b c)"),
    ("aligned ( a )", "1aligned(a; -)"),
    ("aligned ( a , b : 8 )", "1aligned(a b; 7#8)"),
    (
        "aligned ( a : b ? 1 : 2 )",
        "1aligned(a; 5(5b ? 7#1 : 9#2))",
    ),
    ("linear ( a )", "1linear(a; -; -)"),
    ("linear ( a , b )", "1linear(a b; -; -)"),
    ("linear ( a : 2 )", "1linear(a; -; 5#2)"),
    ("linear ( a : b )", "1linear(a; -; 5b)"),
    ("linear ( a : step )", "1linear(a; -; 5step)"),
    ("linear ( a : f ( 1 , 2 ) )", "1linear(a; -; 5f(7#1,9#2,))"),
    ("linear ( a : val )", "1linear(a; Val; -)"),
    ("linear ( a : ref )", "1linear(a; Ref; -)"),
    ("linear ( a : uval )", "1linear(a; Uval; -)"),
    ("linear ( a : step ( 3 ) )", "1linear(a; -; 7#3)"),
    ("linear ( a : val , step ( 1 ) )", "1linear(a; Val; 9#1)"),
    ("linear ( a : step ( 1 ) , val )", "1linear(a; Val; 7#1)"),
    ("linear ( a : b , step ( 1 ) )", "1linear(a; Other; 9#1)"),
    (
        "linear ( a : step ( 1 ) , step ( 2 ) )",
        "1linear(a; Other; 7#1)",
    ),
    ("linear ( a : val , ref )", "1linear(a; Other; -)"),
    ("linear ( a : val , val )", "1linear(a; Other; -)"),
    ("linear ( a : val , step )", "1linear(a; Other; -)"),
    ("linear ( val ( a ) )", "1linear(a; Val; -)"),
    ("linear ( ref ( a , b ) : 2 )", "1linear(a b; Ref; 10#2)"),
    ("linear ( b ( a ) : 1 )", "1linear(a; Other; 8#1)"),
    // Clauses behind each other.
    ("inbranch simdlen ( 4 )", "1inbranch 2simdlen(4#4)"),
    ("inbranch , simdlen ( 4 )", "1inbranch 3simdlen(5#4)"),
    (", inbranch", "2inbranch"),
    // What is of no form.
    ("inbranch ( )", "1other"),
    ("simdlen", "1other"),
    ("simdlen ( )", "1other"),
    ("simdlen ( 4", "1other"),
    ("simdlen ( 4 ) )", "1simdlen(3#4) 5other"),
    ("uniform ( )", "1other"),
    ("uniform ( a b )", "1other"),
    ("uniform ( a , )", "1other"),
    ("uniform ( int )", "1other"),
    ("aligned ( a : )", "1other"),
    ("linear ( a : val + 1 )", "1other"),
    ("linear ( val ( a ) : val )", "1other"),
    ("linear ( a : const , step ( 1 ) )", "1other"),
    ("linear ( a : 1 , val )", "1other"),
    ("nontemporal ( a , b ) inbranch", "1other 7inbranch"),
    // The words of a cast are a type.
    ("simdlen ( ( int ) 4 )", "1simdlen(3(I32 6#4))"),
    ("simdlen ( ( signed char ) 4 )", "1simdlen(3(I8 7#4))"),
    ("simdlen ( ( char ) 4 )", "1other"),
    ("simdlen ( ( short long ) 4 )", "1other"),
    ("linear ( a : ( char ) 2 )", "1other"),
    ("aligned ( a : 1 + ( char ) 2 )", "1other"),
    ("linear ( a : val , step ( ( int int ) 1 ) )", "1other"),
    ("if ( a ) inbranch", "1other 5inbranch"),
    ("reduction ( + : ( a ) ) inbranch", "1other 9inbranch"),
    ("4 inbranch", "1other 2inbranch"),
    ("( a )", "1other 2other 3other"),
    ("inbranch ,", "1inbranch 2other"),
    (", , inbranch", "1other 3inbranch"),
];

// Clauses over several lines: the line of each, and the names in it with theirs.
static PLACES: [(&str, &str); 6] = [
    ("uniform(a, b)", "1(uniform@1 a@1 b@1)"),
    (
        "\\\nuniform(a, \\\nb) \\\nlinear(c)",
        "2(uniform@2 a@2 b@3) 4(linear@4 c@4)",
    ),
    (
        "aligned(a \\\n: \\\n8) inbranch",
        "1(aligned@1 a@1) 3(inbranch@3)",
    ),
    (
        "linear(val(a, \\\nb) : \\\nc)",
        "1(linear@1 val@1 a@1 b@2 c@3)",
    ),
    (
        "simdlen(\\\n4) \\\nnotinbranch",
        "1(simdlen@1) 3(notinbranch@3)",
    ),
    ("inbranch (\\\n)", "1()"),
];

// So many signs before a literal, and whether the clause is of no form.
static LEVELS: [(u32, bool); 2] = [(63, false), (64, true)];

#[test]
fn reads_clauses(rt: HostRuntime) -> Result<(), Fail> {
    let alloc = rt.alloc();
    for (text, want) in &LINES {
        let front = front_of(&rt, alloc, text)?;
        let names = &front.tokens.names;
        let clauses = read_clauses(alloc, names, &front.syms.outside).map_err(|_| "no memory")?;
        let found = Printer { alloc, names }.clauses(&clauses)?;
        assert!(rt; found.as_str() == *want, "{text}");
    }
    Ok(())
}

#[test]
fn reads_no_expression_of_more_than_64_levels(rt: HostRuntime) -> Result<(), Fail> {
    let alloc = rt.alloc();
    for (levels, is_other) in &LEVELS {
        let value = tower(alloc, "- ", *levels, "1", "")?;
        let text = format!(in alloc; "simdlen ( {value} )")?;
        let front = front_of(&rt, alloc, text.as_str())?;
        let names = &front.tokens.names;
        let clauses = read_clauses(alloc, names, &front.syms.outside).map_err(|_| "no memory")?;
        assert_eq!(rt; clauses.len(), 1);
        let found = Printer { alloc, names }.clauses(&clauses)?;
        assert_eq!(rt; found.as_str() == "1other", *is_other);
    }
    Ok(())
}

#[test]
fn reads_the_directive_of_a_line(rt: HostRuntime) -> Result<(), Fail> {
    let alloc = rt.alloc();
    let text =
        "#pragma omp declare simd inbranch\n\n#pragma omp declare simd simdlen ( 4 ) notinbranch\n";
    let front = front_of(&rt, alloc, text)?;
    let names = &front.tokens.names;
    let syms = &front.syms;
    assert_eq!(rt; syms.lines.len(), 2);
    assert_eq!(rt; syms.outside.len(), 2);
    let directive = read_directive(alloc, names, syms, syms.outside[1], 2).map_err(
        |_| "no memory",
    )?;
    assert_eq!(rt; directive.line, 3);
    assert_eq!(rt; directive.token, 3);
    assert_eq!(rt; directive.number, 2);
    let found = Printer { alloc, names }.directive(&directive)?;
    assert!(rt; found.as_str() == "2[5simdlen(7#4) 9notinbranch]");
    Ok(())
}

#[test]
fn keeps_the_lines_of_clauses_and_names(rt: HostRuntime) -> Result<(), Fail> {
    let alloc = rt.alloc();
    for (text, want) in &PLACES {
        let front = front_of(&rt, alloc, text)?;
        let names = &front.tokens.names;
        let clauses = read_clauses(alloc, names, &front.syms.outside).map_err(|_| "no memory")?;
        let found = Printer { alloc, names }.places(&clauses)?;
        assert!(rt; found.as_str() == *want, "{text}");
    }
    Ok(())
}
