// Tokens, lines and faults of small units.

use crate::print::{Printer, refusal};
use std::alloc::{AllocError, Global};
use std::test::Fail;
use vk_lex::lex;

// Each token as its line and its text or value, behind them the line of the end; or the fault.
static UNITS: [(&str, &str); 86] = [
    ("", "1"),
    ("int f(void);\n", "1:int 1:f 1:( 1:void 1:) 1:; 2"),
    ("// numbers", "1"),
    ("0", "1:0I32 1"),
    ("017", "1:15I32 1"),
    ("2147483647", "1:2147483647I32 1"),
    ("2147483648", "1:2147483648I64 1"),
    ("0x80000000", "1:2147483648U32 1"),
    ("0x7fffffffffffffff", "1:9223372036854775807I64 1"),
    ("0xffffffffffffffff", "1:18446744073709551615U64 1"),
    ("1u", "1:1U32 1"),
    ("4294967296u", "1:4294967296U64 1"),
    ("1L", "1:1I64 1"),
    ("1ll", "1:1I64 1"),
    ("1llU", "1:1U64 1"),
    ("1uLL", "1:1U64 1"),
    ("1lL", "C1 1"),
    ("1uu", "C1 1"),
    ("1ulu", "C1 1"),
    ("18446744073709551615u", "1:18446744073709551615U64 1"),
    ("9223372036854775808", "C3 1"),
    ("18446744073709551616u", "C3 1"),
    ("0x10000000000000000", "C3 1"),
    ("1e+5", "C2 1"),
    ("1.0x", "C2 1"),
    ("1..2", "C2 1"),
    (".5", "C2 1"),
    ("0x1p3", "C2 1"),
    ("0x.8p-1", "C2 1"),
    ("0x1.8", "C1 1"),
    ("08", "C1 1"),
    ("1e", "C1 1"),
    ("0x", "C1 1"),
    ("3abc", "C1 1"),
    ("0x1e+5", "1:30I32 1:+ 1:5I32 1"),
    ("float f", "C2 1"),
    ("x double", "C2 1"),
    ("_Complex", "C2 1"),
    ("floats", "1:floats 1"),
    ("a<<=b>>c<=d<e", "1:a 1:<<= 1:b 1:>> 1:c 1:<= 1:d 1:< 1:e 1"),
    ("a+++b", "1:a 1:++ 1:+ 1:b 1"),
    ("a->b", "1:a 1:- 1:> 1:b 1"),
    ("'a'", "C1 1"),
    ("a\n\"\"", "C1 2"),
    (".", "C1 1"),
    ("a @", "C1 1"),
    ("\u{c}", "C1 1"),
    ("a /* b\n c */ d", "1:a 2:d 2"),
    ("/**/a", "1:a 1"),
    ("/***/a", "1:a 1"),
    ("/*/ a */b", "1:b 1"),
    ("a//b\nc", "1:a 2:c 2"),
    ("/* x", "C1 1"),
    ("a\n\n/* x\n", "C1 3"),
    ("a\\\nb", "1:ab 2"),
    ("a\\\r\nb c", "1:ab 2:c 2"),
    ("x\r\ny", "1:x 2:y 2"),
    ("\\", "C1 1"),
    ("a\\ \nb", "C1 1"),
    ("/\\\n* x *\\\n/ y", "3:y 3"),
    ("#include<stdint.h>\nx", "2:x 2"),
    (" # include <stdint.h> // x", "1"),
    ("#include <stdint.h> x", "C4 1"),
    ("#include \"a.h\"", "C4 1"),
    ("/* a */ # /* b\n */ include <stdint.h> /* d */\nx", "3:x 3"),
    ("#include /* x", "C4 1"),
    ("#include <stdint.h> /* x", "C1 1"),
    ("#pragma\nx", "2:x 2"),
    ("#pragma once @ \"\nx", "2:x 2"),
    ("#pragma once /* @\n */ @\nx", "3:x 3"),
    ("#pragma once /* x", "C1 1"),
    ("#pragma ompx simd\n", "2"),
    ("#pragma omp-x", "C4 1"),
    ("#pragma omp", "C4 1"),
    ("#pragma omp parallel", "C4 1"),
    ("#pragma omp declare target", "C4 1"),
    ("x\n#define X", "C4 2"),
    ("#", "C4 1"),
    ("a # b", "C1 1"),
    ("#pragma omp declare simd\nint", "1:SIMDFN 1:END 2:int 2"),
    (
        "#pragma omp declare si\\\nmd\nint",
        "1:SIMDFN 2:END 3:int 3",
    ),
    (
        "#pragma omp simd,simdlen(4)\n",
        "1:SIMD 1:, 1:simdlen 1:( 1:4I32 1:) 1:END 2",
    ),
    ("#pragma omp simd", "1:SIMD 1:END 1"),
    ("#pragma omp simd simdlen(1.5)", "C2 1"),
    ("#pragma omp simd # x", "C1 1"),
    ("#pragma omp simd /* x", "C1 1"),
];

fn shown(alloc: Global, bytes: &[u8]) -> Result<String, AllocError> {
    if bytes.len() > 1000 {
        return Ok(String::new(alloc));
    }
    match lex(alloc, bytes) {
        Ok(tokens) => {
            let printer = Printer {
                alloc,
                names: &tokens.names,
            };
            let mut text = String::new(alloc);
            for token in &tokens.list {
                text.push_str(printer.token(*token)?.as_str())?;
                text.push(' ')?;
            }
            let last = tokens.last;
            text.push_str(format!(in alloc; "{last}")?.as_str())?;
            Ok(text)
        }
        Err(fail) => refusal(alloc, fail),
    }
}

#[test]
fn reads_tokens(rt: HostRuntime) -> Result<(), Fail> {
    for (unit, want) in &UNITS {
        let found = shown(rt.alloc(), unit.as_bytes())?;
        assert!(rt; found.as_str() == *want, "{unit}");
    }
    Ok(())
}
