// Objects as values.

use crate::codes::{INT, LONG, POINTER, is_calling, is_five};
use std::alloc::Global;
use vk_kinds::{Branch, CType, Head, Kind, Param, Signature, Step, Target};
use vk_object::{DataRow, FunctionRow, Object, Symbol};
use vk_types::{Ty, Word};

/// The object of a unit that declares nothing.
pub fn nothing(alloc: Global) -> Object {
    Object {
        target: Target::X86,
        symbols: Vec::new(alloc),
        objects: Vec::new(alloc),
        functions: Vec::new(alloc),
    }
}

fn is_text(symbol: &Symbol, text: &[u8]) -> bool {
    symbol.text.as_slice() == text
}

fn are_symbols(symbols: &[Symbol]) -> bool {
    match symbols {
        [f, g, h, t, u, x] => {
            let functions = is_text(f, b"f") && is_text(g, b"g") && is_text(h, b"h");
            functions && is_text(t, b"t") && is_text(u, b"u") && is_text(x, b"x")
        }
        _ => false,
    }
}

fn is_type(row: &DataRow, ty: Ty, flags: (bool, bool), length: u32) -> bool {
    row.ty == ty && row.fixed == flags.0 && row.defined == flags.1 && row.length == length
}

fn are_objects(rows: &[DataRow]) -> bool {
    match rows {
        [t, u, x] => {
            let t_type = t.symbol == 3 && is_type(t, Ty::I16, (true, true), 3);
            let u_type = u.symbol == 4 && is_type(u, Ty::U8, (false, true), 2);
            let x_type = x.symbol == 5 && is_type(x, Ty::I32, (false, false), 4);
            let elements = t.elements.as_slice()
                == [Word(7), Word(18446744073709551607)].as_slice();
            let others = u.elements.as_slice() == [Word(5)].as_slice() && x.elements.is_empty();
            t_type && u_type && x_type && elements && others
        }
        _ => false,
    }
}

// A vector number, a uniform number, and a pointer that moves by this step.
fn are_params(params: &[Param], step: Step, align: Option<u32>) -> bool {
    match params {
        [x, n, p] => {
            let kinds = x.kind == Kind::Vector && n.kind == Kind::Uniform;
            let pointer = p.kind == Kind::Linear(step) && p.align == align;
            kinds && pointer && x.align == None && n.align == None
        }
        _ => false,
    }
}

fn are_directives(directives: &[Signature]) -> bool {
    match directives {
        [first, second] => {
            let lanes = first.simdlen == Some(4) && second.simdlen == Some(8);
            let branches = first.branch == Branch::Outside && second.branch == Branch::Inside;
            let params = are_params(first.params.as_slice(), Step::By(4), Some(16));
            let others = are_params(second.params.as_slice(), Step::Arg(1), None);
            lanes && branches && params && others
        }
        _ => false,
    }
}

fn is_head(head: &Head, result_type: CType) -> bool {
    head.result == result_type && head.params.as_slice() == [INT, LONG, POINTER].as_slice()
}

// Whether the code of a function with directives, and that of both of them, is `five`.
fn are_fives(row: &FunctionRow) -> bool {
    match &row.codes {
        None => false,
        Some(codes) => match codes.lanes.as_slice() {
            [first, second] => is_five(&codes.scalar) && is_five(first) && is_five(second),
            _ => false,
        },
    }
}

fn calls(row: &FunctionRow) -> bool {
    match &row.codes {
        None => false,
        Some(codes) => is_calling(&codes.scalar) && codes.lanes.is_empty(),
    }
}

fn are_functions(rows: &[FunctionRow]) -> bool {
    match rows {
        [f, g, h] => {
            let symbols = f.symbol == 0 && g.symbol == 1 && h.symbol == 2;
            let heads = is_head(&f.head, INT) && is_head(&g.head, CType::Void);
            let other = h.head.result == CType::Int(Ty::U64) && h.head.params.is_empty();
            let none = g.directives.is_empty() && h.directives.is_empty() && h.codes.is_none();
            let f_codes = are_directives(&f.directives) && are_fives(f);
            symbols && heads && other && none && f_codes && calls(g)
        }
        _ => false,
    }
}

/// Whether it is the object with every kind of record.
pub fn is_all(object: &Object) -> bool {
    let symbols = object.target == Target::X86 && are_symbols(&object.symbols);
    symbols && are_objects(&object.objects) && are_functions(&object.functions)
}
