// Parameters of directives and entries, and their types.

ghost use Rattle.std.specs.Prelude.{◌≡◌, ◌++◌, OnOk};
ghost use Rattle.byteorder.specs.Endian.{little_bytes};
ghost use Rattle.vk_code_format.specs.Fields.{or_none};
ghost use Rattle.vk_code_write.specs.Inner.Bytes.{kind_bytes, numbers_bytes, step_bytes};

use crate::parts::put_i32;
use crate::written::{FileKind, Written};
use vk_format::fields::{put_u8, put_u32};
use vk_kinds::{CType, Kind, Param, Step};
use vk_memory::Memory;

impl Written for CType {
    ghost use Rattle.byteorder.specs.Endian.{little_bytes};
    ghost use Rattle.vk_kinds.specs.Types.{ctype_number};

    ghost bytes = { λ file t. little_bytes 1 (ctype_number t) };

    fn put(&self, _file: FileKind, out: &mut Vec<u8>) -> Result<(), Memory> {
        put_u8(out, u8::from(*self))
    }
}

impl Written for Param {
    ghost use Rattle.vk_code_write.specs.Inner.Bytes.{param_bytes};

    ghost bytes = { λ file p. param_bytes p };

    fn put(&self, _file: FileKind, out: &mut Vec<u8>) -> Result<(), Memory> {
        put_kind(out, self.kind)?;
        put_alignment(out, self.align)
    }
}

fn put_kind(out: &mut Vec<u8>, kind: Kind) -> Result<(), Memory>
    ensures written { OnOk result (out.new.items ≡ out.old.items ++ kind_bytes kind) }
{
    match kind {
        Kind::Vector => put_numbers(out, 0, 0),
        Kind::Uniform => put_numbers(out, 1, 0),
        Kind::Linear(step) => put_step(out, step),
        Kind::Ref(step) => put_step(out, step),
        Kind::Val(step) => put_step(out, step),
        Kind::Uval(step) => put_step(out, step),
    }
}

fn put_step(out: &mut Vec<u8>, step: Step) -> Result<(), Memory>
    ensures written { OnOk result (out.new.items ≡ out.old.items ++ step_bytes step) }
{
    match step {
        Step::One => put_numbers(out, 2, 1),
        Step::By(number) => {
            put_u8(out, 2)?;
            put_i32(out, number)
        }
        Step::Arg(place) => put_numbers(out, 3, u32::from(place)),
    }
}

fn put_numbers(out: &mut Vec<u8>, kind: u8, value: u32) -> Result<(), Memory>
    ensures written { OnOk result (out.new.items ≡ out.old.items ++ numbers_bytes kind value) }
{
    put_u8(out, kind)?;
    put_u32(out, value)
}

fn put_alignment(out: &mut Vec<u8>, align: Option<u32>) -> Result<(), Memory>
    ensures written { OnOk result (out.new.items ≡ out.old.items ++ little_bytes 4 (or_none 0 align)) }
{
    match align {
        Some(bytes) => put_u32(out, bytes),
        None => put_u32(out, 0),
    }
}
