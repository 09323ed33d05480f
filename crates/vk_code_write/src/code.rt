// Code.

ghost use Rattle.std.specs.Prelude.{◌≡◌, ◌++◌, map, OnOk};
ghost use Rattle.byteorder.specs.Endian.{little_bytes};
ghost use Rattle.vk_code.specs.Listing.{body_of, call_site_of, routine_of, simd_site_of};
ghost use Rattle.vk_code_write.specs.Inner.Bytes.{body_bytes, front_bytes, instrs_bytes, loops_bytes, numbers_bytes, params_bytes, routine_bytes, shape_bytes, slot_head, slots_bytes};

use crate::parts::{put_flag, put_i32, put_register, put_simdlen};
use crate::written::{FileKind, Written, put_all};
use vk_code::{Body, Code, Guard, Instr, LoopSite, Shape, Slot, SlotArg};
use vk_format::fields::{
    put_count_u8, put_count_u16, put_count_u32, put_u8, put_u16, put_u32, put_u64,
};
use vk_memory::Memory;

impl Written for Instr {
    ghost use Rattle.vk_code_format.specs.Codes.{instr_bytes};

    ghost bytes = { λ file i. instr_bytes i };

    fn put(&self, _file: FileKind, out: &mut Vec<u8>) -> Result<(), Memory> {
        put_u8(out, self.op)?;
        put_u8(out, self.ty)?;
        put_u16(out, self.m)?;
        put_u16(out, self.d)?;
        put_u16(out, self.a)?;
        put_u64(out, self.imm)
    }
}

impl Written for SlotArg {
    ghost use Rattle.vk_code_write.specs.Inner.Bytes.{arg_bytes};

    ghost bytes = { λ file a. arg_bytes a };

    fn put(&self, _file: FileKind, out: &mut Vec<u8>) -> Result<(), Memory> {
        put_u16(out, self.reg)?;
        put_shape(out, self.shape)
    }
}

fn put_shape(out: &mut Vec<u8>, shape: Shape) -> Result<(), Memory>
    ensures written { OnOk result (out.new.items ≡ out.old.items ++ shape_bytes shape) }
{
    match shape {
        Shape::Vector => put_numbers(out, 0, 0),
        Shape::Uniform => put_numbers(out, 1, 0),
        Shape::By(number) => {
            put_u8(out, 2)?;
            put_i32(out, number)
        }
        Shape::Along(place) => put_numbers(out, 3, u32::from(place)),
        Shape::Literal(number) => {
            put_u8(out, 4)?;
            put_i32(out, number)
        }
        Shape::Same(place) => put_numbers(out, 5, u32::from(place)),
    }
}

fn put_numbers(out: &mut Vec<u8>, kind: u8, value: u32) -> Result<(), Memory>
    ensures written { OnOk result (out.new.items ≡ out.old.items ++ numbers_bytes kind value) }
{
    put_u8(out, kind)?;
    put_u32(out, value)
}

impl Written for Slot {
    ghost use Rattle.vk_code.specs.Listing.{call_site_of};
    ghost use Rattle.vk_code_write.specs.Inner.Bytes.{slot_bytes};

    ghost bytes = { λ file s. slot_bytes file (call_site_of s) };

    fn put(&self, file: FileKind, out: &mut Vec<u8>) -> Result<(), Memory> {
        put_slot_head(out, file, self)?;
        put_flag(out, self.always)?;
        put_register(out, self.result)?;
        put_all(&self.args, file, out)
    }
}

// An object's slot names its function and has a count of arguments, an image's has the count alone.
fn put_slot_head(out: &mut Vec<u8>, file: FileKind, slot: &Slot) -> Result<(), Memory>
    ensures written { OnOk result (out.new.items ≡ out.old.items ++ slot_head file (call_site_of slot.now)) }
{
    match file {
        FileKind::Object => {
            put_u32(out, slot.function)?;
            put_count_u8(out, slot.args.len())
        }
        FileKind::Image => put_u8(out, (slot.function % 256) as u8),
    }
}

impl Written for u16 {
    ghost use Rattle.byteorder.specs.Endian.{little_bytes};

    ghost bytes = { λ file n. little_bytes 2 n };

    fn put(&self, _file: FileKind, out: &mut Vec<u8>) -> Result<(), Memory> {
        put_u16(out, *self)
    }
}

impl Written for Guard {
    ghost use Rattle.vk_code_write.specs.Inner.Bytes.{guard_bytes};

    ghost bytes = { λ file g. guard_bytes g };

    fn put(&self, _file: FileKind, out: &mut Vec<u8>) -> Result<(), Memory> {
        put_u16(out, self.first)?;
        put_u16(out, self.second)
    }
}

impl Written for LoopSite {
    ghost use Rattle.vk_code.specs.Listing.{simd_site_of};
    ghost use Rattle.vk_code_write.specs.Inner.Bytes.{loop_bytes};

    ghost bytes = { λ file l. loop_bytes file (simd_site_of l) };

    fn put(&self, file: FileKind, out: &mut Vec<u8>) -> Result<(), Memory> {
        put_simdlen(out, self.simdlen)?;
        put_u16(out, self.low)?;
        put_u16(out, self.high)?;
        put_count_u16(out, self.captures.len())?;
        put_all(&self.captures, file, out)?;
        put_count_u16(out, self.guards.len())?;
        put_all(&self.guards, file, out)?;
        put_body(out, file, &self.body)
    }
}

fn put_body(out: &mut Vec<u8>, file: FileKind, body: &Body) -> Result<(), Memory>
    ensures written { OnOk result (out.new.items ≡ out.old.items ++ body_bytes (body_of body.now)) }
{
    match body {
        Body::Own(code) => put_routine(out, code),
        Body::Number(number) => put_u32(out, *number),
    }
}

// The code of a loop's body, which has no loops.
fn put_routine(out: &mut Vec<u8>, code: &Code) -> Result<(), Memory>
    ensures written { OnOk result (out.new.items ≡ out.old.items ++ routine_bytes (routine_of code.now)) }
{
    put_front(out, FileKind::Object, code)?;
    put_u16(out, 0)?;
    put_instrs(out, code)
}

impl Written for Code {
    ghost use Rattle.vk_code.specs.Listing.{listing_of};
    ghost use Rattle.vk_code_write.specs.Inner.Bytes.{code_bytes};

    ghost bytes = { λ file c. code_bytes file (listing_of c) };

    fn put(&self, file: FileKind, out: &mut Vec<u8>) -> Result<(), Memory> {
        put_front(out, file, self)?;
        put_loops(out, file, &self.loops)?;
        put_instrs(out, self)
    }
}

// Code up to its calls.
fn put_front(out: &mut Vec<u8>, file: FileKind, code: &Code) -> Result<(), Memory>
    ensures written { OnOk result (out.new.items ≡ out.old.items ++ front_bytes file (routine_of code.now)) }
{
    put_flag(out, code.lane_code)?;
    put_register(out, code.result)?;
    put_params(out, file, code.params)?;
    put_count_u16(out, code.regs.len())?;
    put_all(&code.regs, file, out)?;
    put_u16(out, code.masks)?;
    put_slots(out, file, &code.slots)
}

fn put_slots(out: &mut Vec<u8>, file: FileKind, slots: &[Slot]) -> Result<(), Memory>
    ensures written { OnOk result (out.new.items ≡ out.old.items ++ slots_bytes file (map call_site_of slots.now)) }
{
    put_count_u16(out, slots.len())?;
    put_all(slots, file, out)
}

fn put_loops(out: &mut Vec<u8>, file: FileKind, loops: &[LoopSite]) -> Result<(), Memory>
    ensures written { OnOk result (out.new.items ≡ out.old.items ++ loops_bytes file (map simd_site_of loops.now)) }
{
    put_count_u16(out, loops.len())?;
    put_all(loops, file, out)
}

// An image tells the number of parameters.
fn put_params(out: &mut Vec<u8>, file: FileKind, params: u16) -> Result<(), Memory>
    ensures written { OnOk result (out.new.items ≡ out.old.items ++ params_bytes file params) }
{
    match file {
        FileKind::Object => Ok(()),
        FileKind::Image => put_u16(out, params),
    }
}

fn put_instrs(out: &mut Vec<u8>, code: &Code) -> Result<(), Memory>
    ensures written { OnOk result (out.new.items ≡ out.old.items ++ instrs_bytes (routine_of code.now).instrs) }
{
    put_count_u32(out, code.instrs.len())?;
    put_all(&code.instrs, FileKind::Object, out)
}
