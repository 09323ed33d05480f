// The code that rows stand for.

ghost use Rattle.std.specs.Prelude.{◌≡◌, map, length, IfOk};
ghost use Rattle.vk_code.specs.Listing.{body_of, call_site_of, listing_of, routine_of, simd_site_of};
ghost use Rattle.vk_code_format.specs.Parameters.{signed};
ghost use Rattle.vk_code_rows.specs.Made.{made_arg, made_body, made_call, made_listing, made_routine, made_shape, made_site};

use std::alloc::Global;
use vk_code::{Body, Code, Guard, LoopSite, Shape, Slot, SlotArg};
use vk_code_format::{ArgRow, BodyRow, CodeRow, LoopRow, RoutineRow, ShapeKind, SlotRow};
use vk_memory::Memory;

// The number of 32 bits in two's complement.
fn signed(bits: u32) -> i32
    ensures { result ≡ signed bits }
{
    if bits < 2147483648 {
        bits as i32
    } else {
        -((u32::MAX - bits) as i32) - 1
    }
}

fn shape_of(kind: ShapeKind, value: u32) -> Shape
    ensures { result ≡ made_shape kind value }
{
    match kind {
        ShapeKind::Vector => Shape::Vector,
        ShapeKind::Uniform => Shape::Uniform,
        ShapeKind::By => Shape::By(signed(value)),
        ShapeKind::Along => Shape::Along((value % 256) as u8),
        ShapeKind::Literal => Shape::Literal(signed(value)),
        ShapeKind::Same => Shape::Same((value % 256) as u8),
    }
}

fn arg_of(row: ArgRow) -> SlotArg
    ensures { result ≡ made_arg row }
{
    SlotArg {
        reg: row.reg,
        shape: shape_of(row.kind, row.value),
    }
}

fn args_of(alloc: Global, rows: &[ArgRow]) -> Result<Vec<SlotArg>, Memory>
    ensures { IfOk result (λ args. args.items ≡ map made_arg rows.now) }
{
    let mut args = Vec::new(alloc);
    for row in rows {
        args.push(arg_of(*row))?;
    }
    Ok(args)
}

fn slot_of(alloc: Global, row: &SlotRow) -> Result<Slot, Memory>
    ensures { IfOk result (λ slot. call_site_of slot ≡ made_call row.now) }
{
    let args = args_of(alloc, row.args.as_slice())?;
    Ok(Slot {
        function: row.function,
        always: row.always,
        result: row.result,
        args,
    })
}

fn slots_of(alloc: Global, rows: &[SlotRow]) -> Result<Vec<Slot>, Memory>
    ensures { IfOk result (λ slots. map call_site_of slots.items ≡ map made_call rows.now) }
{
    let mut slots = Vec::new(alloc);
    for row in rows {
        slots.push(slot_of(alloc, row)?)?;
    }
    Ok(slots)
}

// The code of a row with these loops.
fn routine_of(alloc: Global, row: &RoutineRow, loops: Vec<LoopSite>) -> Result<Code, Memory>
    ensures { IfOk result (λ code. listing_of code ≡ record {
      routine = made_routine row.now (length loops.items);
      loops = map simd_site_of loops.items;
    }) }
{
    let regs = Vec::from_slice(alloc, row.front.regs.as_slice())?;
    let slots = slots_of(alloc, row.front.slots.as_slice())?;
    let instrs = Vec::from_slice(alloc, row.instrs.as_slice())?;
    Ok(Code {
        lane_code: row.front.lane_code,
        params: u16::try_from(row.front.params).unwrap_or(u16::MAX),
        result: row.front.result,
        regs,
        masks: row.front.masks,
        slots,
        loops,
        instrs,
    })
}

fn body_of(alloc: Global, row: &BodyRow) -> Result<Body, Memory>
    ensures { IfOk result (λ body. body_of body ≡ made_body row.now) }
{
    match row {
        BodyRow::Inline(row) => {
            let code = routine_of(alloc, row, Vec::new(alloc))?;
            Ok(Body::Own(Box::new(alloc, code)?))
        }
        BodyRow::Number(number) => Ok(Body::Number(*number)),
    }
}

fn site_of(alloc: Global, row: &LoopRow) -> Result<LoopSite, Memory>
    ensures { IfOk result (λ site. simd_site_of site ≡ made_site row.now) }
{
    let captures = Vec::from_slice(alloc, row.captures.as_slice())?;
    let guards: Vec<Guard> = Vec::from_slice(alloc, row.guards.as_slice())?;
    let body = body_of(alloc, &row.body)?;
    Ok(LoopSite {
        simdlen: row.simdlen,
        low: row.low,
        high: row.high,
        captures,
        guards,
        body,
    })
}

fn sites_of(alloc: Global, rows: &[LoopRow]) -> Result<Vec<LoopSite>, Memory>
    ensures { IfOk result (λ sites. map simd_site_of sites.items ≡ map made_site rows.now) }
{
    let mut sites = Vec::new(alloc);
    for row in rows {
        sites.push(site_of(alloc, row)?)?;
    }
    Ok(sites)
}

/// The code that the row stands for, where code can hold its numbers.
pub fn code_of(alloc: Global, row: &CodeRow) -> Result<Code, Memory>
    ensures { IfOk result (λ code. listing_of code ≡ made_listing row.now) }
{
    let loops = sites_of(alloc, row.loops.as_slice())?;
    routine_of(alloc, &row.routine, loops)
}
