// Functions, their directives and codes.

ghost use Rattle.std.specs.Prelude.{◌≡◌, ◌++◌, map, Some, OnOk};
ghost use Rattle.std.specs.List.{flat_map};
ghost use Rattle.std.specs.Option.{option_map};
ghost use Rattle.byteorder.specs.Endian.{little_bytes};
ghost use Rattle.vk_kinds.specs.Sizes.{head_types, signature_tree};
ghost use Rattle.vk_object.specs.Objects.{code_list_of, function_list_of};
ghost use Rattle.vk_object_format.specs.Object.{branch_number};
ghost use Rattle.vk_object_write.specs.Inner.Bytes.{codes_bytes, directive_bytes, directives_bytes, function_bytes, functions_bytes, head_bytes};
ghost use Rattle.vk_code.specs.Listing.{listing_of};
ghost use Rattle.vk_code_write.specs.Inner.Bytes.{code_bytes};
ghost use Rattle.vk_code_write.specs.declared.written.FileKind.TheVariants.{Object};

use vk_code::Code;
use vk_code_write::parts::{put_flag, put_simdlen};
use vk_code_write::{FileKind, Written, put_all};
use vk_format::fields::{put_count_u8, put_count_u16, put_count_u32, put_u8, put_u32};
use vk_kinds::{Branch, Head, Signature};
use vk_memory::Memory;
use vk_object::{Codes, FunctionRow};

/// Writes functions.
pub(crate) fn put_functions(out: &mut Vec<u8>, functions: &[FunctionRow]) -> Result<(), Memory>
    ensures written { OnOk result (out.new.items ≡ out.old.items ++ functions_bytes (map function_list_of functions.now)) }
{
    put_count_u32(out, functions.len())?;
    put_each_function(out, functions)
}

fn put_each_function(out: &mut Vec<u8>, functions: &[FunctionRow]) -> Result<(), Memory>
    ensures written { OnOk result (out.new.items ≡ out.old.items ++ flat_map (λ f. function_bytes (function_list_of f)) functions.now) }
{
    for function in functions {
        put_function(out, function)?;
    }
    Ok(())
}

fn put_function(out: &mut Vec<u8>, function: &FunctionRow) -> Result<(), Memory>
    ensures written { OnOk result (out.new.items ≡ out.old.items ++ function_bytes (function_list_of function.now)) }
{
    put_u32(out, function.symbol)?;
    put_head(out, &function.head)?;
    put_directives(out, &function.directives)?;
    put_codes(out, &function.codes)
}

fn put_head(out: &mut Vec<u8>, head: &Head) -> Result<(), Memory>
    ensures written { OnOk result (out.new.items ≡ out.old.items ++ head_bytes (head_types head.now)) }
{
    put_u8(out, u8::from(head.result))?;
    put_count_u8(out, head.params.len())?;
    put_all(head.params.as_slice(), FileKind::Object, out)
}

fn put_directives(out: &mut Vec<u8>, directives: &[Signature]) -> Result<(), Memory>
    ensures written { OnOk result (out.new.items ≡ out.old.items ++ directives_bytes (map signature_tree directives.now)) }
{
    put_count_u16(out, directives.len())?;
    put_each_directive(out, directives)
}

fn put_each_directive(out: &mut Vec<u8>, directives: &[Signature]) -> Result<(), Memory>
    ensures written { OnOk result (out.new.items ≡ out.old.items ++ flat_map (λ s. directive_bytes (signature_tree s)) directives.now) }
{
    for directive in directives {
        put_directive(out, directive)?;
    }
    Ok(())
}

fn put_directive(out: &mut Vec<u8>, directive: &Signature) -> Result<(), Memory>
    ensures written { OnOk result (out.new.items ≡ out.old.items ++ directive_bytes (signature_tree directive.now)) }
{
    put_branch(out, directive.branch)?;
    put_simdlen(out, directive.simdlen)?;
    put_all(directive.params.as_slice(), FileKind::Object, out)
}

fn put_branch(out: &mut Vec<u8>, branch: Branch) -> Result<(), Memory>
    ensures written { OnOk result (out.new.items ≡ out.old.items ++ little_bytes 1 (branch_number branch)) }
{
    match branch {
        Branch::Both => put_u8(out, 0),
        Branch::Inside => put_u8(out, 1),
        Branch::Outside => put_u8(out, 2),
    }
}

// Whether there are codes, and the codes.
fn put_codes(out: &mut Vec<u8>, codes: &Option<Codes>) -> Result<(), Memory>
    ensures written { OnOk result (out.new.items ≡ out.old.items ++ codes_bytes (option_map code_list_of codes.now)) }
{
    match codes {
        None => put_flag(out, false),
        Some(codes) => put_all_codes(out, codes),
    }
}

fn put_all_codes(out: &mut Vec<u8>, codes: &Codes) -> Result<(), Memory>
    ensures written { OnOk result (out.new.items ≡ out.old.items ++ codes_bytes (Some (code_list_of codes.now))) }
{
    put_flag(out, true)?;
    codes.scalar.put(FileKind::Object, out)?;
    put_lanes(out, &codes.lanes)
}

fn put_lanes(out: &mut Vec<u8>, lanes: &[Code]) -> Result<(), Memory>
    ensures written { OnOk result (out.new.items ≡ out.old.items ++ flat_map (code_bytes Object) (map listing_of lanes.now)) }
{
    put_all(lanes, FileKind::Object, out)
}
