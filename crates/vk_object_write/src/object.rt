// The bytes of an object.

ghost use Rattle.std.specs.Prelude.{◌≡◌, ◌++◌, IfOk, OnOk};
ghost use Rattle.vk_object_format.specs.Object.{object_bytes};
ghost use Rattle.vk_object_write.specs.Lists.{object_lists};
ghost use Rattle.vk_object_write.specs.Inner.Bytes.{header_bytes, lists_bytes, magic_bytes};

use crate::functions::put_functions;
use crate::symbols::{put_objects, put_symbols};
use std::alloc::Global;
use vk_code_write::parts::put_target;
use vk_format::fields::put_u8;
use vk_kinds::Target;
use vk_memory::Memory;
use vk_object::Object;

/// The bytes of an object: the one text that the table of its fields gives it.
pub fn write_object(alloc: Global, object: &Object) -> Result<Vec<u8>, Memory>
    ensures bytes { IfOk result (λ bytes. bytes.items ≡ object_bytes (object_lists object.now)) }
{
    let mut out = Vec::new(alloc);
    put_lists(&mut out, object)?;
    Ok(out)
}

fn put_lists(out: &mut Vec<u8>, object: &Object) -> Result<(), Memory>
    ensures written { OnOk result (out.new.items ≡ out.old.items ++ lists_bytes (object_lists object.now)) }
{
    put_header(out, object.target)?;
    put_symbols(out, &object.symbols)?;
    put_objects(out, &object.objects)?;
    put_functions(out, &object.functions)
}

// The first bytes, the version, the target and a byte 0.
fn put_header(out: &mut Vec<u8>, target: Target) -> Result<(), Memory>
    ensures written { OnOk result (out.new.items ≡ out.old.items ++ header_bytes target) }
{
    put_magic(out)?;
    put_target(out, target)?;
    put_u8(out, 0)
}

// The first bytes and the version.
#[tactic(auto, unfolding(crate::specs::Inner::Bytes::magic_bytes))]
fn put_magic(out: &mut Vec<u8>) -> Result<(), Memory>
    ensures written { OnOk result (out.new.items ≡ out.old.items ++ magic_bytes) }
{
    out.extend_from_slice(b"VKOBJECT\x01\x00")?;
    Ok(())
}
