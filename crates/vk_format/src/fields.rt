// Numbers of fixed size: what a field says, and a field written at the end.

ghost use Rattle.std.specs.Prelude.{◌≡◌, ◌++◌, length, OnOk};
ghost use Rattle.byteorder.specs.Endian.{little_bytes, little_number};

use byteorder::{ByteOrder, LittleEndian};
use vk_memory::Memory;

/// The number of a field of one byte.
pub fn u8_of(field: &[u8]) -> u8
    requires width { length field.now ≡ 1 }
    ensures number { result ≡ little_number 1 field.now }
{
    field[0]
}

/// The number of a field of two bytes.
pub fn u16_of(field: &[u8]) -> u16
    requires width { length field.now ≡ 2 }
    ensures number { result ≡ little_number 2 field.now }
{
    LittleEndian::read_u16(field)
}

/// The number of a field of four bytes.
pub fn u32_of(field: &[u8]) -> u32
    requires width { length field.now ≡ 4 }
    ensures number { result ≡ little_number 4 field.now }
{
    LittleEndian::read_u32(field)
}

/// The number of a field of eight bytes.
pub fn u64_of(field: &[u8]) -> u64
    requires width { length field.now ≡ 8 }
    ensures number { result ≡ little_number 8 field.now }
{
    LittleEndian::read_u64(field)
}

/// Writes a number as one byte.
pub fn put_u8(out: &mut Vec<u8>, number: u8) -> Result<(), Memory>
    ensures written { OnOk result (out.new.items ≡ out.old.items ++ little_bytes 1 number) }
{
    out.push(number)?;
    Ok(())
}

/// Writes a number as two bytes.
pub fn put_u16(out: &mut Vec<u8>, number: u16) -> Result<(), Memory>
    ensures written { OnOk result (out.new.items ≡ out.old.items ++ little_bytes 2 number) }
{
    let mut field = [0; 2];
    LittleEndian::write_u16(&mut field, number);
    out.extend_from_slice(&field)?;
    Ok(())
}

/// Writes a number as four bytes.
pub fn put_u32(out: &mut Vec<u8>, number: u32) -> Result<(), Memory>
    ensures written { OnOk result (out.new.items ≡ out.old.items ++ little_bytes 4 number) }
{
    let mut field = [0; 4];
    LittleEndian::write_u32(&mut field, number);
    out.extend_from_slice(&field)?;
    Ok(())
}

/// Writes a number as eight bytes.
pub fn put_u64(out: &mut Vec<u8>, number: u64) -> Result<(), Memory>
    ensures written { OnOk result (out.new.items ≡ out.old.items ++ little_bytes 8 number) }
{
    let mut field = [0; 8];
    LittleEndian::write_u64(&mut field, number);
    out.extend_from_slice(&field)?;
    Ok(())
}

/// Writes a count as one byte.
pub fn put_count_u8(out: &mut Vec<u8>, count: usize) -> Result<(), Memory>
    ensures written { OnOk result (out.new.items ≡ out.old.items ++ little_bytes 1 count) }
{
    put_u8(out, (count % 256) as u8)
}

/// Writes a count as two bytes.
pub fn put_count_u16(out: &mut Vec<u8>, count: usize) -> Result<(), Memory>
    ensures written { OnOk result (out.new.items ≡ out.old.items ++ little_bytes 2 count) }
{
    put_u16(out, (count % 65536) as u16)
}

/// Writes a count as four bytes.
pub fn put_count_u32(out: &mut Vec<u8>, count: usize) -> Result<(), Memory>
    ensures written { OnOk result (out.new.items ≡ out.old.items ++ little_bytes 4 count) }
{
    put_u32(out, (count % 4294967296) as u32)
}
