//! Puts fields behind bytes.
ghost use Rattle.std.specs.Prelude.{◌≡◌, ◌++◌, OnOk, OnErr};
ghost use Rattle.byteorder.specs.Endian.{big_bytes};
ghost use Rattle.hse_fields.specs.Fields.{joined};

use hse_io::NoMemory;

/// Puts a byte behind the others. Out of memory, all stay as they were.
pub fn put_u8(into: &mut Vec<u8>, number: u8) -> Result<(), NoMemory>
    ensures written { OnOk result (into.new.items ≡ into.old.items ++ big_bytes 1 number) }
    ensures unchanged { OnErr result (into.new.items ≡ into.old.items) }
{
    put_bytes(into, &[number])
}

/// Puts the two bytes of a number behind the others, the highest first. Out of memory, all
/// stay as they were.
pub fn put_u16(into: &mut Vec<u8>, number: u16) -> Result<(), NoMemory>
    ensures written { OnOk result (into.new.items ≡ into.old.items ++ big_bytes 2 number) }
    ensures unchanged { OnErr result (into.new.items ≡ into.old.items) }
{
    put_bytes(into, &number.to_be_bytes())
}

/// Puts the four bytes of a number behind the others, the highest first. Out of memory, all
/// stay as they were.
pub fn put_u32(into: &mut Vec<u8>, number: u32) -> Result<(), NoMemory>
    ensures written { OnOk result (into.new.items ≡ into.old.items ++ big_bytes 4 number) }
    ensures unchanged { OnErr result (into.new.items ≡ into.old.items) }
{
    put_bytes(into, &number.to_be_bytes())
}

/// Puts the eight bytes of a number behind the others, the highest first. Out of memory, all
/// stay as they were.
pub fn put_u64(into: &mut Vec<u8>, number: u64) -> Result<(), NoMemory>
    ensures written { OnOk result (into.new.items ≡ into.old.items ++ big_bytes 8 number) }
    ensures unchanged { OnErr result (into.new.items ≡ into.old.items) }
{
    put_bytes(into, &number.to_be_bytes())
}

/// Puts bytes behind the others. Out of memory, all stay as they were.
pub fn put_bytes(into: &mut Vec<u8>, bytes: &[u8]) -> Result<(), NoMemory>
    ensures written { OnOk result (into.new.items ≡ into.old.items ++ bytes.now) }
    ensures unchanged { OnErr result (into.new.items ≡ into.old.items) }
{
    into.extend_from_slice(bytes)?;
    Ok(())
}

/// Puts pieces behind the others, one after another: all of them or, out of memory, none.
pub fn put_pieces(into: &mut Vec<u8>, pieces: &[&[u8]]) -> Result<(), NoMemory>
    ensures written { OnOk result (into.new.items ≡ into.old.items ++ joined pieces.now) }
    ensures unchanged { OnErr result (into.new.items ≡ into.old.items) }
{
    let start = into.len();
    for piece in pieces {
        if let Err(_) = into.extend_from_slice(piece) {
            into.truncate(start);
            return Err(NoMemory);
        }
    }
    Ok(())
}
