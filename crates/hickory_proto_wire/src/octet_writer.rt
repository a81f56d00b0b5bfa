//! Numbers and strings as octets (RFC 1035, sections 2.3.2 and 3.3).
ghost use Rattle.std.specs.Prelude.{◌≡◌, ◌++◌, ◌∷◌, [], ◌<◌, ◌/◌, ◌%◌, length, OnOk};
ghost use Rattle.hickory_proto_wire.specs.Writing.{counted, u16_octets};
ghost use Rattle.hickory_proto_wire.specs.Written.{u32_octets};

use std::alloc::AllocError;

// A number of 16 bits.
pub(crate) fn put_u16(out: &mut Vec<u8>, number: u16) -> Result<(), AllocError>
    ensures { OnOk result (out.new.items ≡ out.old.items ++ u16_octets number) }
{
    out.push((number / 256) as u8)?;
    out.push((number % 256) as u8)?;
    Ok(())
}

// A number of 32 bits.
pub(crate) fn put_u32(out: &mut Vec<u8>, number: u32) -> Result<(), AllocError>
    ensures { OnOk result (out.new.items ≡ out.old.items ++ u32_octets number) }
{
    put_u16(out, (number / 65536) as u16)?;
    put_u16(out, (number % 65536) as u16)?;
    Ok(())
}

// A string behind its length.
pub(crate) fn put_string(out: &mut Vec<u8>, octets: &[u8]) -> Result<(), AllocError>
    requires { length octets.now < 256 }
    ensures { OnOk result (out.new.items ≡ out.old.items ++ counted octets.now) }
{
    out.push(octets.len() as u8)?;
    out.extend_from_slice(octets)?;
    Ok(())
}
