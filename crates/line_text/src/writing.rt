// Writing words and numbers.
ghost use Rattle.std.specs.Prelude.{◌≡◌, ◌++◌, OnErr, OnOk, decimal};

use dg_base::OutOfMemory;
use itoa::Buffer;

/// Appends the bytes, or for want of memory nothing.
pub fn put(out: &mut Vec<u8>, bytes: &[u8]) -> Result<(), OutOfMemory>
    ensures appended { OnOk result (out.new.items ≡ out.old.items ++ bytes.now) }
    ensures kept { OnErr result (out.new.items ≡ out.old.items) }
{
    out.extend_from_slice(bytes)?;
    Ok(())
}

/// Appends the number in decimal digits, or for want of memory nothing.
pub fn put_number(out: &mut Vec<u8>, n: u32) -> Result<(), OutOfMemory>
    ensures appended { OnOk result (out.new.items ≡ out.old.items ++ decimal n) }
    ensures kept { OnErr result (out.new.items ≡ out.old.items) }
{
    let mut buffer = Buffer::new();
    put(out, buffer.format(n).as_bytes())
}
