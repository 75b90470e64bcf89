//! What an erase does to the array.

ghost use Rattle.std.specs.Prelude.{◌≡◌, ◌≤◌, ◌+◌, length, replicate};
ghost use Rattle.nor_base.specs.Effect.{erased};

/// FFh over so many bytes, from a place on.
pub fn fill_block(array: &mut [u8], from: usize, size: usize)
    requires { from + size ≤ length array.old }
    ensures { array.new ≡ erased from size array.old }
{
    fill_erased(&mut array[from..from + size]);
}

/// FFh in each byte.
fn fill_erased(bytes: &mut [u8])
    ensures { bytes.new ≡ replicate (length bytes.old) 255 }
{
    bytes.fill(0xFF);
}
