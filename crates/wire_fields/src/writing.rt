//! Fields that are put behind others.

ghost use Rattle.std.specs.Prelude.{◌≡◌, ◌+◌, ◌≤◌, ◌++◌, length};
ghost use Rattle.arrayvec.specs.ArrayVec.{array_vec_len};
ghost use Rattle.byteorder.specs.Endian.{big_bytes};

use arrayvec::ArrayVec;
use byteorder::{BigEndian, ByteOrder};

/// Puts bytes behind those that are there.
pub fn put<const N: usize>(out: &mut ArrayVec<u8, N>, bytes: &[u8])
    requires { array_vec_len out.old + length bytes.now ≤ N }
    ensures { out.new.items ≡ out.old.items ++ bytes.now }
{
    out.try_extend_from_slice(bytes).unwrap();
}

/// Puts a number's two bytes behind those that are there.
pub fn put_number16<const N: usize>(out: &mut ArrayVec<u8, N>, number: u16)
    requires { array_vec_len out.old + 2 ≤ N }
    ensures { out.new.items ≡ out.old.items ++ big_bytes 2 number }
{
    let mut bytes = [0; 2];
    BigEndian::write_u16(&mut bytes, number);
    put(out, &bytes);
}

/// Puts a number's four bytes behind those that are there.
pub fn put_number32<const N: usize>(out: &mut ArrayVec<u8, N>, number: u32)
    requires { array_vec_len out.old + 4 ≤ N }
    ensures { out.new.items ≡ out.old.items ++ big_bytes 4 number }
{
    let mut bytes = [0; 4];
    BigEndian::write_u32(&mut bytes, number);
    put(out, &bytes);
}
