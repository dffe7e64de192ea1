// Numbers of 1, 2 and 4 bytes put into a slice of as many, the most significant byte first. 01, "Job commands": "operands of fixed width,
// big-endian"; 02, No. 2.
#![tactic(auto)]

ghost use Rattle.std.specs.Prelude.{◌≡◌, ◌≤◌, length};
ghost use Rattle.layout.specs.Number.{bits32};
ghost use Rattle.numbers.specs.BigEndian.{big_endian};

// The last N bytes of a number, in a slice of as many.
pub fn put<const N: usize>(bytes: &mut [u8], value: u32)
    requires room { length bytes.old ≡ N }
    requires width { N ≤ 4 }
    ensures { bytes.new ≡ big_endian N value }
{
    bytes.copy_from_slice(&value.to_be_bytes()[4 - N..]);
}

// The four bytes of an i32.
pub fn put_signed(bytes: &mut [u8], value: i32)
    requires { length bytes.old ≡ 4 }
    ensures { bytes.new ≡ big_endian 4 (bits32 value) }
{
    put::<4>(bytes, value.cast_unsigned());
}
