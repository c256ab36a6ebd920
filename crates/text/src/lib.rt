// Numbers as text, in lent bytes at any place. What does not fit at its place is not written.
//
// The digits are made by the kit's crate io, whose contracts say which they are; here they get their place in a line.
// (No `write!`: it may answer an Err, and says nothing of the bytes then, where these functions cannot fail.)

#![tactic(auto)]

ghost use Rattle.std.specs.Prelude.{◌≡◌, ◌≤◌, length};
ghost use Rattle.wire.specs.Bytes.{write_at};
ghost use Rattle.text.specs.Digits.{hex_of, decimal_of};

use wire::write;

// A float's bits as eight lower-case hex digits at a place.
pub fn write_hex(out: &mut [u8], at: usize, bits: u32)
    ensures { out.new ≡ write_at out.old at (hex_of bits) }
{
    let mut digits = [0u8; 16];
    let eight = io::hex(bits as u64, 8, &mut digits);
    write(out, at, &digits[..eight]);
}

// A number's decimal digits at a place. Answers how many they are, whether they fit there or not.
pub fn write_decimal(out: &mut [u8], at: usize, n: u64) -> usize
    ensures { (out.new ≡ write_at out.old at (decimal_of n)) × (result ≡ length (decimal_of n)) × (result ≤ 20) }
{
    let mut digits = [0u8; 20];
    let count = io::decimal(n, &mut digits);
    write(out, at, &digits[..count]);
    count
}
