// Bytes, and numbers of two and four bytes, little-endian, read from a lent slice and written to one, at any
// place. A byte past the end is read as 0. Bytes that do not all fit at their place are not written. (A slice and a
// place are two arguments, as C compares them: a type for both would be taken apart at once.)

#![tactic(auto)]

ghost use Rattle.std.specs.Prelude.{◌≡◌, ◌+◌, EachIndex, slice_index};
ghost use Rattle.wire.specs.Bytes.{bytes_of, read_at, write_at};

use std::array;

// The byte at a place, or 0 past the end.
pub fn byte(s: &[u8], at: usize) -> u8
    ensures { result ≡ read_at 1 s.now at }
{
    if at < s.len() { s[at] } else { 0 }
}

// The N bytes from a place on. A place past the largest usize is past the end too. (Where all of them are there, they
// are taken at once: byte by byte, a sheet is run more slowly.)
fn bytes<const N: usize>(s: &[u8], at: usize) -> [u8; N]
    ensures { EachIndex result (λ k. slice_index result k ≡ slice_index s.now (at + k)) }
{
    if let Some(bytes) = s.get(at..).unwrap_or(&[]).first_chunk() {
        return *bytes;
    }
    array::from_fn(|k| byte(s, at.saturating_add(k)))
}

// The two-byte number at a place.
pub fn read_u16(s: &[u8], at: usize) -> u16
    ensures { result ≡ read_at 2 s.now at }
{
    u16::from_le_bytes(bytes(s, at))
}

// The four-byte number at a place.
pub fn read_u32(s: &[u8], at: usize) -> u32
    ensures { result ≡ read_at 4 s.now at }
{
    u32::from_le_bytes(bytes(s, at))
}

// The bytes s at a place: for any place, since no sum is made before it is known to fit.
pub fn write(out: &mut [u8], at: usize, s: &[u8])
    ensures { out.new ≡ write_at out.old at s.now }
{
    if s.len() <= out.len() && at <= out.len() - s.len() {
        out[at..at + s.len()].copy_from_slice(s);
    }
}

// A number written as two bytes at a place.
pub fn write_u16(out: &mut [u8], at: usize, x: u16)
    ensures { out.new ≡ write_at out.old at (bytes_of 2 x) }
{
    write(out, at, &u16::to_le_bytes(x));
}

// A number written as four bytes at a place.
pub fn write_u32(out: &mut [u8], at: usize, x: u32)
    ensures { out.new ≡ write_at out.old at (bytes_of 4 x) }
{
    write(out, at, &u32::to_le_bytes(x));
}
