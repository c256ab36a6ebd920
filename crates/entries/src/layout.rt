// Where the numbers of a sheet stand: version, count and length first, then four bytes for each entry, then the bodies.
// Entry numbers are bytes, as the count is.
ghost use Rattle.std.specs.Prelude.{◌≡◌};
ghost use Rattle.entries.specs.Layout.{version_of, count_of, length_field, entry_at, kind_of};
ghost use Rattle.entries.specs.Layout.{rotor_of, offset_of, body_size, number_in};

use bits::float_of;
use wire::{byte, read_u16, read_u32};

// How many bytes an answer takes in the output: four motors and the recorded scale.
pub const ANSWER: usize = 20;

pub fn version(sheet: &[u8]) -> u8
    ensures { result ≡ version_of sheet.now }
{
    byte(sheet, 0)
}

pub fn count(sheet: &[u8]) -> u8
    ensures { result ≡ count_of sheet.now }
{
    byte(sheet, 1)
}

pub fn length_field(sheet: &[u8]) -> u16
    ensures { result ≡ length_field sheet.now }
{
    read_u16(sheet, 2)
}

// Where entry i stands; of the count, where the contents end and the bodies begin.
pub fn entry_at(i: u8) -> usize
    ensures { result ≡ entry_at i }
{
    4 + 4 * (i as usize)
}

// How many bytes the body of a kind has: four numbers, and a floor except for plain.
#[tactic(auto, unfolding(crate::specs::Layout::body_size))]
pub fn body_size(kind: u8) -> usize
    ensures { result ≡ body_size kind }
{
    match kind {
        0 => 16,
        1..=255 => 20,
    }
}

// An entry of a sheet, by its number, which need not be under the count.
#[derive(Clone, Copy)]
pub struct Entry<'a> {
    pub sheet: &'a [u8],
    pub number: u8,
}

impl<'a> Entry<'a> {
    pub fn kind(&self) -> u8
        ensures { result ≡ kind_of self.now.sheet.now self.now.number }
    {
        byte(self.sheet, entry_at(self.number))
    }

    pub fn rotor(&self) -> u8
        ensures { result ≡ rotor_of self.now.sheet.now self.now.number }
    {
        byte(self.sheet, entry_at(self.number) + 1)
    }

    pub fn offset(&self) -> u16
        ensures { result ≡ offset_of self.now.sheet.now self.now.number }
    {
        read_u16(self.sheet, entry_at(self.number) + 2)
    }

    // Float j of the body, which begins at the offset: thrust, roll, pitch, yaw and floor are 0 to 4, a place and no
    // kind.
    #[tactic(auto, unfolding(crate::specs::Layout::number_in))]
    pub fn float(&self, j: u8) -> f32
        ensures { result ≡ number_in self.now.sheet.now self.now.number j }
    {
        float_of(read_u32(self.sheet, self.offset() as usize + 4 * (j as usize)))
    }
}
