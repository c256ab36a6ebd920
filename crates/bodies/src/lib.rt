// The body of an entry of a command sheet, which is a part of the sheet.

#![tactic(auto)]

ghost use Rattle.std.specs.Prelude.{◌≡◌};
ghost use Rattle.bodies.specs.Body.{Handed};
ghost use Rattle.bodies.specs.Place.{place_of};

use entries::layout::{Entry, body_size, count};
use sheet::check;

// A part of a sheet: where it begins, and how many bytes it has. (C is handed these two numbers: decision 63.)
#[derive(Clone, Copy)]
pub struct Part {
    pub at: usize,
    pub size: usize,
}

// Where the body of entry i stands; an empty part at the start for a refused sheet and for an entry that it does not
// have.
pub fn place(sheet: &[u8], i: usize) -> Part
    ensures { result ≡ place_of sheet.now i }
{
    let Ok(()) = check(sheet) else {
        return Part { at: 0, size: 0 };
    };
    if i >= count(sheet) as usize {
        return Part { at: 0, size: 0 };
    }
    let entry = Entry {
        sheet,
        number: i as u8,
    };
    Part {
        at: entry.offset() as usize,
        size: body_size(entry.kind()),
    }
}

// The body of entry i, as that part of the sheet; an empty part for a refused sheet and for an entry that it does not
// have.
pub fn body(sheet: &[u8], i: usize) -> &[u8]
    ensures { Handed sheet.entry i result }
{
    let part = place(sheet, i);
    let at = part.at;
    let end = at + part.size;
    &sheet[at..end]
}
