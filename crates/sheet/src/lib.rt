// The command sheet as a whole: whether it is accepted.

#![tactic(auto)]

ghost use Rattle.std.specs.Prelude.{◌≡◌};
ghost use Rattle.entries.specs.Layout.{count_of};
ghost use Rattle.sheet.specs.Table.{entry_told, entries_told, judged, of_sheet, told_by};

use entries::choice::choose;
use entries::layout::{Entry, body_size, count, entry_at, length_field, version};
use entries::refusal::Refusal;

// Why a sheet is refused, and at which entry.
#[derive(Debug, Clone, Copy, PartialEq, Eq)]
pub struct Refused {
    pub why: Refusal,
    pub entry: u8,
}

// Refusals that are about no entry come with 0.
impl From<Refusal> for Refused {
    ghost from_gives = { λ why refused. refused ≡ of_sheet why };

    fn from(why: Refusal) -> Refused {
        Refused { why, entry: 0 }
    }
}

// How many entries a sheet may have.
const MAX_ENTRIES: u8 = 64;

// Whether a sheet is accepted: refusals 1 to 8, the first that applies. (Inlined: an answer that is handed over in
// memory is a part of what a short sheet's check takes.)
#[inline(always)]
pub fn check(sheet: &[u8]) -> Result<(), Refused>
    ensures { told_by result ≡ judged sheet.now }
{
    if sheet.len() < 4 {
        return Err(Refusal::TooShort.into());
    }
    if version(sheet) != 1 {
        return Err(Refusal::BadVersion.into());
    }
    if count(sheet) > MAX_ENTRIES {
        return Err(Refusal::TooMany.into());
    }
    if length_field(sheet) as usize != sheet.len() {
        return Err(Refusal::BadLength.into());
    }
    if sheet.len() < entry_at(count(sheet)) {
        return Err(Refusal::BadLength.into());
    }
    check_entries(sheet)
}

// The entries in their order, then the end of the last body.
fn check_entries(sheet: &[u8]) -> Result<(), Refused>
    ensures { told_by result ≡ entries_told sheet.now 0 (count_of sheet.now) }
{
    let k = count(sheet);
    let mut end = entry_at(k);
    for number in 0..k {
        let entry = Entry { sheet, number };
        // (Not by `?`: document 01 asks for `let .. else` here.)
        let checked = check_entry(&entry, end);
        let Ok(()) = checked else {
            return checked;
        };
        end += body_size(entry.kind());
    }
    if end == sheet.len() {
        return Ok(());
    }
    Err(Refusal::BadEnd.into())
}

// An entry, where the body before it ends at `end`: refusals 5 to 7, the first that applies. It reads the entry's four
// bytes, and none of the numbers of its body.
fn check_entry(entry: &Entry, end: usize) -> Result<(), Refused>
    ensures { told_by result ≡ entry_told entry.now.sheet.now entry.now.number end }
{
    match choose(entry.kind(), entry.rotor()) {
        Err(why) => Err(Refused {
            why,
            entry: entry.number,
        }),
        Ok(_) if entry.offset() as usize != end => Err(Refused {
            why: Refusal::BadOffset,
            entry: entry.number,
        }),
        Ok(_) => Ok(()),
    }
}
