// The command sheet, exported to C. What a sheet is told passes as document 01's number, 0 where it is accepted, and
// the entry number, which is stored.
ghost use Rattle.std.specs.Prelude.{◌≡◌, length};
ghost use Rattle.sheet.specs.Table.{judged, told_by};
ghost use Rattle.bodies.specs.Body.{handed_back, handed_at};
ghost use Rattle.exported.specs.Passed.{told, RanAs};

use quad::QuadMixer;
use sheet::Refused;

// Document 01's number of what a sheet is told. The number of the entry that it comes with is stored.
fn tell(answer: Result<(), Refused>, entry_number: &mut u32) -> u32
    ensures { told result entry_number.new ≡ told_by answer }
{
    match answer {
        Ok(()) => {
            *entry_number = 0;
            0
        }
        Err(refused) => {
            *entry_number = refused.entry as u32;
            u8::from(refused.why) as u32
        }
    }
}

#[unsafe(no_mangle)]
pub extern "C" fn footspandle_sheet_check(sheet: &[u8], entry_number: &mut u32) -> u32
    ensures { told result entry_number.new ≡ judged sheet.now }
{
    tell(sheet::check(sheet), entry_number)
}

// The length of entry i's body, and at `at` where in the sheet it begins; 0 and 0 where the part is empty.
#[unsafe(no_mangle)]
pub extern "C" fn footspandle_sheet_body(sheet: &[u8], i: usize, at: &mut usize) -> usize
    ensures { (result ≡ length (handed_back sheet.now i)) × (at.new ≡ handed_at sheet.now i) }
{
    let place = bodies::place(sheet, i);
    *at = place.at;
    place.size
}

// A refused run writes nothing to the state.
#[unsafe(no_mangle)]
pub extern "C" fn footspandle_sheet_run_quad32(
    sheet: &[u8],
    state: &mut QuadMixer,
    out: &mut [u8],
    entry_number: &mut u32,
) -> u32
    ensures { RanAs sheet.now state.old out.old
        result entry_number.new state.new out.new }
{
    match sheet_run::run(sheet, *state, out) {
        Ok(after) => {
            *state = after;
            tell(Ok(()), entry_number)
        }
        Err(refused) => tell(Err(refused), entry_number),
    }
}
