// What `mixrun` prints for a sheet, as bytes: the whole program but for reading and writing.

#![tactic(auto)]

ghost use Rattle.lines.specs.Lines.{Written};
ghost use Rattle.report.specs.Report.{printed};

use lines::{TEXT, entry_lines, refused_line};
use quad::QuadMixer;
use sheet_run::run;

// Room for the answers of 64 entries, the most that a sheet has, so that it is never refused for a short output.
const ANSWERS: usize = 1280;

// Runs a sheet from a fresh state. The lines that are printed go to the start of the text, which is lent and no
// String, by the project's rule of no heap and fixed memory; answers how many bytes they are.
pub fn text_of(sheet: &[u8], text: &mut [u8; TEXT]) -> usize
    ensures { Written (printed sheet.now) text.old text.new result }
{
    let mut answers = [0u8; ANSWERS];
    match run(sheet, QuadMixer::new(), &mut answers) {
        Ok(_) => entry_lines(sheet, &answers, text),
        Err(refused) => refused_line(refused.why.into(), refused.entry, text),
    }
}
