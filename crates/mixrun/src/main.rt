// Reads a command sheet from standard input, runs it from a fresh state, and prints a line for each entry, or one line
// where the sheet is refused.
//
// Everything but reading and writing is `report::text_of`, whose contract says what each byte is. `streams` reads and
// the kit's `io` writes, over the C library's two calls, which are all that is assumed. Reading stops at the end or
// at an error, and the bytes until then are the sheet. An output that cannot be written ends the program, and a pipe
// that nobody reads any more ends it by the system's signal.

#![tactic(auto)]

use lines::TEXT;
use report::text_of;
use streams::{STDOUT_FILENO, read};

fn main() {
    let mut input = [0; 2048];
    let mut text = [0; TEXT];
    let size = text_of(read(&mut input), &mut text);
    io::write_all(STDOUT_FILENO, &text[..size]);
}
