// Standard input and output, as every program here has them: over the kit's `io`, whose only axioms are the C library's
// two calls. (The standard library's printing asks for the system's error number besides, and begins again where a
// signal cut it short.) What cannot be written is left out, piece by piece, and a program goes on.

#![tactic(auto)]

ghost use Rattle.std.specs.Prelude.{◌≤◌, length, Some};
ghost use Rattle.text.specs.Digits.{hex_of};

use std::fmt;
use text::write_hex;

// The number of standard input.
const STDIN_FILENO: i32 = 0;

// The number of standard output. What is bytes and not text, `io::write_all` writes there.
pub const STDOUT_FILENO: i32 = 1;

// (The room is lent, and of a fixed length: no program here has a heap.)
// Reads until the room is full, the input ends or a read fails, and hands back what was read, the room's first part.
pub fn read<const ROOM: usize>(room: &mut [u8; ROOM]) -> &[u8]
    ensures { length result.now ≤ ROOM }
{
    let count = io::read_full(STDIN_FILENO, room);
    &room[..count]
}

// Standard output, for text: one `write!` or `writeln!` a line, of which each piece is a write of its own. After one
// that fails the next is tried.
#[derive(Clone, Copy)]
pub struct Stdout;

// No clause says what is written: `io::write_all` promises nothing, since nothing is assumed of the system's call.
impl fmt::Write for Stdout {
    fn write_str(&mut self, text: &str) -> fmt::Result {
        io::write_all(STDOUT_FILENO, text.as_bytes());
        Ok(())
    }
}

// A word as eight hex digits: one piece, where `{:08x}` would be two, the zeros in front and the digits.
#[derive(Clone, Copy)]
pub struct Word(pub u32);

impl fmt::Display for Word {
    ghost output = { λ word. Some (hex_of word.0) };

    fn fmt<W: fmt::Write>(&self, f: &mut fmt::Formatter<W>) -> fmt::Result {
        let mut digits = [0; 8];
        write_hex(&mut digits, 0, self.0);
        match str::from_utf8(&digits) {
            Ok(text) => f.write_str(text),
            Err(_) => Err(fmt::Error),
        }
    }
}
