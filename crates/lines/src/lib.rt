// The lines that `mixrun` prints, written into lent bytes: a line for each entry of a sheet that was run, or the one
// line of a refusal.
//
// The answers are the bytes that the run wrote, 20 for each entry. Sheet and answers are taken as they are: a byte past
// an end is read as 0.

#![tactic(auto)]

ghost use Rattle.std.specs.Prelude.{◌∷◌, ◌++◌, ◌+◌, ◌*◌, ◌≤◌, length};
ghost use Rattle.entries.specs.Layout.{kind_of, answer_size};
ghost use Rattle.text.specs.Digits.{decimal_of};
ghost use Rattle.lines.specs.Lines.{word_at, line_of, lines_of, refused_line, text_size, Written, Put};

use entries::layout::{ANSWER, Entry, count};
use wire::read_u32;

// Room for 255 lines of 53 bytes, so that no count of a sheet is too much. An entry number and a kind are bytes, of
// three digits at most, and each of the five floats has a space and eight digits: 3 + 1 + 3 + 5 * 9 and the LF.
pub const TEXT: usize = 13515;

// The text, and the place in it that was reached. Its methods write a part of what is printed at that place, where it
// has to fit, and go on to the place after it. (No `write!`: it may answer an Err, and says nothing of the text then,
// where these functions cannot fail. No String: no heap and fixed memory are a rule of the project. No invariant for
// the room: each part asks for its own.)
#[derive(Drop)]
struct Page<'a> {
    text: &'a mut [u8; TEXT],
    at: usize,
}

impl<'a> Page<'a> {
    // Bytes as they are.
    fn put(&mut self, part: &[u8])
        requires { self.old.at + length part.now ≤ text_size }
        ensures { Put (length part.now) part.now self.old self.new }
    {
        let at = self.at;
        wire::write(self.text, at, part);
        self.at += part.len();
    }

    // The digits of a byte.
    fn put_decimal(&mut self, n: u8)
        requires { self.old.at + 3 ≤ text_size }
        ensures { Put 3 (decimal_of n) self.old self.new }
    {
        let at = self.at;
        self.at += text::write_decimal(self.text, at, n as u64);
    }

    // A space, and the bits of number j of entry i: the motors are 0 to 3, and the scale is 4.
    fn put_word(&mut self, answers: &[u8], i: u8, j: u8)
        requires { self.old.at + 9 ≤ text_size }
        ensures { Put 9 (word_at answers.now (answer_size * i + 4 * j)) self.old self.new }
    {
        let bits = read_u32(answers, ANSWER * (i as usize) + 4 * (j as usize));
        self.put(b" ");
        let at = self.at;
        text::write_hex(self.text, at, bits);
        self.at += 8;
    }

    // The number of entry i, and its kind.
    fn put_head(&mut self, sheet: &[u8], i: u8)
        requires { self.old.at + 7 ≤ text_size }
        ensures { Put 7 (decimal_of i ++ (32 ∷ decimal_of (kind_of sheet.now i))) self.old self.new }
    {
        self.put_decimal(i);
        self.put(b" ");
        self.put_decimal(Entry { sheet, number: i }.kind());
    }

    // The line of entry i: its head, the four motors and the scale.
    fn put_line(&mut self, sheet: &[u8], answers: &[u8], i: u8)
        requires { self.old.at + 53 ≤ text_size }
        ensures { Put 53 (line_of sheet.now answers.now i) self.old self.new }
    {
        self.put_head(sheet, i);
        for j in 0..5 {
            self.put_word(answers, i, j);
        }
        self.put(b"\n");
    }
}

// The lines of a sheet that was run, at the start of the text. Answers how many bytes they are: with no heap, the text
// is lent.
pub fn entry_lines(sheet: &[u8], answers: &[u8], text: &mut [u8; TEXT]) -> usize
    ensures { Written (lines_of sheet.now answers.now) text.old text.new result }
{
    let mut page = Page { text, at: 0 };
    for i in 0..count(sheet) {
        page.put_line(sheet, answers, i);
    }
    page.at
}

// The line of a refusal, by its number and the entry that it comes with, at the start of the text. Answers how many
// bytes it is.
pub fn refused_line(number: u8, entry_number: u8, text: &mut [u8; TEXT]) -> usize
    ensures { Written (refused_line number entry_number) text.old text.new result }
{
    let mut page = Page { text, at: 0 };
    page.put(b"refused ");
    page.put_decimal(number);
    page.put(b" at ");
    page.put_decimal(entry_number);
    page.put(b"\n");
    page.at
}
