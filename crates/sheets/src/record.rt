// A record of the list: 24 words, then the sheet, the output after the run, and the text that `mixrun` prints. A text
// that is not compared has length 0.
ghost use Rattle.std.specs.Prelude.{◌≤◌, ◌<◌};

use bits::{bits_of, float_of};
use bodies::body;
use lines::TEXT;
use lists::Answers;
use quad::QuadMixer;
use report::text_of;
use sheet_run::run;
use std::{array, fmt};
use wire::read_u32;

// The places of the words.
const SHEET: usize = 0;

const OUTPUT: usize = 4;

const NUMBER: usize = 8;

const ENTRY: usize = 12;

const BEFORE: usize = 16;

const AFTER: usize = 48;

const BODY_ENTRY: usize = 80;

const BODY_AT: usize = 84;

const BODY_SIZE: usize = 88;

const PRINTED: usize = 92;

const HEAD: usize = 96;

// Room for an output: more than any of the list has.
const MOST: usize = 2048;

// The part of so many bytes from a place on; an empty part where there are not so many.
fn part(s: &[u8], at: usize, size: usize) -> &[u8] {
    let rest = s.get(at..).unwrap_or(&[]);
    rest.get(..size).unwrap_or(&[])
}

// A record's bytes.
#[derive(Clone, Copy)]
struct Record<'a>(&'a [u8]);

impl<'a> Record<'a> {
    // A word as a length or a place.
    fn word(self, at: usize) -> usize
        ensures { result < 4294967296 }
    {
        read_u32(self.0, at) as usize
    }

    // How many bytes it has, by its words.
    fn size(self) -> usize
        ensures { (96 ≤ result) × (result < 17179869184) }
    {
        HEAD + self.word(SHEET) + self.word(OUTPUT) + self.word(PRINTED)
    }

    fn sheet(self) -> &'a [u8] {
        part(self.0, HEAD, self.word(SHEET))
    }

    fn output(self) -> &'a [u8] {
        part(self.0, HEAD + self.word(SHEET), self.word(OUTPUT))
    }

    fn text(self) -> &'a [u8] {
        part(
            self.0,
            HEAD + self.word(SHEET) + self.word(OUTPUT),
            self.word(PRINTED),
        )
    }

    // The eight words of a state.
    fn state(self, at: usize) -> [u32; 8]
        requires { at ≤ 48 }
    {
        array::from_fn(|i| read_u32(self.0, at + 4 * i))
    }

    // Whether a run from the record's state gives its number, entry number, state and output. Before it, byte j of the
    // output is j modulo 251. An output that is longer than the room counts as a difference.
    fn run_agrees(self) -> bool {
        let output = self.output();
        let mut room: [u8; MOST] = array::from_fn(|j| (j % 251) as u8);
        let Some(lent) = room.get_mut(..output.len()) else {
            return false;
        };
        let before = state_of(self.state(BEFORE));
        let (number, entry, after) = match run(self.sheet(), before, lent) {
            Ok(after) => (0, 0, after),
            Err(refused) => (u8::from(refused.why), refused.entry, before),
        };
        self.word(NUMBER) == usize::from(number)
            && self.word(ENTRY) == usize::from(entry)
            && self.state(AFTER) == words_of(after)
            && room.starts_with(output)
    }

    // Whether the body of the record's entry is the record's part of the sheet.
    fn body_agrees(self) -> bool {
        let size = self.word(BODY_SIZE);
        let told = part(self.sheet(), self.word(BODY_AT), size);
        told.len() == size && body(self.sheet(), self.word(BODY_ENTRY)) == told
    }

    // Whether what is printed is the record's text. A record without one does not tell.
    fn text_agrees(self) -> bool {
        let text = self.text();
        if text.is_empty() {
            return true;
        }
        let mut space = [0; TEXT];
        let size = text_of(self.sheet(), &mut space);
        space.get(..size) == Some(text)
    }
}

// A state of its words: the motors, the scale and the sums.
fn state_of(words: [u32; 8]) -> QuadMixer {
    let [m1, m2, m3, m4, scale, roll, pitch, yaw] = words.map(float_of);
    QuadMixer {
        last_motors: [m1, m2, m3, m4],
        last_torque_scale: scale,
        last_torque: [roll, pitch, yaw],
    }
}

// A NaN is written as 7fc00000 in the record and by `bits_of`.
fn words_of(state: QuadMixer) -> [u32; 8] {
    let [m1, m2, m3, m4] = state.last_motors;
    let [roll, pitch, yaw] = state.last_torque;
    [m1, m2, m3, m4, state.last_torque_scale, roll, pitch, yaw].map(bits_of)
}

// Our answers to the list's sheets.
#[derive(Clone, Copy)]
pub(crate) struct Sheets;

// A record that differs.
#[derive(Clone, Copy)]
pub(crate) struct Difference;

impl fmt::Display for Difference {
    fn fmt<W: fmt::Write>(&self, f: &mut fmt::Formatter<W>) -> fmt::Result {
        f.write_str(" differs\n")
    }
}

impl Answers for Sheets {
    type Difference = Difference;

    // All.
    const SHOWN: usize = usize::MAX;

    ghost least = { 96 };

    fn size_of(list: &[u8]) -> usize {
        Record(list).size()
    }

    fn compare(&mut self, record: &[u8]) -> Result<(), Difference> {
        let record = Record(record);
        if record.run_agrees() && record.body_agrees() && record.text_agrees() {
            Ok(())
        } else {
            Err(Difference)
        }
    }
}
