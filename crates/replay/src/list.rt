// A record of the list, and how our answer to it differs.
ghost use Rattle.std.specs.Prelude.{◌<◌, ◌≤◌};

use crate::answers::{INPUTS, Words, answer};
use bits::float_of;
use lists::Answers;
use quad::QuadMixer;
use std::fmt;
use streams::Word;
use wire::read_u32;
use words::{WORDS, same};

// A record's head: 0xKKAA_IIII.
#[derive(Clone, Copy)]
pub(crate) struct Head(u32);

impl Head {
    // How many words the inputs take.
    fn inputs(self) -> usize
        ensures { result < 65536 }
    {
        (self.0 % 65536) as usize
    }

    // How many words the answers take.
    fn answers(self) -> usize
        ensures { result < 256 }
    {
        (self.0 / 65536 % 256) as usize
    }

    // Where the answers begin in the record.
    fn answers_at(self) -> usize
        ensures { (4 ≤ result) × (result < 1048576) }
    {
        4 + 4 * self.inputs()
    }

    // How many bytes the record has.
    fn size(self) -> usize
        ensures { (4 ≤ result) × (result < 2097152) }
    {
        self.answers_at() + 4 * self.answers()
    }
}

// Our answers, the quad's state that they go on from, a new one at the start and then as the last record left it, and
// the room for a record's inputs.
#[derive(Clone, Copy)]
pub(crate) struct Replay {
    state: QuadMixer,
    inputs: [f32; INPUTS],
}

impl Replay {
    pub(crate) fn new() -> Self {
        Replay {
            state: QuadMixer::new(),
            inputs: [0.0; INPUTS],
        }
    }
}

// How a record differs: no kind has its head, or our answer is not the Rust's.
#[derive(Clone, Copy)]
pub(crate) enum Difference {
    NoSuchKind(Head),
    Answer {
        head: Head,
        ours: Words,
        rust: Words,
    },
}

impl fmt::Display for Difference {
    fn fmt<W: fmt::Write>(&self, f: &mut fmt::Formatter<W>) -> fmt::Result {
        match self {
            Difference::NoSuchKind(head) => {
                write!(f, ", head")?;
                show(f, 1, &[head.0])?;
                writeln!(f, ": no such kind")
            }
            Difference::Answer { head, ours, rust } => {
                write!(f, ", head")?;
                show(f, 1, &[head.0])?;
                write!(f, ": ours")?;
                show(f, head.answers(), ours)?;
                write!(f, ", Rust")?;
                show(f, head.answers(), rust)?;
                writeln!(f)
            }
        }
    }
}

// The first of the words, as many as the count says.
fn show<W: fmt::Write>(f: &mut fmt::Formatter<W>, count: usize, words: &[u32]) -> fmt::Result {
    for word in words.iter().take(count) {
        write!(f, " {}", Word(*word))?;
    }
    Ok(())
}

// The words of a record from a place on, each as its bytes.
fn words_from(record: &[u8], at: usize) -> &[[u8; 4]] {
    record.get(at..).unwrap_or(&[]).as_chunks().0
}

impl Answers for Replay {
    type Difference = Difference;

    const SHOWN: usize = 4;

    ghost least = { 4 };

    fn size_of(list: &[u8]) -> usize {
        Head(read_u32(list, 0)).size()
    }

    // No kind looks past its own inputs, so those of earlier records may stay behind them. Past a record's end its
    // words are 0, as ours are after the last. (Only the words that are there are read: most records have a few, and
    // there is room for hundreds.)
    fn compare(&mut self, record: &[u8]) -> Result<(), Difference> {
        let head = Head(read_u32(record, 0));
        for (x, word) in self.inputs.iter_mut().zip(words_from(record, 4)) {
            *x = float_of(u32::from_le_bytes(*word));
        }
        let mut rust = [0; WORDS];
        for (answer, word) in rust.iter_mut().zip(words_from(record, head.answers_at())) {
            *answer = u32::from_le_bytes(*word);
        }
        let Some(ours) = answer(head.0, &self.inputs, &mut self.state) else {
            return Err(Difference::NoSuchKind(head));
        };
        if same(&ours, &rust) {
            return Ok(());
        }
        Err(Difference::Answer { head, ours, rust })
    }
}
