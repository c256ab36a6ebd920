// Our answers, kind by kind. One kind more is an arm of `answer` here, in mixes.rt if it is about the quad, in
// frames.rt if it is about any frame, or in floors.rt if it is about thrust-floor by rows, and a line in list.rs of the
// room of compare/rooms that is about it.
ghost use Rattle.std.specs.Prelude.{◌+◌, ◌≤◌, length};

use crate::mixes;
use bits::bits_of;
use quad::QuadMixer;
use words::WORDS;

// The most words that the inputs of a kind take: a wrench, a floor and 64 rows.
// They go through the kinds as a plain array: in a struct each `x[3]` would be an `x.0[3]`, which is no plainer.
pub(crate) const INPUTS: usize = 261;

// An answer: its words, with zeros after the last.
pub(crate) type Words = [u32; WORDS];

// Our answer to a record, from its head, its inputs and the state that the record before it left, or none where no kind
// has the head. A head is 0xKKAA_IIII: the kind, how many words the answers take and how many the inputs take; it is
// matched as the list has it, since a name for each would be a second list. `float_of` has read the inputs and
// `bits_of` writes the answers, so kind 4, the round trip from bits to bits, has no more to do.
// (Each file has one place for the words of its arms, and its last arm asks the next file: a function pays at its entry
// for each place of 512 bytes.)
pub(crate) fn answer(head: u32, x: &[f32; INPUTS], state: &mut QuadMixer) -> Option<Words> {
    Some(match head {
        0x0101_0001 => one(number::sanitise(x[0])),
        0x0201_0001 => one(number::limit(x[0])),
        0x0301_0001 => one(number::clamp01(x[0])),
        0x0401_0001 => one(x[0]),
        0x0501_0002 => one(number::clamp_floor(x[0], x[1])),
        0x0601_0001 => one(scale(x, 0)),
        0x0601_0003 => one(scale(x, 1)),
        0x0601_0005 => one(scale(x, 2)),
        0x0601_0007 => one(scale(x, 3)),
        0x0601_0009 => one(scale(x, 4)),
        0x0701_0009 => one(solve::det3(matrix(x))),
        0x0804_000c => solution(x),
        _ => return mixes::answer(head, x, state),
    })
}

// Floats as an answer: their bits, and zeros after the last. There is room for 128.
pub(crate) fn words_of(floats: &[f32]) -> Words {
    let mut words = [0; WORDS];
    for (word, x) in words.iter_mut().zip(floats) {
        *word = bits_of(*x);
    }
    words
}

fn one(x: f32) -> Words {
    words_of(&[x])
}

// The inputs are the floor, the bases and the deltas.
fn scale(x: &[f32], motors: usize) -> f32
    requires { 1 + motors + motors ≤ length x.now }
{
    let middle = 1 + motors;
    let end = middle + motors;
    fit::scale(&x[1..middle], &x[middle..end], x[0])
}

// The first nine inputs, as three rows: one expression, as `probes` has it of its own nine.
fn matrix(x: &[f32; INPUTS]) -> [[f32; 3]; 3] {
    [[x[0], x[1], x[2]], [x[3], x[4], x[5]], [x[6], x[7], x[8]]]
}

// The inputs are the matrix and the right side. The answers are whether there is a solution, and its three numbers.
fn solution(x: &[f32; INPUTS]) -> Words {
    let found = solve::solve3(matrix(x), [x[9], x[10], x[11]]);
    let [x, y, z] = found.unwrap_or([0.0; 3]).map(bits_of);
    let mut words = [0; WORDS];
    words[..4].copy_from_slice(&[u32::from(found.is_some()), x, y, z]);
    words
}
