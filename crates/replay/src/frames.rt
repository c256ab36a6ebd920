// Our answers about any frame.
ghost use Rattle.std.specs.Prelude.{◌+◌, ◌*◌, ◌≤◌};

use crate::answers::{INPUTS, Words, words_of};
use crate::floors;
use frame::MixerN;
use multi::Wrench;
use std::array;
use words::WORDS;

pub(crate) fn answer(head: u32, x: &[f32; INPUTS]) -> Option<Words> {
    Some(match head {
        0x1809_0024 => mix_by(x, 0),
        0x1909_0024 => mix_by(x, 4),
        0x1a09_0024 => mix_by(x, 8),
        0x1b09_0024 => mix_by(x, 255),
        0x1c09_0004 => mix(MixerN::quad_x(), [x[0], x[1], x[2]], x[3]),
        0x1d04_0028 => achieved_wrench(x),
        0x1e00_0004 => return lent(x, 0),
        0x1e01_0008 => return lent(x, 1),
        0x1e02_000c => return lent(x, 2),
        0x1e03_0010 => return lent(x, 3),
        0x1e04_0014 => return lent(x, 4),
        0x1e06_001c => return lent(x, 6),
        0x1e08_0024 => return lent(x, 8),
        0x1e10_0044 => return lent(x, 16),
        0x1e3f_0100 => return lent(x, 63),
        0x1e40_0104 => return lent(x, 64),
        0x1f06_0004 => words_of(&multi::mix_hex_x(wrench(x))),
        0x2008_0004 => words_of(&multi::mix_octo_coax(wrench(x))),
        _ => return floors::answer(head, x),
    })
}

// The first 32 inputs, as a matrix.
fn matrix(x: &[f32; INPUTS]) -> [f32; 32] {
    array::from_fn(|i| x[i])
}

// The inputs are the matrix, roll, pitch, yaw and thrust.
fn mix_by(x: &[f32; INPUTS], count: usize) -> Words {
    mix(MixerN::new(matrix(x), count), [x[32], x[33], x[34]], x[35])
}

// The answers are the eight motors, and the count.
fn mix(mixer: MixerN, torque: [f32; 3], thrust: f32) -> Words {
    let mut words = words_of(&mixer.mix(torque, thrust));
    words[8] = word_of(mixer.n());
    words
}

// A count as a word; one that is no count of rotors as the largest.
fn word_of(n: usize) -> u32 {
    u8::try_from(n).map_or(u32::MAX, u32::from)
}

// The inputs are the matrix and the motors.
fn achieved_wrench(x: &[f32; INPUTS]) -> Words {
    let motors = array::from_fn(|i| x[32 + i]);
    words_of(&MixerN::new(matrix(x), 3).achieved_wrench(motors))
}

// The first four inputs, as a wrench.
pub(crate) fn wrench(x: &[f32; INPUTS]) -> Wrench {
    Wrench::from([x[0], x[1], x[2], x[3]])
}

// The inputs are the wrench and the rows. The motors are written to the first of the floats that are lent, which are
// zeros. A refusal is no answer of the Rust's, so it counts as a difference.
fn lent(x: &[f32; INPUTS], outputs: usize) -> Option<Words>
    requires { outputs ≤ 64 }
{
    let mut room = [0.0; WORDS];
    multi::mix(&x[4..4 + 4 * outputs], wrench(x), &mut room[..outputs]).ok()?;
    Some(words_of(&room))
}
