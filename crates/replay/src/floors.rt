// Our answers about thrust-floor by rows.
ghost use Rattle.std.specs.Prelude.{◌+◌, ◌*◌, ◌≤◌};

use crate::answers::{INPUTS, Words, words_of};
use crate::frames::wrench;
use bits::bits_of;
use multi_thrust_floor::{mix, mix_hex_x, mix_octo_coax};
use thrust_floor::MotorsAndScale;
use words::WORDS;

pub(crate) fn answer(head: u32, x: &[f32; INPUTS]) -> Option<Words> {
    Some(match head {
        0x2101_0005 => return lent(x, 0),
        0x2102_0009 => return lent(x, 1),
        0x2105_0015 => return lent(x, 4),
        0x2107_001d => return lent(x, 6),
        0x2109_0025 => return lent(x, 8),
        0x2140_0101 => return lent(x, 63),
        0x2141_0105 => return lent(x, 64),
        0x2207_0005 => scaled(mix_hex_x(wrench(x), x[4])),
        0x2309_0005 => scaled(mix_octo_coax(wrench(x), x[4])),
        _ => return None,
    })
}

// The inputs are the wrench, the floor and the rows. The motors are written to the first of the floats that are lent,
// which are zeros, and the scale after them. No record is one that is refused, so a refusal counts as a difference.
// (One function with that of frames.rt would be no plainer: it would take the mix, and whether there is a scale.)
fn lent(x: &[f32; INPUTS], outputs: usize) -> Option<Words>
    requires { outputs ≤ 64 }
{
    let mut room = [0.0; WORDS];
    let rows = &x[5..5 + 4 * outputs];
    room[outputs] = mix(rows, wrench(x), x[4], &mut room[..outputs]).ok()?;
    Some(words_of(&room))
}

// Motors and the scale after them, as an answer.
fn scaled<const N: usize>(given: MotorsAndScale<N>) -> Words {
    let mut words = words_of(&given.motors);
    if let Some(word) = words.get_mut(N) {
        *word = bits_of(given.scale);
    }
    words
}
