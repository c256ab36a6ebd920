// Our answers about the quad. A mix acts on the state that the record before it left, and its answers are what the
// readers say of the new state.
use crate::answers::{INPUTS, Words, words_of};
use crate::frames;
use quad::{QuadMixer, motors_to_torque_signs};

pub(crate) fn answer(head: u32, x: &[f32; INPUTS], state: &mut QuadMixer) -> Option<Words> {
    *state = match head {
        0x0908_0008 => set(x),
        0x0a08_0000 => QuadMixer::new(),
        0x0b08_0004 => state.mix(torque(x), x[3]),
        0x0c08_0005 => state.mix_thrust_floor(torque(x), x[3], x[4]),
        0x0d08_0005 => state.mix_priority(torque(x), x[3], x[4]),
        0x0e08_0005 => state.mix_airmode(torque(x), x[3], x[4]),
        0x1008_0005 => state.mix_rotor_out(0, torque(x), x[3], x[4]),
        0x1108_0005 => state.mix_rotor_out(1, torque(x), x[3], x[4]),
        0x1208_0005 => state.mix_rotor_out(2, torque(x), x[3], x[4]),
        0x1308_0005 => state.mix_rotor_out(3, torque(x), x[3], x[4]),
        0x1408_0005 => state.mix_rotor_out(4, torque(x), x[3], x[4]),
        0x1508_0005 => state.mix_rotor_out(255, torque(x), x[3], x[4]),
        0x1608_0005 => state.mix_rotor_out(usize::MAX, torque(x), x[3], x[4]),
        // The state is not asked and stays.
        0x1703_0004 => return Some(words_of(&motors_to_torque_signs(motors(x)))),
        _ => return frames::answer(head, x),
    };
    Some(read(*state))
}

// A state as the answer.
fn read(state: QuadMixer) -> Words {
    let [m1, m2, m3, m4] = state.last_motors();
    let [roll, pitch, yaw] = state.last_torque();
    words_of(&[m1, m2, m3, m4, state.last_torque_scale(), roll, pitch, yaw])
}

// The inputs are the state itself: the motors, the scale and the sums. (`sheets` has the like: a conversion for two
// programs would be a promise of `quad`.)
fn set(x: &[f32; INPUTS]) -> QuadMixer {
    QuadMixer {
        last_motors: motors(x),
        last_torque_scale: x[4],
        last_torque: [x[5], x[6], x[7]],
    }
}

// The inputs of a mix are the torque, the thrust and, except for the plain mix, the floor.
fn torque(x: &[f32; INPUTS]) -> [f32; 3] {
    [x[0], x[1], x[2]]
}

fn motors(x: &[f32; INPUTS]) -> [f32; 4] {
    [x[0], x[1], x[2], x[3]]
}
