// Runs the bench figures of document 01. It prints a line a command: the figure's number, the mix, then the motors,
// floats as eight lower-case hex digits of their bits. On the quad, 1 to 13, each command is from a fresh state, and
// after the four motors stands the recorded scale; of `quad_x` the first four motors are shown, as the document has
// them, and in figure 15 all eight. Last come the lines of the document's three command sheets. The file stdout has
// what the document says they all are.

#![tactic(auto)]

mod show;
mod three_sheets;

use bits::float_of;
use frame::MixerN;
use multi::{Wrench, mix_hex_x, mix_octo_coax};
use quad::QuadMixer;
use show::{print, print_state};

// 2^24, and 4 more.
const POWER_24: f32 = 16777216.0;

const POWER_24_AND_4: f32 = 16777220.0;

// 2^127.
const POWER_127: f32 = 170141183460469231731687303715884105728.0;

fn main() {
    plain();
    thrust_floor();
    priority();
    airmode();
    rotor_out(11, 0, 0.25, -0.25);
    rotor_out(12, 0, -0.25, 0.25);
    rotor_out(13, 4, 0.25, 0.125);
    any_frame();
    three_sheets::show_all();
}

fn plain() {
    let q = QuadMixer::new();
    print_state(1, "plain", q.mix([0.25, 0.25, 0.0], 0.75));
    print_state(2, "plain", q.mix([0.5, 0.0, 0.0], 0.25));
    print_state(3, "plain", q.mix([0.0, 0.0, 0.0], POWER_24));
    print_state(3, "plain", q.mix([0.0, 0.0, 0.0], POWER_24_AND_4));
    print_state(4, "plain", q.mix([-POWER_127, -0.25, -0.25], POWER_127));
}

fn thrust_floor() {
    let q = QuadMixer::new();
    print_state(
        5,
        "thrust-floor",
        q.mix_thrust_floor([0.125, 0.125, 0.0], 0.5, 0.25),
    );
    print_state(
        6,
        "thrust-floor",
        q.mix_thrust_floor([0.5, 0.0, 0.0], 0.5, 0.25),
    );
    print_state(
        7,
        "thrust-floor",
        q.mix_thrust_floor([0.5, 0.0, 0.0], -0.0, 0.0),
    );
}

fn priority() {
    let q = QuadMixer::new();
    print_state(8, "priority", q.mix_priority([0.25, 0.0, 0.5], 0.5, 0.0));
}

fn airmode() {
    let q = QuadMixer::new();
    print_state(9, "airmode", q.mix_airmode([0.25, 0.0, 0.0], 0.25, 0.125));
    print_state(
        10,
        "airmode",
        q.mix_airmode([POWER_127, 0.0, 0.0], 0.5, 0.25),
    );
}

// Thrust 0.5 and floor 0, with a yaw, which this mix drops, of 0, a NaN and +infinity.
fn rotor_out(figure: u64, failed: usize, roll: f32, pitch: f32) {
    let q = QuadMixer::new();
    for yaw in [0.0, float_of(0x7fc0_0000), float_of(0x7f80_0000)] {
        print_state(
            figure,
            "rotor-out",
            q.mix_rotor_out(failed, [roll, pitch, yaw], 0.5, 0.0),
        );
    }
}

fn any_frame() {
    let infinity = float_of(0x7f80_0000);
    let motors = MixerN::quad_x().mix([-POWER_127, -0.25, -0.25], POWER_127);
    print(4, "quad_x", &motors[..4]);
    print(14, "hex_x", &mix_hex_x(wrench(0.0, 0.5)));
    print(15, "octo_coax", &mix_octo_coax(wrench(infinity, 0.0)));
    print(15, "quad_x", &MixerN::quad_x().mix([0.0; 3], infinity));
}

fn wrench(thrust: f32, roll: f32) -> Wrench {
    Wrench {
        thrust,
        roll,
        pitch: 0.0,
        yaw: 0.0,
    }
}
