// A mixer for a frame of up to eight rotors, given by its matrix: what thrust, roll, pitch and yaw each count for each
// rotor.
//
// Follows relay-mix-quad's MixerN (Apache-2.0, see NOTICE); changed: written in Rattle with contracts; the matrix is
// one run of 32 floats, a row of four for each rotor; a method takes the mixer by value; what is derived from geometry
// is left out.
//
// What the mix answers is defined in the crate `rules`, and so are the promises that its contract ends with.

#![tactic(auto)]

ghost use Rattle.std.specs.Prelude.{◌≡◌, map, length};
ghost use Rattle.number.specs.Treat.{treated};
ghost use Rattle.rules.specs.Rows.{run_of, quad_x_rows};
ghost use Rattle.rules.specs.Plain.{raw_sums};
ghost use Rattle.rules.specs.Torque.{achieved};
ghost use Rattle.frame.specs.Mixer.{made, rows_in, FrameMixed};

use lowering::lower_and_limit;
use number::sanitise;
use rotors::command::raw_sum;
use rotors::rows::rows_of;

// How many rows a matrix has.
pub const MAX_ROTORS: usize = 8;

// The matrix, and how many rotors there are. The count is for the caller: the mix uses all eight rows, whatever it is.
// (One run of 32 floats, as document 01 has it and as C lends it; the count beside it is the Rust's.)
// (Room for eight rows and a count beside it, since C passes a mixer as these two: decision 62.)
#[repr(C)]
#[derive(Clone, Copy)]
pub struct MixerN {
    pub mix: [f32; 32],
    pub n: usize,
}

// Each row's sum, treated by itself: an overflow asks for nothing.
// (A type of rows and as many outputs would be no plainer: each caller has one such pair, and lends it once.)
fn treated_sums(rows: &[[f32; 4]], torque_body: [f32; 3], thrust: f32, m: &mut [f32])
    requires { length rows.now ≡ length m.old }
    ensures { m.new ≡ map treated (raw_sums rows.now torque_body thrust) }
{
    let t = sanitise(thrust);
    let [r, p, y] = torque_body.map(sanitise);
    // (By index: after `iter_mut().zip(..)` the library promises a slice's length, and nothing of its numbers. Three
    // crates have this loop: a public one that took the step would ask its callers that the step can be called.)
    for (i, row) in rows.iter().enumerate() {
        let sum = raw_sum(*row, t, r, p, y);
        m[i] = sanitise(sum);
    }
}

// What treated motors give by their rows: sums from +0 on, rotor by rotor. (Four names are plainer than an array of
// sums and a fold: each line says which column it adds.)
fn wrench_of(rows: &[[f32; 4]], motors: &[f32]) -> [f32; 4]
    ensures { result ≡ achieved rows.now motors.now }
{
    let mut thrust: f32 = 0.0;
    let mut roll: f32 = 0.0;
    let mut pitch: f32 = 0.0;
    let mut yaw: f32 = 0.0;
    for (row, motor) in rows.iter().zip(motors) {
        let m = sanitise(*motor);
        thrust += row[0] * m;
        roll += row[1] * m;
        pitch += row[2] * m;
        yaw += row[3] * m;
    }
    [thrust, roll, pitch, yaw]
}

impl MixerN {
    // A mixer of this matrix. A count over 8 is cut to 8; nothing else is checked.
    pub fn new(mix: [f32; 32], n: usize) -> MixerN
        ensures { result ≡ made mix n }
    {
        MixerN {
            mix,
            n: n.min(MAX_ROTORS),
        }
    }

    pub fn n(self) -> usize
        ensures { result ≡ self.n }
    {
        self.n
    }

    // The quad's four rows, and four rows of +0.
    pub fn quad_x() -> MixerN
        ensures { result ≡ made (run_of quad_x_rows) 4 }
    {
        MixerN { mix: QUAD_X, n: 4 }
    }

    // Torque and thrust to eight motors in 0..1. Each sum is treated; where a motor would pass 1, all are lowered; what
    // is then under 0 is cut.
    pub fn mix(self, torque_body: [f32; 3], thrust: f32) -> [f32; MAX_ROTORS]
        ensures { FrameMixed (rows_in self) torque_body thrust result }
    {
        let mut m = [0.0; MAX_ROTORS];
        treated_sums(rows_of(&self.mix), torque_body, thrust, &mut m);
        lower_and_limit(&mut m);
        m
    }

    // The thrust, roll, pitch and yaw that eight motors give by the matrix. Motors are treated and the matrix is not,
    // so a sum may be a NaN.
    pub fn achieved_wrench(self, motors: [f32; MAX_ROTORS]) -> [f32; 4]
        ensures { result ≡ achieved (rows_in self) motors }
    {
        wrench_of(rows_of(&self.mix), &motors)
    }
}

// (Written out: made of `rotors`' rows and of +0 by a function of the place, it would be longer.)
const QUAD_X: [f32; 32] = [
    1.0, -1.0, 1.0, -1.0, // M1
    1.0, -1.0, -1.0, 1.0, // M2
    1.0, 1.0, -1.0, -1.0, // M3
    1.0, 1.0, 1.0, 1.0, // M4
    // no more rotors
    0.0, 0.0, 0.0, 0.0, 0.0, 0.0, 0.0, 0.0, 0.0, 0.0, 0.0, 0.0, 0.0, 0.0, 0.0, 0.0,
];
