// The mix for a lost rotor. Follows relay-mix-quad's `mix_rotor_out` (Apache-2.0, see NOTICE); changed: written in
// Rattle with contracts, with choices in the place of branches, the equations of each lost rotor solved by a copy of
// the code, a table of what the floor counts in the place of a choice by that rotor's number, and the ends of the
// tilt's clamp taken in turn.

#![tactic(auto)]

ghost use Rattle.std.specs.Prelude.{◌≡◌, cond, map, ◌<◌, T, ltb};
ghost use Rattle.std.specs.Float.Ieee.Scale.{finite};
ghost use Rattle.binary32.specs.Arithmetic.{◌+f◌, ◌*f◌, 0f};
ghost use Rattle.number.specs.Treat.{treated, floor_clamp};
ghost use Rattle.rules.specs.Rows.{quad_rows};
ghost use Rattle.rules.specs.RotorOut.{tilt, tilt_motor, equations, placed, base_without, delta_without};
ghost use Rattle.rules.specs.RotorOut.{motors_without, rotor_out_motors};

use number::{clamp_floor, clamp_in_turn, limit, sanitise};
use rotors::rows::MIXER_X;
use solve::solve3;
use std::array;

// A torque this large is far outside flight; held to it, the three equations never overflow.
const TAU_BOUND: f32 = 8.0;

// A roll or pitch torque as this mix takes it. The ends are in order, so that they can be looked at in turn.
fn tilt(x: f32) -> f32
    ensures { result ≡ tilt x }
{
    clamp_in_turn(sanitise(x), -TAU_BOUND, TAU_BOUND)
}

// A command as this mix takes it: yaw is given up.
#[derive(Clone, Copy)]
struct Asked {
    floor: f32,
    thrust: f32,
    roll: f32,
    pitch: f32,
    ghost finite_floor: { T (finite floor) },
}

// A motor's command where no rotor is lost.
fn tilt_motor(asked: Asked, row: [f32; 4]) -> f32
    ensures { result ≡ tilt_motor asked.floor asked.thrust asked.roll asked.pitch row }
{
    clamp_floor(
        sanitise(asked.thrust + row[1] * asked.roll + row[2] * asked.pitch),
        asked.floor,
    )
}

// (By place: the closure of a `map` over the rows would need a clause of its own, longer than this.)
fn none_lost(asked: Asked) -> [f32; 4]
    ensures { result ≡ map (tilt_motor asked.floor asked.thrust asked.roll asked.pitch) quad_rows }
{
    array::from_fn(|i| tilt_motor(asked, MIXER_X[i]))
}

// What the floor counts for each rotor, for each lost one: nothing for the lost rotor, whose base and delta are 0, so
// that it ends at +0. A choice by the rotor's number, while that was a variable, cost the compiler more.
const COUNTS: [[f32; 4]; 4] = [
    [0.0, 1.0, 1.0, 1.0],
    [1.0, 0.0, 1.0, 1.0],
    [1.0, 1.0, 0.0, 1.0],
    [1.0, 1.0, 1.0, 0.0],
];

// A motor's command where a rotor is lost.
fn motor_without(counts: f32, floor: f32, s: f32, b: f32, d: f32) -> f32
    ensures { result ≡ floor_clamp (treated (b +f s *f d)) (counts *f floor) }
{
    clamp_floor(sanitise(b + s * d), counts * floor)
}

// The lost rotor, by its number. Each has a copy of its own of what stands below, so that the compiler solves
// beforehand as much of the equations as no command changes.
#[derive(Clone, Copy)]
struct LostRotor<const FAILED: usize> {
    ghost is_one: { FAILED < 4 },
}

impl<const FAILED: usize> LostRotor<FAILED> {
    // What the three healthy rotors have to give together: their sum, their roll, their pitch. (A line for each of the
    // three, here and below, as document 01 names them.)
    fn equations(self) -> [[f32; 3]; 3]
        ensures { result ≡ equations FAILED }
    {
        let rows = MIXER_X;
        let a = rows[(FAILED + 1) % 4];
        let b = rows[(FAILED + 2) % 4];
        let c = rows[(FAILED + 3) % 4];
        [[1.0, 1.0, 1.0], [a[1], b[1], c[1]], [a[2], b[2], c[2]]]
    }

    // The healthy rotors' three numbers at their places, the lost one's being 0.
    fn placed(self, x: [f32; 3]) -> [f32; 4]
        ensures { result ≡ placed FAILED x }
    {
        let mut v: [f32; 4] = [0.0; 4];
        v[(FAILED + 1) % 4] = x[0];
        v[(FAILED + 2) % 4] = x[1];
        v[(FAILED + 3) % 4] = x[2];
        v
    }

    // To the part of each rotor's command that gives three times the thrust and no moment comes as much as fits of the
    // part that gives roll and pitch and no thrust. Where the equations are not solved, the three numbers are +0.
    fn motors(self, asked: Asked) -> [f32; 4]
        ensures { result ≡ motors_without FAILED asked.floor
            (base_without FAILED asked.thrust) (delta_without FAILED asked.roll asked.pitch) }
    {
        let a = self.equations();
        let base = self.placed(solve3(a, [3.0 * asked.thrust, 0.0, 0.0]).unwrap_or([0.0; 3]));
        let delta = self.placed(solve3(a, [0.0, asked.roll, asked.pitch]).unwrap_or([0.0; 3]));
        let floor = asked.floor;
        let s = fit::scale(&base, &delta, floor);
        let counts = COUNTS[FAILED];
        array::from_fn(|i| motor_without(counts[i], floor, s, base[i], delta[i]))
    }
}

fn allotted(failed: usize, asked: Asked) -> [f32; 4]
    ensures { result ≡ cond (ltb failed 4)
        (motors_without failed asked.floor
        (base_without failed asked.thrust) (delta_without failed asked.roll asked.pitch))
        (map (tilt_motor asked.floor asked.thrust asked.roll asked.pitch) quad_rows) }
{
    match failed {
        0 => LostRotor::<0> {}.motors(asked),
        1 => LostRotor::<1> {}.motors(asked),
        2 => LostRotor::<2> {}.motors(asked),
        3 => LostRotor::<3> {}.motors(asked),
        _ => none_lost(asked),
    }
}

// Rotor `failed`, 0 to 3, is lost and commanded +0; the other three share thrust, roll and pitch, and yaw is given up.
// With a number of 4 or more none is lost.
pub fn motors(failed: usize, torque_body: [f32; 3], thrust: f32, floor: f32) -> [f32; 4]
    ensures { result ≡ rotor_out_motors failed torque_body thrust floor }
{
    let asked = Asked {
        floor: limit(floor),
        thrust: limit(thrust),
        roll: tilt(torque_body[0]),
        pitch: tilt(torque_body[1]),
    };
    allotted(failed, asked)
}
