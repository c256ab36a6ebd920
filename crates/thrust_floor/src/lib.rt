// The thrust-floor mix: thrust before torque. Follows relay-mix-quad's `mix_thrust_floor` (Apache-2.0, see NOTICE);
// changed: written in Rattle with contracts, with choices in the place of branches, and `map` in the place of the loop
// that gives the motors.

#![tactic(auto)]

ghost use Rattle.std.specs.Prelude.{◌≡◌};
ghost use Rattle.rules.specs.Rows.{quad_rows};
ghost use Rattle.rules.specs.ThrustFloor.{scaled_motor, thrust_floor_motors, thrust_floor_scale};

use number::{clamp_floor, limit};
use rotors::command::{deltas, lift};

// A motor's command: the collective and its share of the torque.
pub fn scaled_motor(floor: f32, base: f32, s: f32, d: f32) -> f32
    ensures { result ≡ scaled_motor floor base s d }
{
    clamp_floor(base + s * d, floor)
}

// The motors, and the scale that their torque was given at.
#[derive(Clone, Copy)]
pub struct MotorsAndScale<const N: usize> {
    pub motors: [f32; N],
    pub scale: f32,
}

// The torque is scaled down, all of it alike, so that each motor stays in floor..1 and the thrust is kept.
pub fn motors(torque_body: [f32; 3], thrust: f32, floor: f32) -> MotorsAndScale<4>
    ensures { result ≡ record {
      motors = thrust_floor_motors quad_rows torque_body thrust floor;
      scale = thrust_floor_scale quad_rows torque_body thrust floor;
    } }
{
    let low = limit(floor);
    let base = lift(limit(thrust), low);
    let d = deltas(torque_body);
    let bases = [base; 4]; // one for each motor, as the fit scale takes them
    let s = fit::scale(&bases, &d, low);
    let motors = d.map(|d| scaled_motor(low, base, s, d));
    MotorsAndScale { motors, scale: s }
}
