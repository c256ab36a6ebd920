// The priority mix: thrust before roll and pitch, and these before yaw. Follows relay-mix-quad's `mix_priority`
// (Apache-2.0, see NOTICE); changed: written in Rattle with contracts, with choices in the place of branches and the
// loops over four motors as `map`s, and the last by their numbers.

#![tactic(auto)]

ghost use Rattle.std.specs.Prelude.{◌≡◌, map, get_or};
ghost use Rattle.std.specs.Float.{nan};
ghost use Rattle.number.specs.Treat.{treated};
ghost use Rattle.rules.specs.Rows.{quad_rows};
ghost use Rattle.rules.specs.Command.{roll, pitch};
ghost use Rattle.rules.specs.Priority.{yaw_group, roll_pitch_group, yaw_scale};
ghost use Rattle.rules.specs.Priority.{roll_pitch_scale, priority_motor, priority_motors};

use number::{clamp_floor, limit, sanitise};
use rotors::command::lift;
use rotors::rows::MIXER_X;
use std::array;

fn yaw_group(row: [f32; 4], y: f32) -> f32
    ensures { result ≡ yaw_group y row }
{
    sanitise(row[3] * y)
}

// (Two numbers, as the definition takes them: a struct of them would be taken apart at once.)
fn roll_pitch_group(row: [f32; 4], r: f32, p: f32) -> f32
    ensures { result ≡ roll_pitch_group r p row }
{
    sanitise(row[1] * r + row[2] * p)
}

// What a yaw torque asks of each motor.
fn yaw_groups(y: f32) -> [f32; 4]
    ensures { result ≡ map (yaw_group (treated y)) quad_rows }
{
    let y = sanitise(y);
    MIXER_X.map(
        |row|
            ensures { result ≡ yaw_group y row }
        { yaw_group(row, y) },
    )
}

// What roll and pitch torques ask of each motor.
fn roll_pitch_groups(r: f32, p: f32) -> [f32; 4]
    ensures { result ≡ map (roll_pitch_group (treated r) (treated p)) quad_rows }
{
    let r = sanitise(r);
    let p = sanitise(p);
    MIXER_X.map(
        |row|
            ensures { result ≡ roll_pitch_group r p row }
        { roll_pitch_group(row, r, p) },
    )
}

// How much of the yaw fits beside all of roll and pitch.
fn yaw_scale(floor: f32, base: f32, drp: [f32; 4], dy: [f32; 4]) -> f32
    ensures { result ≡ yaw_scale floor base drp dy }
{
    let base_rp = drp.map(|rp| base + rp);
    fit::scale(&base_rp, &dy, floor)
}

// How much of roll and pitch fits beside the scaled yaw.
fn roll_pitch_scale(floor: f32, base: f32, sy: f32, drp: [f32; 4], dy: [f32; 4]) -> f32
    ensures { result ≡ roll_pitch_scale floor base sy drp dy }
{
    let base_y = dy.map(|y| base + sy * y);
    fit::scale(&base_y, &drp, floor)
}

// A motor's command: the collective and its shares of the two groups.
fn priority_motor(floor: f32, base: f32, srp: f32, sy: f32, drp: f32, dy: f32) -> f32
    ensures { result ≡ priority_motor floor base srp sy drp dy }
{
    clamp_floor(base + srp * drp + sy * dy, floor)
}

// Yaw is scaled down first, then roll and pitch, so that each motor stays in floor..1 and the thrust is kept.
pub fn motors(torque_body: [f32; 3], thrust: f32, floor: f32) -> [f32; 4]
    ensures { result ≡ priority_motors quad_rows torque_body thrust floor }
{
    let low = limit(floor);
    let base = lift(limit(thrust), low);
    let dy = yaw_groups(torque_body[2]);
    let drp = roll_pitch_groups(torque_body[0], torque_body[1]);
    let sy = yaw_scale(low, base, drp, dy);
    let srp = roll_pitch_scale(low, base, sy, drp, dy);
    array::from_fn(|i| priority_motor(low, base, srp, sy, drp[i], dy[i]))
}
