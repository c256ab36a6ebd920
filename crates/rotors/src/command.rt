// What the mixes make of a command before any of them fits it to the motors. Follows relay-mix-quad (Apache-2.0, see
// NOTICE); changed: functions of their own.
ghost use Rattle.std.specs.Prelude.{◌≡◌, ◌&&◌};
ghost use Rattle.binary32.specs.Arithmetic.{◌+f◌, ◌*f◌};
ghost use Rattle.number.specs.Moderate.{moderate};
ghost use Rattle.rules.specs.Rows.{roll_of, pitch_of, yaw_of, quad_rows};
ghost use Rattle.rules.specs.Command.{lifted, delta, deltas};
ghost use Rattle.rules.specs.Plain.{raw_sum};

use crate::rows::MIXER_X;
use number::{is_moderate, pick, sanitise};

// What thrust and torques ask of the motor of one row. It is not treated: an overflow shows as an infinity.
// (The functions of one row take numbers one by one, as their definitions do: a struct would be taken apart at once.)
pub fn raw_sum(row: [f32; 4], t: f32, r: f32, p: f32, y: f32) -> f32
    ensures { result ≡ raw_sum t r p y row }
{
    row[0] * t + row[1] * r + row[2] * p + row[3] * y
}

// The collective: a limited thrust, lifted to the limited floor where it is under it. (The mixes that have both make
// them in two lines, and hand them on as the two numbers that the definitions of `rules` take.)
pub fn lift(t: f32, floor: f32) -> f32
    ensures { result ≡ lifted t floor }
{
    pick(t < floor, floor, t)
}

// What torques ask of the motor of one row, not treated.
fn asked(row: [f32; 4], r: f32, p: f32, y: f32) -> f32
    ensures { result ≡ roll_of row *f r +f pitch_of row *f p +f yaw_of row *f y }
{
    row[1] * r + row[2] * p + row[3] * y
}

// What treated torques ask of the motor of one row. Treated: an overflow asks for nothing.
pub fn delta(row: [f32; 4], r: f32, p: f32, y: f32) -> f32
    ensures { result ≡ delta r p y row }
{
    sanitise(asked(row, r, p, y))
}

// Whether three torques are moderate. Those of a flight are; and then their sums are finite, so that treating changes
// none of them.
fn all_moderate(r: f32, p: f32, y: f32) -> bool
    ensures { result ≡ moderate r && moderate p && moderate y }
{
    is_moderate(r) && is_moderate(p) && is_moderate(y)
}

// What a torque asks of each motor, the thrust left out. That it is moderate is seen first, since it is quick; the
// torques are treated before anything is asked of them, so that no sum of a NaN is begun.
pub fn deltas(torque_body: [f32; 3]) -> [f32; 4]
    ensures { result ≡ deltas quad_rows torque_body }
{
    let [r, p, y] = torque_body.map(sanitise);
    if all_moderate(r, p, y) {
        return MIXER_X.map(
            |row|
                ensures { result ≡ roll_of row *f r +f pitch_of row *f p +f yaw_of row *f y }
            { asked(row, r, p, y) },
        );
    }
    MIXER_X.map(
        |row|
            ensures { result ≡ delta r p y row }
        { delta(row, r, p, y) },
    )
}
