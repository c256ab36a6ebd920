// The torque that motors give. Follows relay-mix-quad's `motors_to_torque_signs` (Apache-2.0, see NOTICE); changed:
// written in Rattle with contracts, the loop as a fold.

#![tactic(auto)]

ghost use Rattle.std.specs.Prelude.{◌≡◌, ◌<◌, get_or};
ghost use Rattle.rules.specs.Rows.{quad_rows};
ghost use Rattle.std.specs.Float.{nan};
ghost use Rattle.binary32.specs.Arithmetic.{0f};
ghost use Rattle.rules.specs.Torque.{summed, torque_of};

use rotors::rows::MIXER_X;

// The products of one column of the rows with the motors, added up from +0 on, in order.
fn column_sum(column: usize, motors: [f32; 4]) -> f32
    requires { column < 4 }
    ensures { result ≡ summed (λ row. get_or row column nan) 0f quad_rows motors }
{
    MIXER_X
        .iter()
        .zip(&motors)
        .fold(0.0, |s, (row, m)| s + row[column] * *m)
}

// Roll, pitch and yaw sums of the motors by the rows. (Three calls are plainer than a closure over the columns, which
// would have to ask that a column is under 4.)
pub fn torque_of(motors: [f32; 4]) -> [f32; 3]
    ensures { result ≡ torque_of quad_rows motors }
{
    [
        column_sum(1, motors),
        column_sum(2, motors),
        column_sum(3, motors),
    ]
}
