// Rows: what thrust, roll, pitch and yaw each count for a motor. (A row is four floats and no struct: C lends runs of
// them, which the library cuts into arrays.)
ghost use Rattle.std.specs.Prelude.{◌≡◌, ℕ, get_or};
ghost use Rattle.rules.specs.Rows.{rows_of, no_row, row_at};

// The quad's rows. They follow relay-mix-quad's MIXER_X (Apache-2.0, see NOTICE); changed: written in Rattle, with
// spins in words, and a name for each row.
pub const M1: [f32; 4] = [1.0, -1.0, 1.0, -1.0]; // front-right, clockwise

pub const M2: [f32; 4] = [1.0, -1.0, -1.0, 1.0]; // back-right, counter-clockwise

pub const M3: [f32; 4] = [1.0, 1.0, -1.0, -1.0]; // back-left, clockwise

pub const M4: [f32; 4] = [1.0, 1.0, 1.0, 1.0]; // front-left, counter-clockwise

pub const MIXER_X: [[f32; 4]; 4] = [M1, M2, M3, M4];

// The rows in a run that has four numbers for each rotor. What is left over at its end, under four, is no row.
pub fn rows_of(run: &[f32]) -> &[[f32; 4]]
    ensures rows { result.now ≡ rows_of run.now }
    ensures past_the_last { (i : ℕ) → get_or result.now i no_row ≡ row_at run.now i }
{
    run.as_chunks().0
}

// The row of rotor i in such a run. Past the last it is a row of +0, which asks nothing of a motor.
pub fn row_at(run: &[f32], i: usize) -> [f32; 4]
    ensures { result ≡ row_at run.now i }
{
    if i < run.len() / 4 {
        let at = 4 * i;
        return [run[at], run[at + 1], run[at + 2], run[at + 3]];
    }
    [0.0; 4]
}
