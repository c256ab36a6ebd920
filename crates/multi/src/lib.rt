// Frames of any rows: a wrench in, a command for each rotor out, each clamped to 0..1 by itself.
//
// Follows relay-mix-multi (Apache-2.0, see NOTICE); changed: written in Rattle with contracts; rows and outputs are
// lent, up to 64 of them, in the place of a const generic struct that holds them, and are checked where they are used.

#![tactic(auto)]

mod tables;

ghost use Rattle.std.specs.Prelude.{◌≡◌, is_err, IfOk, length};
ghost use Rattle.number.specs.Treat.{unit_clamp};
ghost use Rattle.rules.specs.Rows.{rows_of, run_of, hex_rows, octo_rows};
ghost use Rattle.rules.specs.Multi.{rows_refused};
ghost use Rattle.refusals.specs.Numbers.{bad_rows};
ghost use Rattle.multi.specs.Wrench.{wrench, motors_of, RowsMixed, Allocated};

use crate::tables::{HEX_X, OCTO_COAX};
use rotors::command::raw_sum;
use rotors::rows::rows_of;

// What is asked of a frame: a collective thrust, and a torque about each axis.
#[repr(C)]
#[derive(Clone, Copy)]
pub struct Wrench {
    pub thrust: f32,
    pub roll: f32,
    pub pitch: f32,
    pub yaw: f32,
}

// The wrench that four floats are: thrust, roll, pitch, yaw.
impl From<[f32; 4]> for Wrench {
    ghost from_gives = { λ v w. w ≡ wrench v };

    fn from([thrust, roll, pitch, yaw]: [f32; 4]) -> Wrench {
        Wrench {
            thrust,
            roll,
            pitch,
            yaw,
        }
    }
}

// Why lent rows are refused: they are not four floats for each output, or there are over 64 outputs.
#[derive(Debug, Clone, Copy, PartialEq, Eq)]
pub struct BadRows;

// Document 01's number of it.
impl From<BadRows> for u32 {
    ghost from_gives = { λ _ n. n ≡ bad_rows };

    fn from(_: BadRows) -> u32 {
        10
    }
}

// How many outputs a frame may have.
pub const MAX_OUTPUTS: usize = 64;

// x held to 0..1; a NaN becomes +0, and +infinity 1.
pub fn clamp01(x: f32) -> f32
    ensures { result ≡ unit_clamp x }
{
    number::clamp01(x)
}

// Whether it is refused: over 64 outputs, or floats that are not four for each.
pub fn refused(floats: usize, outputs: usize) -> bool
    ensures { result ≡ rows_refused floats outputs }
{
    outputs > MAX_OUTPUTS || floats != 4 * outputs
}

// The rows of a run, one for each output, where it is not refused.
pub fn rows_for(run: &[f32], outputs: usize) -> Result<&[[f32; 4]], BadRows>
    ensures refused { is_err result ≡ rows_refused (length run.now) outputs }
    ensures rows { IfOk result (λ rows. rows.now ≡ rows_of run.now) }
{
    if refused(run.len(), outputs) {
        return Err(BadRows);
    }
    Ok(rows_of(run))
}

// Each output from its row.
// (A type of rows and as many outputs would be no plainer: each caller has one such pair, and lends it once.)
fn allocate(rows: &[[f32; 4]], w: Wrench, out: &mut [f32])
    requires { length rows.now ≡ length out.old }
    ensures { out.new ≡ motors_of w rows.now }
{
    // (By index: after `iter_mut().zip(..)` the library promises a slice's length, and nothing of its numbers.)
    for (i, row) in rows.iter().enumerate() {
        out[i] = clamp01(raw_sum(*row, w.thrust, w.roll, w.pitch, w.yaw));
    }
}

// A wrench to the commands of the rotors, by their rows: one run of floats, four (thrust, roll, pitch, yaw) for each
// output. Where that is not what is lent, or there are over 64 outputs, it is refused, and the outputs stay as they
// are.
pub fn mix(rows: &[f32], w: Wrench, out: &mut [f32]) -> Result<(), BadRows>
    ensures { RowsMixed rows.now w out.old result out.new }
{
    allocate(rows_for(rows, out.len())?, w, out);
    Ok(())
}

// The mix of a frame that has N rows.
fn mixed<const N: usize>(rows: &[[f32; 4]], w: Wrench) -> [f32; N]
    requires { length rows.now ≡ N }
    ensures { Allocated rows.now w result }
{
    let mut out = [0.0; N];
    allocate(rows, w, &mut out);
    out
}

// The rows of six rotors, 60 degrees apart, each spinning against its neighbours.
pub fn hex_x() -> [f32; 24]
    ensures { result ≡ run_of hex_rows }
{
    HEX_X
}

// Their mix.
pub fn mix_hex_x(w: Wrench) -> [f32; 6]
    ensures { Allocated hex_rows w result }
{
    mixed(rows_of(&hex_x()), w)
}

// The rows of four arms with two rotors each, one over the other, which spin against each other.
pub fn octo_coax() -> [f32; 32]
    ensures { result ≡ run_of octo_rows }
{
    OCTO_COAX
}

// Their mix.
pub fn mix_octo_coax(w: Wrench) -> [f32; 8]
    ensures { Allocated octo_rows w result }
{
    mixed(rows_of(&octo_coax()), w)
}
