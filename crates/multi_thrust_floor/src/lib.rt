// The thrust-floor mix of frames of any rows: thrust before torque on six, eight and up to 64 rotors, each command in
// floor..1 (document 02, K6). Follows the rule of relay-mix-quad's `mix_thrust_floor` (Apache-2.0, see NOTICE), which
// is for four; changed: written in Rattle with contracts, over lent rows of any count. What is done for one rotor is
// the quad's code.

#![tactic(auto)]

ghost use Rattle.std.specs.Prelude.{◌≡◌, map, ◌≤◌, length};
ghost use Rattle.rules.specs.Rows.{hex_rows, octo_rows};
ghost use Rattle.rules.specs.Command.{deltas};
ghost use Rattle.rules.specs.Multi.{max_outputs};
ghost use Rattle.rules.specs.ThrustFloor.{scaled_motor};
ghost use Rattle.multi_thrust_floor.specs.Floored.{wrench_torque, Floored, RowsFloored};
ghost use Rattle.multi_thrust_floor.specs.Granted.{Granted};

use multi::{BadRows, MAX_OUTPUTS, Wrench, hex_x, octo_coax, rows_for};
use number::{limit, sanitise};
use rotors::command::{delta, lift};
use rotors::rows::rows_of;
use thrust_floor::{MotorsAndScale, scaled_motor};

// What the torque asks of each rotor, by its row: the deltas. A row's thrust is not read.
// (A type of rows and as many outputs would be no plainer: each caller has one such pair, and lends it once.)
fn ask(rows: &[[f32; 4]], w: Wrench, out: &mut [f32])
    requires { length rows.now ≡ length out.old }
    ensures { out.new ≡ deltas rows.now (wrench_torque w) }
{
    let [r, p, y] = [w.roll, w.pitch, w.yaw].map(sanitise);
    // (By index: after `iter_mut().zip(..)` the library promises a slice's length, and nothing of its numbers.)
    for (i, row) in rows.iter().enumerate() {
        out[i] = delta(*row, r, p, y);
    }
}

// Each delta makes way for its motor: the collective and the scaled delta.
fn give(floor: f32, base: f32, s: f32, d: &mut [f32])
    ensures { d.new ≡ map (scaled_motor floor base s) d.old }
{
    for x in d.iter_mut() {
        *x = scaled_motor(floor, base, s, *x);
    }
}

// Of what was asked, as much as fits: the deltas make way for the motors, and the scale is answered. There is one base
// for all rotors. It stands as often as there can be outputs, and the fit scale goes as far as there are deltas.
fn grant(thrust: f32, floor: f32, d: &mut [f32]) -> f32
    requires { length d.old ≤ max_outputs }
    ensures { Granted thrust floor d.old d.new result }
{
    let low = limit(floor);
    let base = lift(limit(thrust), low);
    let bases = [base; MAX_OUTPUTS];
    let s = fit::scale(&bases, d, low);
    give(low, base, s, d);
    s
}

// A wrench to the commands of the rotors, by their rows: one run of floats, four (thrust, roll, pitch, yaw) for each
// output. The thrust of a row is not read: the collective is one for all. The torque is scaled down, all of it alike,
// so that each command stays in floor..1. Where the run is not four floats for each output, or there are over 64
// outputs, it is refused, and the outputs stay as they are. (The outputs hold the deltas until the scale is found,
// since there is a place for each.)
pub fn mix(rows: &[f32], w: Wrench, floor: f32, out: &mut [f32]) -> Result<f32, BadRows>
    ensures { RowsFloored rows.now w floor out.old result out.new }
{
    ask(rows_for(rows, out.len())?, w, out);
    Ok(grant(w.thrust, floor, out))
}

// The mix of a frame that has N rows.
fn mixed<const N: usize>(rows: &[[f32; 4]], w: Wrench, floor: f32) -> MotorsAndScale<N>
    requires each { length rows.now ≡ N }
    requires most { N ≤ max_outputs }
    ensures { Floored rows.now w floor result.motors result.scale }
{
    let mut motors = [0.0; N];
    ask(rows, w, &mut motors);
    let scale = grant(w.thrust, floor, &mut motors);
    MotorsAndScale { motors, scale }
}

// The mix of `hex_x`'s six rows.
pub fn mix_hex_x(w: Wrench, floor: f32) -> MotorsAndScale<6>
    ensures { Floored hex_rows w floor result.motors result.scale }
{
    mixed(rows_of(&hex_x()), w, floor)
}

// The mix of `octo_coax`'s eight rows.
pub fn mix_octo_coax(w: Wrench, floor: f32) -> MotorsAndScale<8>
    ensures { Floored octo_rows w floor result.motors result.scale }
{
    mixed(rows_of(&octo_coax()), w, floor)
}
