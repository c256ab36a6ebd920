// Replays a list of the Rust's answers, and of a model's where the Rust has no such function (33 to 35): runs our
// function on the inputs of each record and compares the two answers by their bits. It prints a line for each of the
// first few that differ, and then 'N answers compared, D differ'. The gate runs it, compiled for x86-64, on the list in
// the file stdin, which `compare/run --list` writes from the Rust and the model alone.
//
// The list is words of four bytes, little-endian: how many records there are, and then the records. A record is its
// head, its inputs and its answers.
// A head is 0xKKAAIIII: the kind, how many words the answers take, and how many the inputs take. answers.rt, mixes.rt,
// frames.rt and floors.rt have the heads.
//
// The kinds, in decimal, with their inputs:
// - 1 `sanitise`, 2 `limit`, 3 `clamp01`, 4 from bits to bits: a number. 5 `clamp_floor`: a number and a floor.
// - 6 `scale`: a floor, and for 0 to 4 motors their bases and then their deltas. 7 `det3`: a matrix. 8 `solve3`: a
//   matrix and a right side.
// - 9 a state of the quad: four motors, a scale and three sums. 10 `new`: nothing.
// - 11 `mix`: roll, pitch, yaw, thrust. 12 `mix_thrust_floor`, 13 `mix_priority`, 14 `mix_airmode`: the same and a
//   floor.
// - `mix_rotor_out` of rotor 0 to 3 in 16 to 19, of rotor 4 in 20, of 255 in 21, of the largest usize in 22: the same
//   and a floor.
// - 23 `motors_to_torque_signs`: four motors.
// - `MixerN`'s `mix` with a count of 0, 4, 8 and 255 in 24 to 27: 32 floats of the matrix, roll, pitch, yaw, thrust.
//   28 `quad_x`'s `mix`: the last four. The answers are eight motors and the count. 29 `achieved_wrench`: the matrix
//   and eight motors.
// - 30 001's `mix`: thrust, roll, pitch, yaw, and four floats for each of 0, 1, 2, 3, 4, 6, 8, 16, 63 or 64 outputs.
//   31 `hex_x`'s and 32 `octo_coax`'s: the first four.
// - 33 thrust-floor by rows: thrust, roll, pitch, yaw, a floor, and four floats for each of 0, 1, 4, 6, 8, 63 or 64
//   outputs. 34 `hex_x`'s and 35 `octo_coax`'s: the first five. The answers are the motors and the scale. Of 33 the
//   records with the quad's rows have the answers of the Rust's quad.
//
// The program holds one state of the quad, a new one at the start. A record of 9 to 22 changes it, and its answers are
// the four motors, the scale and the three sums that the readers then give; so each is compared from the state that the
// records before it left. The Rust stores no sums: after a mix they are those that its `motors_to_torque_signs` gives.
//
// A float is written as its bits, and an answer that is a NaN as 7fc00000, just as `bits_of` writes ours, so any NaN
// agrees with any other. A truth is 1 or 0. A head that no file has counts as a difference, and so does a list that is
// not as many whole records as it says: what is not read never passes.

#![tactic(auto)]

mod answers;
mod floors;
mod frames;
mod list;
mod mixes;

use list::Replay;
use lists::{Tally, compare_list};
use std::fmt::Write;
use streams::{Stdout, read};

// How many bytes there is room for: more than a list has.
const ROOM: usize = 1048576;

fn main() {
    let mut room = [0; ROOM];
    let Tally { compared, differ } = compare_list(read(&mut room), ROOM, Replay::new());
    let _ = writeln!(Stdout, "{compared} answers compared, {differ} differ");
}
