// Runs a command sheet: its commands one after another as calls of the quad's mixes, each answer written to its place
// in the output.
//
// The state goes in by value and comes back. Where the sheet is refused nothing is written and none comes back: the one
// that was given stays.

#![tactic(auto)]

ghost use Rattle.std.specs.Prelude.{◌≡◌, ◌*◌, ◌≤◌, length, Ok};
ghost use Rattle.std.specs.Float.{binary32};
ghost use Rattle.std.specs.Float.Ieee.{to_bits};
ghost use Rattle.wire.specs.Bytes.{bytes_of, write_at};
ghost use Rattle.entries.specs.Layout.{count_of, answer_size};
ghost use Rattle.refusals.specs.Numbers.{accepted};
ghost use Rattle.sheet.specs.Table.{judged, told_by};
ghost use Rattle.sheet_run.specs.Run.{Gives, answer_of, judged_for, Ran, verdict_of, state_after};

use bits::bits_of;
use entries::choice::choose;
use entries::command::Command;
use entries::layout::{ANSWER, Entry, count};
use entries::refusal::Refusal;
use quad::QuadMixer;
use sheet::{Refused, check};
use wire::write_u32;

// A command as the call of its mix.
pub fn call(q: QuadMixer, c: Command) -> QuadMixer
    ensures { Gives q c result }
{
    match c {
        Command::Plain { demand } => q.mix(demand.torque, demand.thrust),
        Command::ThrustFloor { demand, floor } => q.mix_thrust_floor(
            demand.torque,
            demand.thrust,
            floor,
        ),
        Command::Priority { demand, floor } => q.mix_priority(demand.torque, demand.thrust, floor),
        Command::Airmode { demand, floor } => q.mix_airmode(demand.torque, demand.thrust, floor),
        Command::RotorOut {
            failed,
            demand,
            floor,
        } => q.mix_rotor_out(failed, demand.torque, demand.thrust, floor),
    }
}

// A float at a place of the output, as its bits.
fn write_float(out: &mut [u8], at: usize, x: f32)
    ensures { out.new ≡ write_at out.old at (bytes_of 4 (to_bits binary32 x)) }
{
    write_u32(out, at, bits_of(x));
}

// The answer of a call, at the start of the output part that is lent for it: four motors, then the scale. (A line for
// each: after a loop over lent parts the library promises a slice's length, and nothing of its bytes.)
fn write_answer(out: &mut [u8], q: QuadMixer)
    requires { answer_size ≤ length out.old }
    ensures { out.new ≡ write_at out.old 0 (answer_of q) }
{
    let m = q.last_motors();
    write_float(out, 0, m[0]);
    write_float(out, 4, m[1]);
    write_float(out, 8, m[2]);
    write_float(out, 12, m[3]);
    write_float(out, 16, q.last_torque_scale());
}

// Whether a sheet is accepted for an output of so many bytes: refusals 1 to 8, then 9.
fn judge(sheet: &[u8], room: usize) -> Result<(), Refused>
    ensures { told_by result ≡ judged_for sheet.now room }
{
    check(sheet)?;
    if room < ANSWER * (count(sheet) as usize) {
        return Err(Refusal::ShortOutput.into());
    }
    Ok(())
}

// The commands of an accepted sheet, one after another. Each of its entries is one.
fn run_entries(sheet: &[u8], state: QuadMixer, out: &mut [u8]) -> QuadMixer
    requires { ((judged sheet.now).number ≡ accepted) × (answer_size * count_of sheet.now ≤ length out.old) }
    ensures { Ran sheet.now state out.old (Ok tt) result out.new }
{
    let mut q = state;
    for number in 0..count(sheet) {
        let entry = Entry { sheet, number };
        let case = choose(entry.kind(), entry.rotor()).unwrap();
        q = call(q, entry.command(case));
        let at = ANSWER * (number as usize);
        write_answer(&mut out[at..], q);
    }
    q
}

// Runs a sheet from a state. Each entry's answer takes 20 bytes at its place in the output, and the bytes past the last
// stay.
pub fn run(sheet: &[u8], state: QuadMixer, out: &mut [u8]) -> Result<QuadMixer, Refused>
    ensures { Ran sheet.now state out.old (verdict_of result) (state_after state result) out.new }
{
    judge(sheet, out.len())?;
    Ok(run_entries(sheet, state, out))
}
