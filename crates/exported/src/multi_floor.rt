// Thrust-floor by lent rows, exported to C. A wrench is lent as its four floats: thrust, roll, pitch, yaw.
ghost use Rattle.rules.specs.Rows.{hex_rows, octo_rows};
ghost use Rattle.multi.specs.Wrench.{wrench};
ghost use Rattle.multi_thrust_floor.specs.Floored.{Floored};
ghost use Rattle.exported.specs.Passed.{FlooredAs};

use multi::Wrench;
use multi_thrust_floor::{mix, mix_hex_x, mix_octo_coax};
use thrust_floor::MotorsAndScale;

// Document 01's number: 0 with the scale stored, or 10 with the outputs and what stands for a scale as they were.
#[unsafe(no_mangle)]
pub extern "C" fn footspandle_mixer_mix_thrust_floor(
    rows: &[f32],
    w: &[f32; 4],
    floor: f32,
    out: &mut [f32],
    scale: &mut f32,
) -> u32
    ensures { FlooredAs rows.now (wrench w.now) floor out.old scale.old
        result out.new scale.new }
{
    match mix(rows, Wrench::from(*w), floor, out) {
        Ok(s) => {
            *scale = s;
            0
        }
        Err(bad) => bad.into(),
    }
}

// The scale.
#[unsafe(no_mangle)]
pub extern "C" fn footspandle_mix_thrust_floor_hex_x(
    w: &[f32; 4],
    floor: f32,
    out: &mut [f32; 6],
) -> f32
    ensures { Floored hex_rows (wrench w.now) floor out.new result }
{
    let MotorsAndScale { motors, scale } = mix_hex_x(Wrench::from(*w), floor);
    *out = motors;
    scale
}

// The scale.
#[unsafe(no_mangle)]
pub extern "C" fn footspandle_mix_thrust_floor_octo_coax(
    w: &[f32; 4],
    floor: f32,
    out: &mut [f32; 8],
) -> f32
    ensures { Floored octo_rows (wrench w.now) floor out.new result }
{
    let MotorsAndScale { motors, scale } = mix_octo_coax(Wrench::from(*w), floor);
    *out = motors;
    scale
}
