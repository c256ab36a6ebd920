// 001's mixes, exported to C. A wrench is lent as its four floats: thrust, roll, pitch, yaw.
ghost use Rattle.std.specs.Prelude.{◌≡◌};
ghost use Rattle.number.specs.Treat.{unit_clamp};
ghost use Rattle.rules.specs.Rows.{run_of, hex_rows, octo_rows};
ghost use Rattle.multi.specs.Wrench.{wrench, mix_number, Allocated};
ghost use Rattle.exported.specs.Passed.{Numbered};

use multi::{BadRows, Wrench};

// Document 01's number.
fn number(answer: Result<(), BadRows>) -> u32
    ensures { result ≡ mix_number answer }
{
    match answer {
        Ok(()) => 0,
        Err(bad) => bad.into(),
    }
}

#[unsafe(no_mangle)]
pub extern "C" fn footspandle_clamp01(x: f32) -> f32
    ensures { result ≡ unit_clamp x }
{
    multi::clamp01(x)
}

// Document 01's number: 0, or 10 with the outputs as they were.
#[unsafe(no_mangle)]
pub extern "C" fn footspandle_mixer_mix(rows: &[f32], w: &[f32; 4], out: &mut [f32]) -> u32
    ensures { Numbered rows.now (wrench w.now) out.old result out.new }
{
    number(multi::mix(rows, Wrench::from(*w), out))
}

#[unsafe(no_mangle)]
pub extern "C" fn footspandle_hex_x(rows: &mut [f32; 24])
    ensures { rows.new ≡ run_of hex_rows }
{
    *rows = multi::hex_x();
}

#[unsafe(no_mangle)]
pub extern "C" fn footspandle_octo_coax(rows: &mut [f32; 32])
    ensures { rows.new ≡ run_of octo_rows }
{
    *rows = multi::octo_coax();
}

#[unsafe(no_mangle)]
pub extern "C" fn footspandle_mix_hex_x(w: &[f32; 4], out: &mut [f32; 6])
    ensures { Allocated hex_rows (wrench w.now) out.new }
{
    *out = multi::mix_hex_x(Wrench::from(*w));
}

#[unsafe(no_mangle)]
pub extern "C" fn footspandle_mix_octo_coax(w: &[f32; 4], out: &mut [f32; 8])
    ensures { Allocated octo_rows (wrench w.now) out.new }
{
    *out = multi::mix_octo_coax(Wrench::from(*w));
}
