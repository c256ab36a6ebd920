// Inner functions, exported for comparison alone (compare/). Each passes on what one function of a crate under it
// gives, and its contract says the same. It is no interface for an autopilot: what is one, and is compared too, is in
// `exported`.

#![tactic(auto)]

ghost use Rattle.std.specs.Prelude.{◌≡◌, is_some};
ghost use Rattle.std.specs.Float.{binary32};
ghost use Rattle.std.specs.Float.Ieee.{is_nan, of_bits, to_bits};
ghost use Rattle.std.specs.Float.Ieee.Scale.{finite};
ghost use Rattle.number.specs.Treat.{treated, clamped, limited, floor_clamp};
ghost use Rattle.wire.specs.Bytes.{bytes_of, read_at, write_at};
ghost use Rattle.fit.specs.Fit.{fit_scale};
ghost use Rattle.solve.specs.Solve.{element, determinant, solution, or_zeros};
ghost use Rattle.lines.specs.Lines.{Written};
ghost use Rattle.report.specs.Report.{printed};
ghost use Rattle.probes.specs.Matrix.{rows};

use lines::TEXT;

#[unsafe(no_mangle)]
pub extern "C" fn probe_is_finite(x: f32) -> bool
    ensures { result ≡ finite x }
{
    number::is_finite(x)
}

#[unsafe(no_mangle)]
pub extern "C" fn probe_is_nan(x: f32) -> bool
    ensures { result ≡ is_nan x }
{
    number::is_nan(x)
}

#[unsafe(no_mangle)]
pub extern "C" fn probe_sanitise(x: f32) -> f32
    ensures { result ≡ treated x }
{
    number::sanitise(x)
}

#[unsafe(no_mangle)]
pub extern "C" fn probe_limit(x: f32) -> f32
    ensures { result ≡ limited x }
{
    number::limit(x)
}

#[unsafe(no_mangle)]
pub extern "C" fn probe_clamp(x: f32, lo: f32, hi: f32) -> f32
    ensures { result ≡ clamped x lo hi }
{
    number::clamp(x, lo, hi)
}

#[unsafe(no_mangle)]
pub extern "C" fn probe_clamp_floor(x: f32, lo: f32) -> f32
    ensures { result ≡ floor_clamp x lo }
{
    number::clamp_floor(x, lo)
}

#[unsafe(no_mangle)]
pub extern "C" fn probe_float_of(bits: u32) -> f32
    ensures { result ≡ of_bits binary32 bits }
{
    bits::float_of(bits)
}

#[unsafe(no_mangle)]
pub extern "C" fn probe_bits_of(x: f32) -> u32
    ensures { result ≡ to_bits binary32 x }
{
    bits::bits_of(x)
}

#[unsafe(no_mangle)]
pub extern "C" fn probe_read_u16(s: &[u8], at: usize) -> u16
    ensures { result ≡ read_at 2 s.now at }
{
    wire::read_u16(s, at)
}

#[unsafe(no_mangle)]
pub extern "C" fn probe_read_u32(s: &[u8], at: usize) -> u32
    ensures { result ≡ read_at 4 s.now at }
{
    wire::read_u32(s, at)
}

#[unsafe(no_mangle)]
pub extern "C" fn probe_write_u16(out: &mut [u8], at: usize, x: u16)
    ensures { out.new ≡ write_at out.old at (bytes_of 2 x) }
{
    wire::write_u16(out, at, x);
}

#[unsafe(no_mangle)]
pub extern "C" fn probe_write_u32(out: &mut [u8], at: usize, x: u32)
    ensures { out.new ≡ write_at out.old at (bytes_of 4 x) }
{
    wire::write_u32(out, at, x);
}

#[unsafe(no_mangle)]
pub extern "C" fn probe_scale(base: &[f32], delta: &[f32], floor: f32) -> f32
    ensures { result ≡ fit_scale floor base.now delta.now }
{
    fit::scale(base, delta, floor)
}

// A matrix is passed as its nine entries, row by row. (`as_chunks` would lend its rows, and solve takes them by value.)
fn matrix(a: &[f32; 9]) -> [[f32; 3]; 3]
    ensures { result ≡ rows a.now }
{
    [[a[0], a[1], a[2]], [a[3], a[4], a[5]], [a[6], a[7], a[8]]]
}

#[unsafe(no_mangle)]
pub extern "C" fn probe_det3(a: &[f32; 9]) -> f32
    ensures { result ≡ determinant (element (rows a.now)) }
{
    solve::det3(matrix(a))
}

#[unsafe(no_mangle)]
pub extern "C" fn probe_solve3(a: &[f32; 9], rhs: &[f32; 3], x: &mut [f32; 3]) -> bool
    ensures { (result ≡ is_some (solution (rows a.now) rhs.now))
        × (x.new ≡ or_zeros (solution (rows a.now) rhs.now)) }
{
    let found = solve::solve3(matrix(a), *rhs);
    *x = found.unwrap_or([0.0; 3]);
    found.is_some()
}

// What `mixrun` prints for a sheet.
#[unsafe(no_mangle)]
pub extern "C" fn probe_sheet_text(sheet: &[u8], text: &mut [u8; TEXT]) -> usize
    ensures { Written (printed sheet.now) text.old text.new result }
{
    report::text_of(sheet, text)
}
