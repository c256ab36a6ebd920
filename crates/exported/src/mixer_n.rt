// `MixerN`, exported to C. A mixer is lent as its 32 floats, eight rows of thrust, roll, pitch and yaw, and passes with
// its count, which is what the two that make a mixer answer.
ghost use Rattle.std.specs.Prelude.{◌≡◌};
ghost use Rattle.rules.specs.Rows.{rows_of, run_of, quad_x_rows};
ghost use Rattle.rules.specs.Torque.{achieved};
ghost use Rattle.frame.specs.Mixer.{made, FrameMixed};
ghost use Rattle.exported.specs.Passed.{passed};

use frame::MixerN;

// The count, and the matrix at `mix`.
#[unsafe(no_mangle)]
pub extern "C" fn footspandle_mixer_n_new(rows: &[f32; 32], n: usize, mix: &mut [f32; 32]) -> usize
    ensures { passed mix.new result ≡ made rows.now n }
{
    let MixerN { mix: matrix, n } = MixerN::new(*rows, n);
    *mix = matrix;
    n
}

// The count: the one that the mixer passes with.
#[unsafe(no_mangle)]
pub extern "C" fn footspandle_mixer_n_n(mix: &[f32; 32], n: usize) -> usize
    ensures { result ≡ (passed mix.now n).n }
{
    MixerN { mix: *mix, n }.n()
}

#[unsafe(no_mangle)]
pub extern "C" fn footspandle_mixer_n_quad_x(mix: &mut [f32; 32]) -> usize
    ensures { passed mix.new result ≡ made (run_of quad_x_rows) 4 }
{
    let MixerN { mix: matrix, n } = MixerN::quad_x();
    *mix = matrix;
    n
}

#[unsafe(no_mangle)]
pub extern "C" fn footspandle_mixer_n_mix(
    mix: &[f32; 32],
    n: usize,
    torque_body: &[f32; 3],
    thrust: f32,
    motors: &mut [f32; 8],
)
    ensures { FrameMixed (rows_of mix.now) torque_body.now thrust motors.new }
{
    *motors = MixerN { mix: *mix, n }.mix(*torque_body, thrust);
}

#[unsafe(no_mangle)]
pub extern "C" fn footspandle_mixer_n_achieved_wrench(
    mix: &[f32; 32],
    n: usize,
    motors: &[f32; 8],
    wrench: &mut [f32; 4],
)
    ensures { wrench.new ≡ achieved (rows_of mix.now) motors.now }
{
    *wrench = MixerN { mix: *mix, n }.achieved_wrench(*motors);
}
