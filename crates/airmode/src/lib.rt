// The airmode mix: torque before thrust, with an idle floor. Follows relay-mix-quad's `mix_airmode` (Apache-2.0, see
// NOTICE); changed: written in Rattle with contracts, with choices in the place of branches, the loops over four motors
// as `map`s and the ends of the last clamp taken in turn, and without the tests there that never fail (a treated
// spread is finite, and so is the quotient by a spread over SMALL).

#![tactic(auto)]

ghost use Rattle.std.specs.Prelude.{◌≡◌};
ghost use Rattle.binary32.specs.Arithmetic.{◌+f◌, 0f, 1f};
ghost use Rattle.binary32.specs.Range.{Between};
ghost use Rattle.number.specs.Treat.{floor_clamp};
ghost use Rattle.rules.specs.Rows.{quad_rows};
ghost use Rattle.rules.specs.Airmode.{spread, spread_scale, unshifted, shift, shifted, airmode_motors};

use extremes::{largest, least};
use number::{SMALL, clamp_in_turn, is_finite, limit, pick, sanitise};
use rotors::command::deltas;

// How far the deltas lie apart. Treated: an overflow counts as none.
fn spread(d: [f32; 4]) -> f32
    ensures { result ≡ spread d }
{
    sanitise(largest(&d) - least(&d))
}

// How much of a spread fits between idle and 1.
fn spread_scale(idle: f32, range: f32) -> f32
    ensures { result ≡ spread_scale idle range }
{
    let span = 1.0 - idle;
    pick(range > SMALL, pick(range > span, span / range, 1.0), 1.0)
}

// The collective and the scaled deltas, not yet moved to where they fit.
fn unshifted(idle: f32, t: f32, d: [f32; 4]) -> [f32; 4]
    ensures { result ≡ unshifted idle t d }
{
    let s = spread_scale(idle, spread(d));
    d.map(|d| t + d * s)
}

// By how much all motors are moved: up to idle, or down to 1, or not at all.
fn shift(idle: f32, lo: f32, hi: f32) -> f32
    ensures { result ≡ shift idle lo hi }
{
    pick(lo < idle, idle - lo, pick(hi > 1.0, -(hi - 1.0), 0.0))
}

// A motor's command held to idle..1, as `clamp_floor` does it for any floor: idle is in 0..1 here, so that the ends can
// be looked at in turn. (No type for such an idle: this and `shifted`, which hands it on, are all that ask for it.)
fn hold(x: f32, idle: f32) -> f32
    requires { Between 0f 1f idle }
    ensures { result ≡ floor_clamp x idle }
{
    let held = clamp_in_turn(x, idle, 1.0);
    pick(is_finite(x), held, idle)
}

// All motors moved, and what still passes idle..1 cut. A shift of +0 is added too: it turns a -0 into +0.
fn shifted(idle: f32, m: [f32; 4]) -> [f32; 4]
    requires { Between 0f 1f idle }
    ensures { result ≡ shifted idle m }
{
    let by = shift(idle, least(&m), largest(&m));
    m.map(
        |x|
            requires { Between 0f 1f idle }
            ensures { result ≡ floor_clamp (x +f by) idle }
        { hold(x + by, idle) },
    )
}

// The torque is kept and the collective moved, so that each motor stays in idle..1; only a torque wider than that range
// is scaled. The thrust is not lifted to idle first.
pub fn motors(torque_body: [f32; 3], thrust: f32, idle: f32) -> [f32; 4]
    ensures { result ≡ airmode_motors quad_rows torque_body thrust idle }
{
    let t = limit(thrust);
    let low = limit(idle);
    shifted(low, unshifted(low, t, deltas(torque_body)))
}
