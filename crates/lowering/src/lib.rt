// All motors lowered together by what the largest has over 1, then each cut to 0..1: over any count, where they stand.
// Follows the last two steps of relay-mix-quad's `mix`, the quad's and `MixerN`'s (Apache-2.0, see NOTICE); changed:
// written in Rattle with contracts, one function for both, with choices in the place of branches.

#![tactic(auto)]

ghost use Rattle.std.specs.Prelude.{◌≡◌, cond};
ghost use Rattle.std.specs.Float.Ieee.{lt};
ghost use Rattle.binary32.specs.Arithmetic.{◌-f◌, 0f, 1f};
ghost use Rattle.rules.specs.Plain.{lower_limited};

use extremes::largest;
use number::{clamp_floor, pick};

// What is taken from every motor: what the largest has over 1, or +0, which changes none. All go down together, so the
// torque is kept and thrust is given up.
fn excess(max: f32) -> f32
    ensures { result ≡ cond (lt 1f max) (max -f 1f) 0f }
{
    pick(max > 1.0, max - 1.0, 0.0)
}

// The largest ends at 1 only up to 2^24: from over that the difference is rounded, and the cut decides.
pub fn lower_and_limit(m: &mut [f32])
    ensures { m.new ≡ lower_limited m.old }
{
    let over = excess(largest(m));
    for m in m.iter_mut() {
        *m = clamp_floor(*m - over, 0.0);
    }
}
