// The fit scale over lent bases and deltas of any count. Follows relay-mix-quad's `scale_to_fit` (Apache-2.0, see
// NOTICE); changed: written in Rattle with a contract, over slices in the place of arrays of four, with one quotient
// for both signs of a delta, and with a look first whether any motor puts a limit under 1.

#![tactic(auto)]

ghost use Rattle.std.specs.Prelude.{◌≡◌, false};
ghost use Rattle.std.specs.Float.Ieee.{lt};
ghost use Rattle.binary32.specs.Arithmetic.{1f};
ghost use Rattle.fit.specs.Cut.{limit_of, is_cut};
ghost use Rattle.fit.specs.Fit.{tightened, fit_scale, Scaled};

use number::{SMALL, pick};

// The limit that a motor with base b and delta d puts on the scale, or 1 where the delta is too small to put one. The
// room that the delta uses up is that to the ceiling or that to the floor; dividing it by the delta's size is one
// quotient for both signs. (No Option for none: without a branch the compiler takes four motors at once.)
fn limit_of(b: f32, d: f32, floor: f32) -> f32
    ensures { result ≡ limit_of floor b d }
{
    let up = d > SMALL;
    let room = pick(up, 1.0 - b, b - floor);
    let size = pick(up, d, -d);
    pick(size > SMALL, room / size, 1.0)
}

// The scale held, which is at most 1, after a motor more: its limit, if that is strictly smaller.
fn tighten(s: f32, b: f32, d: f32, floor: f32) -> f32
    requires { lt 1f s ≡ false }
    ensures { result ≡ tightened floor s b d }
{
    let limit = limit_of(b, d, floor);
    pick(limit < s, limit, s)
}

// Whether some motor's limit is under 1. No step waits for the one before it, so that the compiler takes four motors at
// once.
fn is_cut(base: &[f32], delta: &[f32], floor: f32) -> bool
    ensures { result ≡ is_cut floor base.now delta.now }
{
    let mut cut = false;
    for (b, d) in base.iter().zip(delta) {
        cut |= limit_of(*b, *d, floor) < 1.0;
    }
    cut
}

// The smallest of the limits, in the order of the motors. It starts at 1 and only goes down, so an end value that is
// not finite is negative, and becomes +0 with the others.
fn smallest(base: &[f32], delta: &[f32], floor: f32) -> f32
    ensures { result ≡ fit_scale floor base.now delta.now }
{
    let mut s = 1.0;
    for (b, d) in base.iter().zip(delta) {
        s = tighten(s, *b, *d, floor);
    }
    pick(s < 0.0, 0.0, s)
}

// How much of their deltas the motors can take together: the smallest of their limits, at most 1. What
// base + scale * delta still passes floor..1 by, through rounding or a delta too small to put a limit, is left to the
// caller's floor clamp. Where the two slices differ in length, the walk goes as far as the shorter one.
//
// Most commands of a flight fit, and then no limit is under 1: that is seen first, since it is quick.
// (Two slices, as the Rust has two arrays: no caller has pairs, each has bases and deltas as lists of their own.)
pub fn scale(base: &[f32], delta: &[f32], floor: f32) -> f32
    ensures { Scaled floor base.now delta.now result }
{
    if is_cut(base, delta, floor) {
        return smallest(base, delta, floor);
    }
    1.0
}
