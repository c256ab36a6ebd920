// One number: the tests, the treatment and the clamps that every mix is made of, for every bit pattern of an f32.
//
// `sanitise`, `clamp_floor` and the clamping in `limit` follow relay-mix-quad, `clamp01` follows relay-mix-multi
// (Apache-2.0, see NOTICE); changed: written in Rattle with contracts, on one `clamp` of our own, and with choices in
// the place of branches.
#![tactic(auto)]

ghost use Rattle.std.specs.Prelude.{◌≡◌, cond};
ghost use Rattle.std.specs.Float.Ieee.{is_nan, ne};
ghost use Rattle.std.specs.Float.Ieee.Scale.{finite};
ghost use Rattle.number.specs.InTurn.{in_turn};
ghost use Rattle.number.specs.Moderate.{moderate};
ghost use Rattle.number.specs.Treat.{treated, clamped, limited, floor_clamp, unit_clamp};

// Document 01's small, a threshold of three rules: the fit scale's for a delta, airmode's for a spread, and the
// solver's for a determinant.
pub const SMALL: f32 = 1.0e-6;

// An f32's bits are three fields (IEEE 754-2019, 3.4): 23 bits of digits, over them 8 of the exponent, and the sign.
// So many numbers the digits can write: 2^23.
const DIGITS: u32 = 0x0080_0000;

// And so many the exponent's field: 2^8.
const EXPONENTS: u32 = 256;

// The exponent's field with every bit set: of an infinity and of a NaN, and of nothing else.
const ALL_ONES: u32 = 255;

// Whether x is neither a NaN nor an infinity, by the exponent's field of its bits. The language has no bits of a NaN,
// so that one is told first, by a comparison that a compiler could leave out again, since the field tells it too, and
// that today's keeps (decisions 130 and 148). This is the one test for it; nothing that calls it looks into it.
// (The library's `is_finite` subtracts x from itself, which an infinity signals at: decision 130.)
pub fn is_finite(x: f32) -> bool
    ensures { result ≡ finite x }
{
    if is_nan(x) {
        return false;
    }
    f32::to_bits(x) / DIGITS % EXPONENTS != ALL_ONES
}

// The exponent's field of 2^125, the least number that is not moderate.
const LARGE: u32 = 252;

// Whether x is finite and under 2^125 in size, by the exponent's field of its bits: sums of three such numbers are
// finite, so that code which has asked this first can leave out what it would test of each.
pub fn is_moderate(x: f32) -> bool
    ensures { result ≡ moderate x }
{
    if is_finite(x) {
        return f32::to_bits(x) / DIGITS % EXPONENTS < LARGE;
    }
    false
}

// Whether x is a NaN, by the library's test: only a NaN differs from itself. (A function of our own all the same, as
// document 01 has it; C compares it by `probes`.)
#[tactic(auto, using(binary32::proofs::Tests::nan_test))]
pub fn is_nan(x: f32) -> bool
    ensures value { result ≡ is_nan x }
    ensures unequal { result ≡ ne x x }
{
    x.is_nan()
}

// a where t holds, else b. Code that is made of choices is straight-line, and so is its proof. (A function and no `if`
// where it is used: both numbers are at hand, and the compiler chooses with no jump, which is quicker: decision 7.)
pub fn pick(t: bool, a: f32, b: f32) -> f32
    ensures { result ≡ cond t a b }
{
    if t { a } else { b }
}

// A torque or a thrust as the mixes take it: a NaN or an infinity counts as +0.
#[tactic(auto, unfolding(crate::specs::Treat::treated))]
pub fn sanitise(x: f32) -> f32
    ensures { result ≡ treated x }
{
    pick(is_finite(x), x, 0.0)
}

// x held to lo..hi, as Rust's `f32::clamp` does it, but for every lo and hi, where the library's asks that lo is not
// over hi: a NaN stays a NaN, and a -0 at a lo of +0 stays -0.
#[tactic(auto, unfolding(crate::specs::Treat::clamped))]
pub fn clamp(x: f32, lo: f32, hi: f32) -> f32
    ensures { result ≡ clamped x lo hi }
{
    pick(x < lo, lo, pick(x > hi, hi, x))
}

// x held to lo..hi, its ends looked at in turn, the lower one in what the upper left: an instruction for each, where
// `clamp`'s choices take three. It is `clamp` of a number where the ends are in order; where lo is over hi the two
// differ.
#[tactic(auto, unfolding(crate::specs::InTurn::in_turn))]
pub fn clamp_in_turn(x: f32, lo: f32, hi: f32) -> f32
    ensures { result ≡ in_turn x lo hi }
{
    let low = pick(x > hi, hi, x);
    pick(low < lo, lo, low)
}

// A thrust or a floor as the mixes take it: treated, then held to 0..1. relay-mix-quad writes it
// `clamp01(sanitise(x))`.
#[tactic(auto, unfolding(crate::specs::Treat::limited))]
pub fn limit(x: f32) -> f32
    ensures { result ≡ limited x }
{
    clamp(sanitise(x), 0.0, 1.0)
}

// A motor's command held to lo..1. What is not finite gives lo: +infinity too, so that an overflow never commands full
// thrust.
#[tactic(auto, unfolding(crate::specs::Treat::floor_clamp))]
pub fn clamp_floor(x: f32, lo: f32) -> f32
    ensures { result ≡ floor_clamp x lo }
{
    pick(is_finite(x), clamp(x, lo, 1.0), lo)
}

// relay-mix-multi's clamp to 0..1: a NaN gives +0, +infinity gives 1. (relay-mix-quad has a private function of the
// same name that passes a NaN on: `clamp(x, 0.0, 1.0)`.)
#[tactic(auto, unfolding(crate::specs::Treat::unit_clamp))]
pub fn clamp01(x: f32) -> f32
    ensures { result ≡ unit_clamp x }
{
    pick(is_nan(x), 0.0, clamp(x, 0.0, 1.0))
}
