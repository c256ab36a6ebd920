// The largest and the least of some numbers. Follows the loops that relay-mix-quad's mixes have for them (Apache-2.0,
// see NOTICE); changed: written in Rattle with contracts, as functions of their own over any count.

#![tactic(auto)]

ghost use Rattle.std.specs.Prelude.{◌≡◌};
ghost use Rattle.rules.specs.Extremes.{larger, smaller, largest, least};

use number::pick;

// x where it is strictly larger than the number held.
fn larger(held: f32, x: f32) -> f32
    ensures { result ≡ larger held x }
{
    pick(x > held, x, held)
}

// x where it is strictly smaller than the number held.
fn smaller(held: f32, x: f32) -> f32
    ensures { result ≡ smaller held x }
{
    pick(x < held, x, held)
}

// Of equal ones it is the first, and of none +0.
pub fn largest(m: &[f32]) -> f32
    ensures { result ≡ largest m.now }
{
    m.iter().copied().reduce(larger).unwrap_or(0.0)
}

// Of equal ones it is the first, and of none +0.
pub fn least(m: &[f32]) -> f32
    ensures { result ≡ least m.now }
{
    m.iter().copied().reduce(smaller).unwrap_or(0.0)
}
