// Follows relay-mix-quad's det3 and solve3 (Apache-2.0, see NOTICE); changed: written in Rattle, with contracts; an
// unknown is a function of its own, and so is a matrix with a column replaced; the size of the determinant is the
// library's `abs`, in the place of a mask.

#![tactic(auto)]

ghost use Rattle.std.specs.Prelude.{◌≡◌, ◌<◌, ◌&&◌};
ghost use Rattle.std.specs.Float.Ieee.{lt, neg};
ghost use Rattle.binary32.specs.Arithmetic.{small, absolute};
ghost use Rattle.solve.specs.Solve.{element, determinant, singular, replaced, cramer, solution};

use number::{SMALL, is_finite};
use std::array;

// Determinant of a 3x3 matrix given by its rows, each read once.
pub fn det3(a: [[f32; 3]; 3]) -> f32
    ensures { result ≡ determinant (element a) }
{
    let [b, c, d] = a;
    b[0] * (c[1] * d[2] - c[2] * d[1]) - b[1] * (c[0] * d[2] - c[2] * d[0])
        + b[2] * (c[0] * d[1] - c[1] * d[0])
}

// |x| < SMALL, which is that x lies between -SMALL and SMALL
fn is_small(x: f32) -> bool
    ensures size { result ≡ lt (absolute x) small }
    ensures between { result ≡ lt x small && lt (neg small) x }
{
    x.abs() < SMALL
}

// Whether det is no determinant to divide by.
fn is_singular(det: f32) -> bool
    ensures { result ≡ singular det }
{
    !is_finite(det) || is_small(det)
}

// a with column k replaced by rhs. (By index: after `iter_mut().zip(..)` the library promises nothing of the numbers.)
fn with_column(a: [[f32; 3]; 3], k: usize, rhs: [f32; 3]) -> [[f32; 3]; 3]
    requires { k < 3 }
    ensures { result ≡ replaced a k rhs }
{
    let mut ak = a;
    for (i, v) in rhs.iter().enumerate() {
        ak[i][k] = *v;
    }
    ak
}

// Unknown k of a x = rhs, where det is the determinant of a.
fn unknown(a: [[f32; 3]; 3], k: usize, rhs: [f32; 3], det: f32) -> f32
    requires { k < 3 }
    ensures { result ≡ cramer a k rhs det }
{
    det3(with_column(a, k, rhs)) / det
}

// Solves a x = rhs by Cramer's rule. There is no solution where the determinant is not finite or smaller than SMALL in
// size.
pub fn solve3(a: [[f32; 3]; 3], rhs: [f32; 3]) -> Option<[f32; 3]>
    ensures { result ≡ solution a rhs }
{
    let det = det3(a);
    if is_singular(det) {
        return None;
    }
    Some(array::from_fn(|k| unknown(a, k, rhs, det)))
}
