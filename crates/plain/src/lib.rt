// The plain mix: torque before thrust. Follows relay-mix-quad's `mix` (Apache-2.0, see NOTICE); changed: written in
// Rattle with contracts, the loop over the rows as a `map`, and what it shares with the mix of other frames in
// functions of their own.

#![tactic(auto)]

ghost use Rattle.std.specs.Prelude.{◌≡◌};
ghost use Rattle.rules.specs.Rows.{quad_rows};
ghost use Rattle.rules.specs.Plain.{raw_sum, raw_sums, plain_motors};

use lowering::lower_and_limit;
use number::sanitise;
use rotors::command::raw_sum;
use rotors::rows::MIXER_X;

fn raw_sums(torque_body: [f32; 3], thrust: f32) -> [f32; 4]
    ensures { result ≡ raw_sums quad_rows torque_body thrust }
{
    let t = sanitise(thrust);
    let [r, p, y] = torque_body.map(sanitise);
    MIXER_X.map(
        |row|
            ensures { result ≡ raw_sum t r p y row }
        { raw_sum(row, t, r, p, y) },
    )
}

// Torque and thrust to motors in 0..1. Where a motor would pass 1, all are lowered; what is then under 0 is cut.
pub fn motors(torque_body: [f32; 3], thrust: f32) -> [f32; 4]
    ensures { result ≡ plain_motors quad_rows torque_body thrust }
{
    let mut m = raw_sums(torque_body, thrust);
    lower_and_limit(&mut m);
    m
}
