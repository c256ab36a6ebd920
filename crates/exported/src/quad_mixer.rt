// The quad, exported to C. A state is lent: a mix updates it where it stands, and what it answers is what stands in its
// motors afterwards.
//
// Follows relay-mix-quad's `&mut self` methods (Apache-2.0, see NOTICE); changed: written in Rattle with contracts;
// each is a thin function over the mix by value, exported to C, and returns nothing.
//
// A contract here is that of the function by value, promises and all, said of the state that stands there. The 32 in
// the names is the size of that state in bytes: what was compiled for a state of another size asks for other names,
// and does not link (bindings/declarations holds the one to the other).
ghost use Rattle.std.specs.Prelude.{◌≡◌};
ghost use Rattle.rules.specs.Rows.{quad_rows};
ghost use Rattle.rules.specs.Torque.{torque_of};
ghost use Rattle.quad.specs.Mixes.{PlainGives, ThrustFloorGives, PriorityGives, AirmodeGives, RotorOutGives};
ghost use Rattle.quad.specs.State.{fresh};

use quad::QuadMixer;

// A state as it is, its parts read one by one. A mix has just written them so, and a processor that reads at once what
// was written in parts waits until they have reached its memory. (Plain and thrust-floor go without. Kept
// for its speed: decision 140.)
fn part_by_part(state: QuadMixer) -> QuadMixer
    ensures { result ≡ state }
{
    let QuadMixer {
        last_motors,
        last_torque_scale,
        last_torque,
    } = state;
    QuadMixer {
        last_motors,
        last_torque_scale,
        last_torque,
    }
}

// ---- the state made, and read

// What stood there is not read.
#[unsafe(no_mangle)]
pub extern "C" fn footspandle_quad32_new(state: &mut QuadMixer)
    ensures { state.new ≡ fresh }
{
    *state = QuadMixer::new();
}

#[unsafe(no_mangle)]
pub extern "C" fn footspandle_quad32_last_motors(state: &QuadMixer, motors: &mut [f32; 4])
    ensures { motors.new ≡ state.now.last_motors }
{
    *motors = state.last_motors();
}

#[unsafe(no_mangle)]
pub extern "C" fn footspandle_quad32_last_torque_scale(state: &QuadMixer) -> f32
    ensures { result ≡ state.now.last_torque_scale }
{
    state.last_torque_scale()
}

#[unsafe(no_mangle)]
pub extern "C" fn footspandle_quad32_last_torque(state: &QuadMixer, sums: &mut [f32; 3])
    ensures { sums.new ≡ state.now.last_torque }
{
    *sums = state.last_torque();
}

// ---- the mixes

#[unsafe(no_mangle)]
pub extern "C" fn footspandle_quad32_mix(state: &mut QuadMixer, torque_body: &[f32; 3], thrust: f32)
    ensures { PlainGives state.old torque_body.now thrust state.new }
{
    *state = state.mix(*torque_body, thrust);
}

#[unsafe(no_mangle)]
pub extern "C" fn footspandle_quad32_mix_thrust_floor(
    state: &mut QuadMixer,
    torque_body: &[f32; 3],
    thrust: f32,
    floor: f32,
)
    ensures { ThrustFloorGives state.old torque_body.now thrust floor state.new }
{
    *state = state.mix_thrust_floor(*torque_body, thrust, floor);
}

#[unsafe(no_mangle)]
pub extern "C" fn footspandle_quad32_mix_priority(
    state: &mut QuadMixer,
    torque_body: &[f32; 3],
    thrust: f32,
    floor: f32,
)
    ensures { PriorityGives state.old torque_body.now thrust floor state.new }
{
    *state = part_by_part(state.mix_priority(*torque_body, thrust, floor));
}

#[unsafe(no_mangle)]
pub extern "C" fn footspandle_quad32_mix_airmode(
    state: &mut QuadMixer,
    torque_body: &[f32; 3],
    thrust: f32,
    idle: f32,
)
    ensures { AirmodeGives state.old torque_body.now thrust idle state.new }
{
    *state = part_by_part(state.mix_airmode(*torque_body, thrust, idle));
}

#[unsafe(no_mangle)]
pub extern "C" fn footspandle_quad32_mix_rotor_out(
    state: &mut QuadMixer,
    failed: usize,
    torque_body: &[f32; 3],
    thrust: f32,
    floor: f32,
)
    ensures { RotorOutGives state.old failed torque_body.now thrust floor state.new }
{
    *state = part_by_part(state.mix_rotor_out(failed, *torque_body, thrust, floor));
}

// ---- what motors give

#[unsafe(no_mangle)]
pub extern "C" fn footspandle_motors_to_torque_signs(motors: &[f32; 4], sums: &mut [f32; 3])
    ensures { sums.new ≡ torque_of quad_rows motors.now }
{
    *sums = quad::motors_to_torque_signs(*motors);
}
