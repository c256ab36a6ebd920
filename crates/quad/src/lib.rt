// The quad's mixer by value: a command goes in with a state, and the new state, whose motors are the answer, comes out.
//
// Follows relay-mix-quad's QuadMixer (Apache-2.0, see NOTICE); changed: written in Rattle with contracts; a method
// takes the state and gives the new one in the place of changing it where it stands; how each mix comes to its motors
// stands in a crate of its own.
//
// A mix takes its numbers one by one, since these are the Rust's own arguments, by which C and README call it.
//
// What each mix gives is said in specs/Mixes: the motors and the promises by the crate `rules`, and the recorded scale.
// A state keeps the torque that its motors give, beside what the Rust's has (specs/State).

#![tactic(auto)]

ghost use Rattle.std.specs.Prelude.{◌≡◌};
ghost use Rattle.rules.specs.Rows.{quad_rows};
ghost use Rattle.rules.specs.Torque.{torque_of};
ghost use Rattle.quad.specs.Mixes.{PlainGives, ThrustFloorGives, PriorityGives, AirmodeGives, RotorOutGives};
ghost use Rattle.quad.specs.State.{state, fresh};

// The last motors, the torque scale that the last thrust-floor or rotor-out recorded, which the other mixes leave as it
// is, and the torque that the last motors give.
#[repr(C)]
#[derive(Clone, Copy)]
pub struct QuadMixer {
    pub last_motors: [f32; 4],
    pub last_torque_scale: f32,
    pub last_torque: [f32; 3],
}

// Every new state is made here, so that none is without the torque of its motors.
fn state(motors: [f32; 4], scale: f32) -> QuadMixer
    ensures { result ≡ state motors scale }
{
    let torque = torque::torque_of(motors);
    QuadMixer {
        last_motors: motors,
        last_torque_scale: scale,
        last_torque: torque,
    }
}

impl QuadMixer {
    pub fn new() -> QuadMixer
        ensures { result ≡ fresh }
    {
        state([0.0; 4], 1.0)
    }

    pub fn last_motors(self) -> [f32; 4]
        ensures { result ≡ self.last_motors }
    {
        self.last_motors
    }

    // Plain: torque before thrust, and no idle floor, so that a motor may stop.
    pub fn mix(self, torque_body: [f32; 3], thrust: f32) -> QuadMixer
        ensures { PlainGives self torque_body thrust result }
    {
        let m = plain::motors(torque_body, thrust);
        state(m, self.last_torque_scale)
    }

    // Thrust-floor: thrust before torque, each motor in floor..1. The scale that the torque was given at is recorded.
    pub fn mix_thrust_floor(self, torque_body: [f32; 3], thrust: f32, floor: f32) -> QuadMixer
        ensures { ThrustFloorGives self torque_body thrust floor result }
    {
        let m = thrust_floor::motors(torque_body, thrust, floor);
        let motors = m.motors;
        state(motors, m.scale)
    }

    pub fn last_torque_scale(self) -> f32
        ensures { result ≡ self.last_torque_scale }
    {
        self.last_torque_scale
    }

    // The roll, pitch and yaw sums that are stored: what `motors_to_torque_signs` gives of the last motors, without
    // working it out. Of a state that a caller made of any bits, those bits.
    pub fn last_torque(self) -> [f32; 3]
        ensures { result ≡ self.last_torque }
    {
        self.last_torque
    }

    // Priority: thrust before torque, which is given up in two groups, yaw, and roll and pitch; each motor in floor..1.
    // The yaw's scale is found first, with roll and pitch in full. No one number says what was given, so the recorded
    // scale stays.
    pub fn mix_priority(self, torque_body: [f32; 3], thrust: f32, floor: f32) -> QuadMixer
        ensures { PriorityGives self torque_body thrust floor result }
    {
        let motors = priority::motors(torque_body, thrust, floor);
        state(motors, self.last_torque_scale)
    }

    // Airmode: torque before thrust, each motor in idle..1.
    pub fn mix_airmode(self, torque_body: [f32; 3], thrust: f32, idle: f32) -> QuadMixer
        ensures { AirmodeGives self torque_body thrust idle result }
    {
        let motors = airmode::motors(torque_body, thrust, idle);
        state(motors, self.last_torque_scale)
    }

    // Rotor-out: a lost rotor 0 to 3 is +0, and every other motor is in floor..1. The recorded scale becomes 1: what is
    // given is not one scale.
    pub fn mix_rotor_out(
        self,
        failed: usize,
        torque_body: [f32; 3],
        thrust: f32,
        floor: f32,
    ) -> QuadMixer
        ensures { RotorOutGives self failed torque_body thrust floor result }
    {
        let motors = rotor_out::motors(failed, torque_body, thrust, floor);
        state(motors, 1.0)
    }
}

// Roll, pitch and yaw sums of the motors by the rows: the sums themselves, not their signs. Motors of any bits are
// taken as they are, so a sum may be a NaN.
pub fn motors_to_torque_signs(motors: [f32; 4]) -> [f32; 3]
    ensures { result ≡ torque_of quad_rows motors }
{
    torque::torque_of(motors)
}
