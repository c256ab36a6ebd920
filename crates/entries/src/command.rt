// The command of an entry.
ghost use Rattle.std.specs.Prelude.{◌≡◌};
ghost use Rattle.entries.specs.Entry.{command_with};

use crate::choice::Case;
use crate::layout::Entry;

// What every mix is asked for. The torque is roll, pitch and yaw.
#[derive(Clone, Copy)]
pub struct Demand {
    pub thrust: f32,
    pub torque: [f32; 3],
}

// One command of five kinds. `failed` is the lost rotor, 0 to 3, or `NONE_LOST`.
#[derive(Clone, Copy)]
pub enum Command {
    Plain {
        demand: Demand,
    },
    ThrustFloor {
        demand: Demand,
        floor: f32,
    },
    Priority {
        demand: Demand,
        floor: f32,
    },
    Airmode {
        demand: Demand,
        floor: f32,
    },
    RotorOut {
        failed: usize,
        demand: Demand,
        floor: f32,
    },
}

impl<'a> Entry<'a> {
    // The command of an entry, which its kind and rotor byte chose: the numbers are those of the body at its offset.
    // Whether the offset is the right one is not asked here.
    #[tactic(auto, unfolding(crate::specs::Entry::command_with, crate::specs::Entry::command_of))]
    pub fn command(&self, case: Case) -> Command
        ensures { result ≡ command_with self.now.sheet.now self.now.number case }
    {
        let demand = Demand {
            thrust: self.float(0),
            torque: [self.float(1), self.float(2), self.float(3)],
        };
        let floor = self.float(4);
        match case {
            Case::Plain => Command::Plain { demand },
            Case::ThrustFloor => Command::ThrustFloor { demand, floor },
            Case::Priority => Command::Priority { demand, floor },
            Case::Airmode => Command::Airmode { demand, floor },
            Case::RotorOut(failed) => Command::RotorOut {
                failed,
                demand,
                floor,
            },
        }
    }
}
