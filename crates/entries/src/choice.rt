// What the kind and the rotor byte of an entry choose: which of the five commands it is, or the refusal. None of the
// entry's numbers is read for it.
ghost use Rattle.std.specs.Prelude.{◌≡◌, ◌<◌};
ghost use Rattle.entries.specs.Choice.{case_of, ChosenBy};

use crate::refusal::Refusal;

// Which command it is. Rotor-out has the lost rotor, 0 to 3, or `NONE_LOST`.
#[derive(Debug, Clone, Copy, PartialEq, Eq)]
pub enum Case {
    Plain,
    ThrustFloor,
    Priority,
    Airmode,
    RotorOut(usize),
}

// The rotor number that stands for all that name none. (No Option: document 01 has a number, and the mix takes it.)
pub const NONE_LOST: usize = 4;

// The case of a kind that names no rotor, 0 to 3.
fn unlost(kind: u8) -> Case
    ensures { kind < 4 → result ≡ case_of kind 0 }
{
    match kind {
        0 => Case::Plain,
        1 => Case::ThrustFloor,
        2 => Case::Priority,
        3..=255 => Case::Airmode,
    }
}

// The kind and the rotor byte choose the case, or the refusal. (By ranges alone: with an arm for each kind, the
// compiler judges an entry by a table of jumps, and takes longer.)
pub fn choose(kind: u8, rotor: u8) -> Result<Case, Refusal>
    ensures { ChosenBy kind rotor result }
{
    match (kind, rotor) {
        (5..=255, 0..=255) => Err(Refusal::BadKind),
        (0..=3, 1..=255) => Err(Refusal::BadRotor),
        (0..=3, 0) => Ok(unlost(kind)),
        (4, 0..=3) => Ok(Case::RotorOut(rotor as usize)),
        (4, 4..=255) => Ok(Case::RotorOut(NONE_LOST)),
    }
}
