// What the mixes share: the rows of the quad's four rotors, the rows of a run of floats, and what is made of
// a command before a mix fits it to the motors.

#![tactic(auto)]

pub mod command;
pub mod rows;
