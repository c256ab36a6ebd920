// The public functions, exported to C: what an autopilot, or a binding of another language, links. Each passes on what
// one function of a crate under it gives, and its contract says the same, by the same definitions.
//
// A state of the quad is lent as the `#[repr(C)]` struct that it is, and a mix updates it where it stands; a wrench, a
// matrix and a run of rows are lent as floats. What is answered is written where the caller says or, for a mix of the
// quad, into the state. Nothing is kept between calls.
//
// The contracts take for granted what a reference is in Rattle, and a caller in C owes it: a pointer that is aligned
// and not null, also where a length of 0 goes with it, to as many elements as the parameter's type or the length says;
// and what is written through one pointer is reached through no other of the same call.

#![tactic(auto)]

mod command_sheet;
mod mixer_n;
mod multi_floor;
mod multi_mixer;
mod quad_mixer;
