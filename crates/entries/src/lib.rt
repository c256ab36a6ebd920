// The command sheet, entry by entry: where the numbers of a sheet stand, what an entry's kind and rotor byte choose,
// one of five commands or a refusal, and the command.
//
// A sheet comes from outside and is taken as it is: a byte past its end is read as 0, and every function here answers
// for every sheet and every entry number.

#![tactic(auto)]

pub mod choice;
pub mod command;
pub mod layout;
pub mod refusal;
