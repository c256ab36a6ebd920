// The Rust's own text, function by function, as definitions, and that document 01's are the same for every input. No
// code: see specs/ and proofs/.

#![tactic(auto)]
