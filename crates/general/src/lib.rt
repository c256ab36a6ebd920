#![tactic(auto)]

// Laws of general use, which know nothing of rotors or sheets: lists, runs that a loop fills, and what it is for a
// contract to determine its answer. No code: see specs/ and proofs/.
