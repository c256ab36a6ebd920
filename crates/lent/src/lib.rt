// What is proved of a function over a lent struct that is thin: it calls one that takes the struct by value, and stores
// what that gives, or hands it on. It knows nothing of rotors or sheets. No code: see proofs/.
#![tactic(auto)]
