// The paper's numbers of refusals, and "first that applies", under everything that refuses. No code: see specs/ and
// proofs/.

#![tactic(auto)]
