#![tactic(auto)]

// No code: the number format as whole numbers. The definitions stand in specs/, the laws in proofs/.
