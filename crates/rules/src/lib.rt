// The rules of the mixes (document 01, 'The five quad mixes' and 'Any airframe') as definitions over any count of
// rotors, and the laws about them. No code: see specs/ and proofs/.

#![tactic(auto)]
