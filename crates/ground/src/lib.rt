// The geometry of the floor: all its substance is in specs/ and proofs/.
#![tactic(auto)]
