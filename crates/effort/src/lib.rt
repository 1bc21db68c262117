// What a trip is billed for. There is no code here: other crates' contracts and proofs cite specs/ and proofs/.
#![tactic(auto)]
