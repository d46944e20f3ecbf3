// Theory only: see specs/ and proofs/.

#![tactic(auto)]
