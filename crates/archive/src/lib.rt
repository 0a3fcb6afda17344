// What holds of all calls together; laws alone, in proofs/.
#![tactic(auto)]
