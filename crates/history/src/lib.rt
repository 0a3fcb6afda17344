// Lists of calls, the plain ledger and the third demand; definitions and laws alone, in specs/ and proofs/.
#![tactic(auto)]
