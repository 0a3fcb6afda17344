// What a tenant hears in two histories is the same; definitions and laws alone, in specs/ and proofs/.
#![tactic(auto)]
