// An archive whose table was carried as its image goes on as if it had not been; definitions and laws alone, in specs/ and proofs/.
#![tactic(auto)]
