// What the other crates need of numbers and lists in general: definitions over the numbers below a bound in specs/, and their laws in
// proofs/.
#![tactic(auto)]
