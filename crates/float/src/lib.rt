// Laws of f32 arithmetic that more than one part leans on. Definitions stand in specs/, laws in proofs/.
#![tactic(auto)]
