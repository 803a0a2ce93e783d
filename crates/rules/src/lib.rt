// The paper's rules are definitions in specs/ and theorems on them in proofs/: no code stands here.
#![tactic(auto)]
