// What a buffer holds after a write into it: the definitions are in specs/, their laws in proofs/.

#![tactic(auto)]
