// Mathematics that several proofs share: the definitions are in specs/, the laws in proofs/.

#![tactic(auto)]
