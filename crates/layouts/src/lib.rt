// The bursts: their layouts, what building one and taking it apart come to, and what is claimed of them. Definitions in specs/, theorems in proofs/; no functions.
#![tactic(auto)]
