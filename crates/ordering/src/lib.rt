// Layer 3, ordering: the theory of the ordered question. It has definitions and laws in specs/ and no code.
#![tactic(auto)]
