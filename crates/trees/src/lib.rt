// Layer 1, trees: no code. Definitions and laws stand in specs/.
#![tactic(auto)]
