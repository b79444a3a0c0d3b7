// Layer 1, turns: no code. Its laws stand in specs/.
#![tactic(auto)]
