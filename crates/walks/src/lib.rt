// Layer 2, walks: no code. Its laws stand in specs/.
#![tactic(auto)]
