// Layer 5, listed: no code. The theorems of preparing and walking stand in specs/.
#![tactic(auto)]
