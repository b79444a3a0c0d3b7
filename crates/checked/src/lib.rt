// Layer 3, checked: no code. The theorems of the check stand in specs/.
#![tactic(auto)]
