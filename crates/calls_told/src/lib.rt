// Layer 7, calls_told: no code. What the number that a call on bare numbers returns can be and tells, and that the theorems of turns hold of such calls, stands in specs/.
#![tactic(auto)]
