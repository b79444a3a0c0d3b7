// Layer 7, fits_laws: theorems on the ordered question in turns, and no code.
#![tactic(auto)]
