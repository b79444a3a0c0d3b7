// Layer 7, listing_told: no code. The theorem of the listing program stands in specs/.
#![tactic(auto)]
