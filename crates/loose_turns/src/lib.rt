// Layer 5, loose_turns: pure; what holds of every turn of preparing and of walking, at the public calls.
#![tactic(auto)]
