// Layer 7, axes_told: laws of the axis, level and block calls, on a tree and its elements. No code.
#![tactic(auto)]
