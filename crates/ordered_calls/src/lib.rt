// Layer 5, ordered_calls: pure; what the promise of the ordered call means, at one call and at a chain of calls.
#![tactic(auto)]
