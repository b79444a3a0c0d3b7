// Layer 5, worked: document 01's starred cases, no code. One list and one computed statement stand in specs/.
#![tactic(auto)]
