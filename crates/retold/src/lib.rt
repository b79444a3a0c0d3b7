// Layer 3, retold: pure; what the readers and writers of records come to, over their promises.
#![tactic(auto)]
