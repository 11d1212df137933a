// What is signed for, as theorems over the public definitions: laws alone, no function.
#![tactic(auto)]
