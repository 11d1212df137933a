// The words of an answer of the C interface: definitions and laws alone, no function.
#![tactic(auto)]
