// Which record tables the writer takes, and as what: definitions and laws alone, no function.
#![tactic(auto)]
