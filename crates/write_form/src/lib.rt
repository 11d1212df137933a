// The writer's form of everything in Data, and that what is written in it is read back: definitions and laws alone, no function.
#![tactic(auto)]
