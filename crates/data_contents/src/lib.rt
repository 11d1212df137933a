// What Data holds, read as a whole, and that the walk lists exactly that: definitions and laws alone, no function.
#![tactic(auto)]
