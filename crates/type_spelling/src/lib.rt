// The types that are carried, and their type strings: laws alone, no function.
#![tactic(auto)]
