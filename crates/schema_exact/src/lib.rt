// What Statistics gives as schema records, and what the check of schema records accepts: laws alone, no function.
#![tactic(auto)]
