// Definitions and theorems alone: what a package holds, the check of it (refusals 8 and 10 to 15), the facts of acceptance, and how a formula is brought to its short form. No function is here.
#![tactic(auto)]
