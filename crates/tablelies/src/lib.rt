// What the readers of packages and formulas leave in slices is what the table's functions ask: words of the letters `a` to `z`, 1,024 terms at
// most. Laws alone; no function is here.
#![tactic(auto)]
