// Sum lines in their order, definitions and laws alone: the place that is reached, the next line of an item, the next kind, and that what is left of the lines gives the verdict. No function is here.
#![tactic(auto)]
