// Words packed into numbers, twelve letters of five bits to a number, definitions and laws alone: packing loses nothing, comparing numbers is
// comparing words, and the numbers of products and parts come from those of their words. No function is here.
#![tactic(auto)]
