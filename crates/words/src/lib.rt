// Words: their orders, and where one stands in another, as definitions and laws. Crates wordorder and wordplaces have the functions on letters,
// crate packing those on packed words. A word is a slice of its letters, the bytes `a` to `z`; the empty word has none.
#![tactic(auto)]
