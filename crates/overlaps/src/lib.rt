// The pairs of leading words that are to be certified (document 01, 'Overlaps'; document 02, P2), their list and its order. No function: theory only.
#![tactic(auto)]
