// Calls on a lent record: the statement about lists in which each call comes in either form, by value (crate `ledger`) or lent
// (`engine::huz_claim_in`, `huz_void_in`), and what shows the lent ones right. Nothing runs here.

#![tactic(auto)]
