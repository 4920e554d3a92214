// Document 01's boundary copies A to J, two lists of ledger calls beside them, and the edges of document 02, (ii), as rows of one table that a lone
// statement covers: specs/Rows.antt has the table, proofs/Boundary.antt the statement. Nothing runs here.

#![tactic(auto)]
