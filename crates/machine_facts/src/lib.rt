//! The machine and the ledger, computed row by row from their definitions alone.
//!
//! No code stands here. A row is a theorem that computes; `proofs/Rows.antt` has the words in which rows are written.
#![tactic(auto)]
