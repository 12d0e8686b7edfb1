// Series of calls through the ledger: definitions and proofs, no code.

#![tactic(auto)]
