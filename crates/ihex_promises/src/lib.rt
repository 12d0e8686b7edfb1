// What the writer and the reader of Intel HEX promise together. No code.

#![tactic(auto)]
