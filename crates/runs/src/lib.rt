// Runs: no code, only what it means to go through a list step by step, and the laws of that.

#![tactic(auto)]
