// Series of calls: no code, only definitions and theorems over `part`.

#![tactic(auto)]
