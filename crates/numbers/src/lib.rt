// Numbers: no code, only laws: of a search through a list, and of a way back, which tells arguments apart.

#![tactic(auto)]
