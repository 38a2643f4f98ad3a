// The promise on the plant's grid, as theorems in specs/. There is no code here.
#![tactic(auto)]
