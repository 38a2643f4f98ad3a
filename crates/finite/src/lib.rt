// That what the kernels and the pair answer is finite, as theorems in specs/. There is no code here.
#![tactic(auto)]
