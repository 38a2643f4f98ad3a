// The worked examples of the scope, as theorems in specs/. There is no code here.
#![tactic(auto)]
