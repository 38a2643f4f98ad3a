// What is proved of the findings of a pair, as theorems in specs/. There is no code here.
#![tactic(auto)]
