// What the calls of the mode of large arcs inherit from those of the old mode, as theorems in specs/. There is no code here.
#![tactic(auto)]
