// What the release form says of every answer, as theorems in specs/. There is no code here.
#![tactic(auto)]
