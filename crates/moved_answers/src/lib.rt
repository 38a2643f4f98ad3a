// That a text which is moved to its packed form is listed as it was before, as theorems in specs/. There is no code here.
#![tactic(auto)]
