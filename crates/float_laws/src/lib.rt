// Laws on the kit's model of IEEE 754, for every proof about floats, in specs/. There is no code here.
#![tactic(auto)]
