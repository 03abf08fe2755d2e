// Word lists (document 02, T-05 and T-07): the theory, in specs/, without code.
#![tactic(auto)]
