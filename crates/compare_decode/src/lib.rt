// What Compare has to do with Decode (document 02, T-04): a theorem, in specs/, without code.
#![tactic(auto)]
