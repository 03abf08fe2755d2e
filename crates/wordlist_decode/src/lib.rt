// What Decode reads with the form of a word list (document 02, T-05): theorems, in specs/, without code.
#![tactic(auto)]
