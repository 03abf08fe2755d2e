// What an expression's text means: tree, words, grammar and parsing, as definitions and laws: see specs/.
#![tactic(auto)]
