// How an expression is opened, how its letters are numbered, and its automaton: definitions and laws, in specs/.
#![tactic(auto)]
