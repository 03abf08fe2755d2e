// Automata by their parts, the words that they accept, and the compiled form as their encoding: definitions and laws, in specs/.
#![tactic(auto)]
