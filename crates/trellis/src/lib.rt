// Ways through a graph of states, their costs to go, and the extended states of an automaton. There is no code: see specs/.
#![tactic(auto)]
