// Facts on lists, booleans, orders and loops, each said once: see specs/.
#![tactic(auto)]
