// What a reading is: order of paths, rival, best path, outcome, as definitions and laws: see specs/.
#![tactic(auto)]
