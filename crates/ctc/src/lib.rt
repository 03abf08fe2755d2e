// Collapse and spread of connectionist temporal classification (CTC), as definitions and laws: see specs/.
#![tactic(auto)]
