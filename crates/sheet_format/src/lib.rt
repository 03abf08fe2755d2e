// The text of a sheet, as definitions and laws: see specs/.
#![tactic(auto)]
