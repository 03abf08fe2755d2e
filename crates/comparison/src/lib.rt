// What Compare reports and promises (document 02, T-04), as definitions and laws, without code. Its answer is the price of the first form's
// reading less that of the second's, or why the input was turned away: `Result<i32, Refusal>`.
#![tactic(auto)]
