// That the rule over cells is best for schedules that name rows: the theorems of demand 3 for rows of several cells.
// Proofs only.
#![tactic(auto)]
