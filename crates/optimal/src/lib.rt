// Legal schedules, and the theorem that the rule of least slack finds one wherever there is one. Definitions and proofs
// only.
#![tactic(auto)]
