// No code: the theorems about the meanings stand in specs/.
#![tactic(auto)]
