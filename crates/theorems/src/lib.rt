#![tactic(auto)]

// No code: the theorems about the model live in specs/.
