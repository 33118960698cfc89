#![tactic(auto)]

// No code: the laws of requests, and of what an answer rests on, that the crates above need live in specs/.
