// What the rules derive over a window of instants between which nothing changes: the theory that the
// evaluation rests on, in specs/ and proofs/.
#![tactic(auto)]
