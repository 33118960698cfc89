// The theory that MAY and WHEN rest on, in specs/ and proofs/: what the rules derive at one mark, found from
// what they derived at the mark before.
#![tactic(auto)]
