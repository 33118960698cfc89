// The theory of the next mark, in specs/: the least instant above a given one at which something can change,
// because an authorization or a rule starts there or ended right before.
#![tactic(auto)]
