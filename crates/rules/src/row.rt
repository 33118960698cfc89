// The steps into a rule.
ghost use Rattle.std.specs.Prelude.{◌≤◌};

// What a rule counts by itself, and the steps into it: each is three times the number of the rule that it
// comes from, and what it counts.
#[derive(Clone, Copy)]
pub struct Row {
    pub own: u16,
    pub steps: [u8; 65],
    pub len: u8,
    ghost few: { len ≤ 65 },
}
