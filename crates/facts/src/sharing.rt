// Rules that look for the same share a table: the first of them has it. It has the places of their right
// sides, where these are the same, or all places.
ghost use Rattle.std.specs.Prelude.{◌≡◌, true, ◌↔◌, ℕ, ◌+◌, ◌*◌, ◌≤◌, ◌<◌, length, get_or, MatchOption};
ghost use Rattle.foundation.specs.BitMasks.{bit};
ghost use Rattle.masks.specs.RuleMasks.{RulesIn};
ghost use Rattle.tables.specs.TableLayout.{SmallGrid};
ghost use Rattle.facts.specs.Sharing.{SameKind, SharesTable, TablesEnough, TablesShared};
ghost use Rattle.facts.specs.Sharing.{TablesArranged};

use crate::TablePlan;
use encoding::rule_at;
use masks::with_if;
use model::{RULE_BYTES, Rule};
use places::Grid;
use rules::fits_option;
use tables::{lay_all, region_at};
use words::ones;

// Whether the same fits the right sides of two rules, but for the access.
fn is_same_kind(q: Rule, r: Rule) -> bool
    ensures { (result ≡ true) ↔ SameKind q r }
{
    let with = fits_option(q.option, true) == fits_option(r.option, true);
    let without = fits_option(q.option, false) == fits_option(r.option, false);
    (q.right.negative == r.right.negative) & (q.grantor == r.grantor) & with & without
}

// Whether two rules can share a table.
fn shares_table(body: &[u8], right: &[u8], c: u32, d: u32) -> bool
    requires { (c < 64) × (d < 64) × (c * 28 + 28 ≤ length body.now) × (d * 28 + 28 ≤ length body.now)
        × (256 ≤ length right.now) }
    ensures { (result ≡ true) ↔ SharesTable body.now right.now c d }
{
    let i = c as usize;
    let j = d as usize;
    let kind = is_same_kind(rule_at(body, i * RULE_BYTES), rule_at(body, j * RULE_BYTES));
    kind & (region_at(right, i) == region_at(right, j))
}

// The first rule of a mask that rule c can share a table with.
fn first_sharing(body: &[u8], right: &[u8], rules: u64, c: u32) -> Option<u32>
    requires { RulesIn rules body.now × (c < 64) × (c * 28 + 28 ≤ length body.now)
        × (256 ≤ length right.now) }
    ensures { MatchOption result
        ((i : ℕ) → bit i rules ≡ true → SharesTable body.now right.now c i → ⊥)
        (λ d. (bit d rules ≡ true) × SharesTable body.now right.now c d) }
{
    ones(rules).find(|d| shares_table(body, right, c, *d))
}

// Of the rules of a mask that can share a table the first: those that have one.
fn rules_with_tables(body: &[u8], right: &[u8], rules: u64) -> u64
    requires { RulesIn rules body.now × (256 ≤ length right.now) }
    ensures { TablesEnough body.now right.now rules result }
{
    let mut tables = 0;
    for c in ones(rules) {
        let alone = first_sharing(body, right, tables, c).is_none();
        tables = with_if(tables, c, alone);
    }
    tables
}

// Lets each rule of a mask that has no table look at that of another: the table starts there.
fn share_starts(body: &[u8], right: &[u8], rules: u64, tables: u64, first: &mut [u64])
    requires { RulesIn rules body.now × (256 ≤ length right.now) × (64 ≤ length first.old)
        × TablesEnough body.now right.now rules tables }
    ensures { TablesShared body.now right.now first.new rules tables
        × ((c : ℕ) → bit c tables ≡ true → get_or first.new c 0 ≡ get_or first.old c 0)
        × (length first.new ≡ length first.old) }
{
    let rest = rules - (rules & tables);
    for c in ones(rest) {
        if let Some(d) = first_sharing(body, right, tables, c) {
            first[c as usize] = first[d as usize];
        }
    }
}

// Lays out all tables: one for each rule of a mask, of its right side, or one of all places for each kind of
// them, where that takes fewer fields.
pub fn lay_tables(body: &[u8], right: &[u8], rules: u64, g: Grid, first: &mut [u64]) -> TablePlan
    requires { RulesIn rules body.now × (256 ≤ length right.now) × (64 ≤ length first.old)
        × SmallGrid g }
    ensures { TablesArranged body.now right.now rules g first.new result
        × (length first.new ≡ length first.old) }
{
    let most = lay_all(right, rules, g, first);
    if rules != 0 {
        let every = [255u8; 256];
        let kinds = rules_with_tables(body, &every, rules);
        let fields = lay_all(&every, kinds, g, first);
        if fields < most {
            share_starts(body, &every, rules, kinds, first);
            return TablePlan {
                tables: kinds,
                wide: true,
                fields,
            };
        }
        lay_all(right, rules, g, first);
    }
    TablePlan {
        tables: rules,
        wide: false,
        fields: most,
    }
}
