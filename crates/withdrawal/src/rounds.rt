// Rounds over the base in rising granted-at. A round covers the times from T on, before U: it walks the base
// in its order with a place in the body that runs along, puts in what was granted then, and passes over the
// pieces of what was granted before. All that can support an authorization is in the body when its turn
// comes, and what is built never changes again.
ghost use Rattle.std.specs.Prelude.{◌≡◌, true, ◌+◌, ◌≤◌, ◌<◌, length, drop};
ghost use Rattle.foundation.specs.Lists.{allb};
ghost use Rattle.model.specs.Support.{root_in};
ghost use Rattle.model.specs.Withdrawal.{keep, restrict};
ghost use Rattle.laws.specs.KeepFacts.{Sorted};
ghost use Rattle.pieces.specs.Cuts.{spared, CutOrdered};
ghost use Rattle.pieces.specs.Puts.{Makes};
ghost use Rattle.withdrawal.specs.Times.{InTime, pull_of, raise_of, end_of, has_instant};
ghost use Rattle.withdrawal.specs.RoundTurns.{piece_of, leading, in_of, by_of, TurnMakes};
ghost use Rattle.withdrawal.specs.WithdrawalRounds.{stayers};

use encoding::Records;
use model::Authorization;
use pieces::{Body, Cut, Full, Stretch, taken_stretch};
use support::Roots;

// Whether x is a piece of a, as its label and its start tell.
fn is_piece(a: Authorization, x: Authorization) -> bool
    ensures { result ≡ piece_of a x }
{
    let h = a.head;
    let i = a.interval;
    let g = x.head;
    let j = x.interval;
    (g.label == h.label) & (j.start <= i.end)
}

// The place behind the pieces of an authorization that stand from `pos` on.
fn skip(body: &Body, pos: usize, a: Authorization) -> usize
    requires { pos ≤ length body.now }
    ensures { result ≡ pos + leading (piece_of a) (drop pos body.now) }
{
    let built = body.authorizations();
    let m = built.len();
    for p in pos..m {
        if !is_piece(a, built.get(p)) {
            return p;
        }
    }
    m
}

// A turn of the round for some times: the place that the round has come to behind it.
fn take_turn(
    roots: &Roots<'_>,
    cut: Cut,
    times: Stretch,
    a: Authorization,
    body: &mut Body,
    pos: usize,
) -> Result<usize, Full>
    requires { pos ≤ length body.old }
    ensures { TurnMakes pos
        (in_of cut times.from times.to (root_in roots.now.owners roots.now.administrators a.head)
        body.old a)
        (by_of times.from a (drop pos body.old)) body.old result body.new }
{
    let g = a.head.granted as u64;
    if (times.from <= g) & (g < times.to) {
        let root = roots.has(a.head);
        let taken = taken_stretch(cut, a.head);
        return body.put_pieces(pos, a, root, taken);
    }
    if g < times.from {
        return Ok(skip(body, pos, a));
    }
    Ok(pos)
}

// What the withdrawal leaves of what was granted before the end of some times, from what it leaves of what
// was granted before their start.
fn do_round(
    roots: &Roots<'_>,
    authorizations: &Records<'_, Authorization>,
    cut: Cut,
    times: Stretch,
    body: &mut Body,
) -> Result<(), Full>
    requires ordered { times.from ≤ times.to }
    requires cut_ordered { CutOrdered cut }
    requires sorted { Sorted authorizations.now × InTime times.from times.to authorizations.now }
    requires built { body.old ≡ stayers (root_in roots.now.owners roots.now.administrators) cut
        authorizations.now times.from }
    ensures { Makes
        (stayers (root_in roots.now.owners roots.now.administrators) cut authorizations.now times.to)
        result body.new }
{
    let mut pos = 0;
    for i in 0..authorizations.len() {
        pos = take_turn(roots, cut, times, authorizations.get(i), body, pos)?;
    }
    Ok(())
}

// One behind g, if that is earlier than d and g stands behind a later time.
fn pull(t: u64, g: u64, top: u64, d: u64) -> u64
    requires { g < 4294967296 }
    ensures { result ≡ pull_of t g top d }
{
    if (t <= g) & (g < top) {
        return d.min(g + 1);
    }
    d
}

// The latest time so far.
fn raise(t: u64, g: u64, top: u64) -> u64
    ensures { result ≡ raise_of t g top }
{
    if (t <= g) & (top <= g) {
        return g;
    }
    top
}

// Up to where what was granted from t on stands in the order of its times. Where the times rise with the
// labels, that is behind the last instant, and one round does it all.
fn round_end(authorizations: &Records<'_, Authorization>, t: u64) -> u64
    ensures end { result ≡ end_of t authorizations.now 0 4294967296 }
    ensures instants { allb has_instant authorizations.now ≡ true }
{
    let mut top: u64 = 0;
    let mut d: u64 = 4294967296;
    for i in 0..authorizations.len() {
        let g = authorizations.get(i).head.granted as u64;
        d = pull(t, g, top, d);
        top = raise(t, g, top);
    }
    d
}

// The authorizations that a withdrawal leaves, built in `body`. What is built is of the result, so that a
// 1,025th means that the result is too long.
pub fn withdraw(
    roots: &Roots<'_>,
    authorizations: &Records<'_, Authorization>,
    cut: Cut,
    body: &mut Body,
) -> Result<(), Full>
    requires cut_ordered { CutOrdered cut }
    requires sorted { Sorted authorizations.now }
    ensures { Makes
        (restrict (root_in roots.now.owners roots.now.administrators) (λ h. true)
        (keep (spared cut) authorizations.now))
        result body.new }
{
    body.clear();
    let mut t: u64 = 0;
    while t < 4294967296 {
        let u = round_end(authorizations, t);
        let times = Stretch { from: t, to: u };
        do_round(roots, authorizations, cut, times, body)?;
        t = u;
    }
    Ok(())
}
