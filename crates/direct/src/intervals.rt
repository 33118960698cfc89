// WHEN by few authorizations alone: those for the access are collected once, and asked at their own marks.
ghost use Rattle.std.specs.Prelude.{◌≡◌, ◌+◌, ◌*◌, ◌≤◌, ◌<◌, length};
ghost use Rattle.encoding.specs.Format.{authorizations_in};
ghost use Rattle.relevance.specs.Chosen.{authorization_at, picked, Picks};
ghost use Rattle.relevance.specs.Needed.{Choice};
ghost use Rattle.scan.specs.Runs.{ScannedTo};
ghost use Rattle.direct.specs.Among.{is_for, held_among};
ghost use Rattle.direct.specs.Direct.{held_directly};

use encoding::authorization_at;
use lookup::has_instant;
use model::{AUTHORIZATION_BYTES, Access};
use relevance::{Chosen, counted, near_at, next_of, nothing_near};
use scan::{Track, note};

// Whether the i-th authorization is for an access, its sign aside. Its subject and object stand next to each
// other.
fn is_for_at(lines: &[u8], i: usize, x: Access) -> bool
    requires { (i * 24 + 24 ≤ length lines.now) × (x.subject < 65536) × (x.object < 65536) }
    ensures { result ≡ is_for x (authorization_at lines.now i) }
{
    let a = authorization_at(lines, i * AUTHORIZATION_BYTES);
    let h = a.head;
    (h.subject as u32 + 65536 * (h.object as u32) == x.subject + 65536 * x.object)
        & (h.mode as u32 == x.mode)
}

// Writes down the numbers of those of `total` authorizations that are for an access; how many they are.
fn choose_for(lines: &[u8], total: usize, x: Access, which: &mut [u16]) -> usize
    requires { (total * 24 ≤ length lines.now) × (total ≤ length which.old) × (total ≤ 64)
        × (x.subject < 65536) × (x.object < 65536) }
    ensures { Choice (is_for x) lines.now total which.old which.new
        result }
{
    let mut n = 0;
    for i in 0..total {
        which[n] = i as u16;
        n = counted(n, is_for_at(lines, i, x));
    }
    n
}

// Whether a positive one of n authorizations has t, and no denial of them.
fn holds_among(lines: &[u8], which: &[u16], n: usize, t: u32) -> bool
    requires { Picks lines.now which.now n }
    ensures { result ≡ held_among (picked lines.now which.now n) t }
{
    let mut granted = false;
    let mut denied = false;
    for w in &which[..n] {
        let a = authorization_at(lines, *w as usize * AUTHORIZATION_BYTES);
        let live = has_instant(a.interval, t);
        granted |= live & !a.head.negative;
        denied |= live & a.head.negative;
    }
    granted & !denied
}

// Writes the intervals down at which n authorizations say yes, as far as there is room, but for one that is
// open at the end. What they say changes at their marks only.
fn walk_among(lines: &[u8], which: &[u16], n: usize, list: &mut [u32]) -> Track
    requires { Picks lines.now which.now n × (n ≤ 64) }
    ensures { ScannedTo (held_among (picked lines.now which.now n)) 4294967295
        list.old 4294967296 result list.new }
{
    let c = Chosen {
        authorizations: n,
        rules: 0,
        needed: 0,
    };
    let mut w = Track {
        count: 0,
        began: None,
    };
    let mut t: u64 = 0;
    let mut near = nothing_near();
    while t < 4294967296 {
        let at = t as u32;
        w = note(list, w, at, holds_among(lines, which, n, at));
        near = near_at(lines, which, lines, c, near, at);
        t = next_of(near);
    }
    w
}

// Writes the intervals down at which MAY says yes by the authorizations alone, as far as there is room, but
// for one that is open at the end.
pub fn walk_directly(lines: &[u8], total: usize, x: Access, list: &mut [u32]) -> Track
    requires { (total ≤ 64) × (total * 24 ≤ length lines.now) × (x.subject < 65536)
        × (x.object < 65536) }
    ensures { ScannedTo (held_directly (authorizations_in total lines.now) x) 4294967295
        list.old 4294967296 result list.new }
{
    let mut which = [0u16; 64];
    let n = choose_for(lines, total, x, &mut which);
    walk_among(lines, &which, n, list)
}
