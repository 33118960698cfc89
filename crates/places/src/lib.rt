// Places: a place is a subject, a mode and an object, by coordinates. Pairs of a subject and an object, and
// modes, are numbered as far as they are reached; a region of places is numbered by them.
#![tactic(auto)]

ghost use Rattle.std.specs.Prelude.{◌≡◌, true, ◌&&◌, ℕ, ◌+◌, ◌*◌, ◌≤◌, ◌<◌, ltb, length, get_or};
ghost use Rattle.places.specs.ReachedNumbers.{used, used_before, modes_below, code_of};
ghost use Rattle.places.specs.ReachedNumbers.{row_index, pair_index, index_object, index_subject};
ghost use Rattle.places.specs.ReachedNumbers.{code_object, code_subject};
ghost use Rattle.places.specs.Needs.{needs_of, both_signs, both_at, either_at};
ghost use Rattle.foundation.specs.BitMasks.{as_bit, bit};
ghost use Rattle.foundation.specs.Tests.{pick};
ghost use Rattle.places.specs.Regions.{free, mode_size, size_of, Within, index_in};

// What is reached: how many subjects, objects and pairs, and as bits which modes.
#[derive(Clone, Copy, PartialEq, Eq)]
pub struct Grid {
    pub subjects: u32,
    pub objects: u32,
    pub pairs: u32,
    pub modes: u32,
}

// Places of which subject, mode and object are named, or free: 255, as in the tables of codes; the definition `free`
// says so, and what lies in a region is said by it.
#[derive(Clone, Copy, PartialEq, Eq)]
pub struct Region {
    pub subject: u8,
    pub mode: u8,
    pub object: u8,
}

// A place.
#[derive(Clone, Copy, PartialEq, Eq)]
pub struct Point {
    pub subject: u32,
    pub mode: u32,
    pub object: u32,
}

// A pair, by the coordinates of its object and its subject.
#[derive(Clone, Copy, PartialEq, Eq)]
pub struct Pair {
    pub object: usize,
    pub subject: usize,
}

// Where the pairs of an object start: pairs lie object by object, `subjects` each.
pub fn row_index(o: usize, subjects: usize) -> usize
    requires { row_index subjects o < 18446744073709551616 }
    ensures { result ≡ row_index subjects o }
{
    o * subjects
}

// Where a pair lies among all.
pub fn pair_index(p: Pair, subjects: usize) -> usize
    requires { pair_index subjects p.object p.subject < 18446744073709551616 }
    ensures { result ≡ pair_index subjects p.object p.subject }
{
    row_index(p.object, subjects) + p.subject
}

// The pair that lies there.
pub fn pair_of_index(j: usize, subjects: usize) -> Pair
    requires { 0 < subjects }
    ensures { (result.object ≡ index_object subjects j) × (result.subject ≡ index_subject subjects j) }
{
    Pair {
        object: j / subjects,
        subject: j % subjects,
    }
}

// The pair with a code: 256 times the object, and the subject.
pub fn pair_of_code(code: u16) -> Pair
    ensures { (result.object ≡ code_object code) × (result.subject ≡ code_subject code) }
{
    Pair {
        object: usize::from(code / 256),
        subject: usize::from(code % 256),
    }
}

// One more where something is needed.
fn counted(n: u16, x: u16) -> u16
    requires { n < 65535 }
    ensures { result ≡ n + as_bit (used x) }
{
    n + u16::from(x != 0)
}

// Numbers the pairs at which something is needed; how many they are.
pub fn number_pairs(need: &[u16], number: &mut [u16]) -> usize
    requires { (length need.now ≤ 65535) × (length number.old ≡ length need.now) }
    ensures { (result ≡ used_before need.now (length need.now))
        × ((j : ℕ) → j < length need.now →
        get_or number.new j 0 ≡ used_before need.now j) }
{
    let mut n = 0;
    for (j, x) in need.iter().enumerate() {
        number[j] = n;
        n = counted(n, *x);
    }
    usize::from(n)
}

// The code of the pair that lies at j.
fn code_at(j: u32, subjects: u32) -> u16
    requires { (0 < subjects) × (subjects ≤ 256) × (j < 256 * subjects) }
    ensures { result ≡ code_of subjects j }
{
    let p = pair_of_index(j as usize, subjects as usize);
    (256 * p.object + p.subject) as u16
}

// Puts the code of each pair at which something is needed to its number.
pub fn list_pairs(need: &[u16], subjects: u32, codes: &mut [u16])
    requires { (0 < subjects) × (subjects ≤ 256) × (length need.now ≤ 256 * subjects)
        × (length codes.old ≡ length need.now) }
    ensures { (j : ℕ) → j < length need.now → used (get_or need.now j 0) ≡ true →
        get_or codes.new (used_before need.now j) 0 ≡ code_of subjects j }
{
    let mut n = 0;
    for (j, x) in need.iter().enumerate() {
        if *x != 0 {
            codes[n] = code_at(j as u32, subjects);
            n += 1;
        }
    }
}

// What is needed at a pair is a word of 16 bits: bit m for mode m, positive, and bit 8 + m for it, denied.
// This is a mode with signs: 1 for positive, 2 for denied, 3 for both.
pub fn needs_of(signs: u16, mode: usize) -> u16
    requires { (signs < 4) × (mode < 8) }
    ensures { result ≡ needs_of signs mode }
{
    (signs % 2 + 256 * (signs / 2)) << mode
}

// A mode, with both signs.
pub fn both_signs(mode: u32) -> u16
    requires { mode < 8 }
    ensures { result ≡ both_signs mode }
{
    257 << mode
}

// Whether a mode is needed with both signs.
pub fn is_needed_both(w: u16, m: u32) -> bool
    requires { m < 8 }
    ensures { result ≡ both_at w m }
{
    ((w & (w >> 8)) >> m) & 1 == 1
}

// The modes that are, as bits.
pub fn modes_with_both(w: u16) -> u64
    ensures { (m : ℕ) → bit m result ≡ ltb m 8 && both_at w m }
{
    u64::from(w & (w >> 8) & 255)
}

// The modes that are needed with either, as bits.
fn either_sign(x: u16) -> u32
    ensures { (k : ℕ) → k < 8 → bit k result ≡ either_at x k }
{
    let y = u32::from(x);
    (y % 256) | (y / 256)
}

// The modes with which something is needed, positive or denied.
pub fn modes_of(need: &[u16]) -> u32
    ensures { (j k : ℕ) → j < length need.now → k < 8 →
        either_at (get_or need.now j 0) k ≡ true → bit k result ≡ true }
{
    let mut all = 0;
    for x in need {
        all |= *x;
    }
    either_sign(all)
}

// How many modes below m are reached. Mostly all are, and counting bits takes longer than to see that.
pub fn rank_of(modes: u32, m: u32) -> u32
    requires { m < 32 }
    ensures { result ≡ modes_below modes m }
{
    let below: u32 = (1 << m) - 1;
    if modes & below == below {
        m
    } else {
        u32::count_ones(modes & below)
    }
}

// The first number where a code is free, else the second.
fn chosen(code: u8, a: u32, b: u32) -> u32
    ensures { result ≡ pick (free code) a b }
{
    if code == 255 { a } else { b }
}

// How many numbers the modes of a region take.
fn mode_size(g: Grid, b: Region) -> u32
    ensures { result ≡ mode_size g b }
{
    chosen(b.mode, u32::count_ones(g.modes), 1)
}

// How many numbers the places of a region take.
pub fn size_of(g: Grid, b: Region) -> u32
    requires { size_of g b < 4294967296 }
    ensures { result ≡ size_of g b }
{
    let many = chosen(b.object, g.pairs, g.subjects);
    let few = chosen(b.object, g.objects, 1);
    chosen(b.subject, many, few) * mode_size(g, b)
}

// The number of a place of a region, n being that of its pair.
pub fn index_in(g: Grid, b: Region, n: u32, x: Point) -> u32
    requires { (size_of g b < 4294967296) × Within g n x × (x.mode < 32) }
    ensures { result ≡ index_in g b n x }
{
    let many = chosen(b.object, n, x.subject);
    let few = chosen(b.object, x.object, 0);
    let m = chosen(b.mode, rank_of(g.modes, x.mode), 0);
    chosen(b.subject, many, few) * mode_size(g, b) + m
}
