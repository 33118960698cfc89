// Replies printed as text into a lent buffer that the text fits. Each function prints at a place, alters no
// other byte, and gives the place behind.
#![tactic(auto)]

ghost use Rattle.std.specs.Prelude.{◌≡◌, ◌++◌, ◌+◌, ◌*◌, ◌≤◌, length, take, drop};
ghost use Rattle.foundation.specs.Intervals.{interval};
ghost use Rattle.model.specs.Text.{ascii, decimal, print_instant, print_run, print_more, print_runs, print_reply};
ghost use Rattle.model.specs.Session.{pairs_of, runs_of};
ghost use Rattle.printing.specs.Print.{Printed, RunsIn, RunsFit, most_runs, longest_reply};

use model::Reply;

// Prints a text.
fn put_bytes(out: &mut [u8], at: usize, text: &[u8]) -> usize
    requires { at + length text.now ≤ length out.old }
    ensures { Printed at text.now out.old out.new result }
{
    let end = at + text.len();
    out[at..end].copy_from_slice(text);
    end
}

// Writes a number to the end of a text; where it starts. Its digits are found from the last one back.
pub fn decimal_text(text: &mut [u8; 10], n: u32) -> usize
    requires { length text.old ≡ 10 }
    ensures { (result ≤ 9) × (length text.new ≡ 10) × (drop result text.new ≡ decimal n) }
{
    let mut i = 9;
    let mut rest = n;
    while 10 <= rest {
        text[i] = 48 + (rest % 10) as u8;
        rest = rest / 10;
        i -= 1;
    }
    text[i] = 48 + rest as u8;
    i
}

// Prints a number.
fn put_decimal(out: &mut [u8], at: usize, n: u32) -> usize
    requires { at + length (decimal n) ≤ length out.old }
    ensures { Printed at (decimal n) out.old out.new result }
{
    let mut text = [0u8; 10];
    let i = decimal_text(&mut text, n);
    put_bytes(out, at, &text[i..])
}

// Prints an instant: the last one as `inf`.
fn put_instant(out: &mut [u8], at: usize, t: u32) -> usize
    requires { at + length (print_instant t) ≤ length out.old }
    ensures { Printed at (print_instant t) out.old out.new result }
{
    if t == 4294967295 {
        return put_bytes(out, at, b"inf");
    }
    put_decimal(out, at, t)
}

// Prints an interval.
fn put_run(out: &mut [u8], at: usize, start: u32, end: u32) -> usize
    requires { at + length (print_run (interval start end)) ≤ length out.old }
    ensures { Printed at (print_run (interval start end)) out.old out.new result }
{
    let dash = put_instant(out, at, start);
    let last = put_bytes(out, dash, b"-");
    put_instant(out, last, end)
}

// Prints the first n intervals of a list, each behind a space.
fn put_more(out: &mut [u8], at: usize, list: &[u32], n: usize) -> usize
    requires { (at + length (print_more (pairs_of n list.now)) ≤ length out.old)
        × (2 * n ≤ length list.now) }
    ensures { Printed at (print_more (pairs_of n list.now)) out.old
        out.new result }
{
    let mut end = at;
    let mut i = 0;
    while i < n {
        let run = put_bytes(out, end, b" ");
        end = put_run(out, run, list[2 * i], list[2 * i + 1]);
        i += 1;
    }
    end
}

// Prints the first n intervals of a list, or `none`.
fn put_runs(out: &mut [u8], at: usize, list: &[u32], n: usize) -> usize
    requires { (at + length (print_runs (pairs_of n list.now)) ≤ length out.old)
        × (2 * n ≤ length list.now) }
    ensures { Printed at (print_runs (pairs_of n list.now)) out.old
        out.new result }
{
    if n == 0 {
        return put_bytes(out, at, b"none");
    }
    let more = put_run(out, at, list[0], list[1]);
    put_more(out, more, &list[2..], n - 1)
}

// Prints what a request that is accepted gets: the new label or 0, and how many authorizations there are now.
fn put_done(out: &mut [u8], at: usize, label: u32, count: u32) -> usize
    requires { at + length (ascii "done " ++ decimal label ++ ascii " " ++ decimal count) ≤ length
        out.old }
    ensures { Printed at (ascii "done " ++ decimal label ++ ascii " " ++ decimal count)
        out.old
        out.new result }
{
    let first = put_bytes(out, at, b"done ");
    let gap = put_decimal(out, first, label);
    let second = put_bytes(out, gap, b" ");
    put_decimal(out, second, count)
}

// Prints a refusal.
fn put_refused(out: &mut [u8], at: usize, k: u32) -> usize
    requires { at + length (ascii "refused " ++ decimal k) ≤ length out.old }
    ensures { Printed at (ascii "refused " ++ decimal k) out.old out.new result }
{
    let number = put_bytes(out, at, b"refused ");
    put_decimal(out, number, k)
}

// Prints a reply, and for WHEN the intervals in the list, at the front of a buffer that it fits; how many
// bytes that is.
pub fn put_reply(out: &mut [u8], r: Reply, list: &[u32]) -> usize
    requires { (length (print_reply r (runs_of r list.now)) ≤ length out.old) × RunsIn r list.now }
    ensures { Printed 0 (print_reply r (runs_of r list.now)) out.old
        out.new result }
{
    match r {
        Reply::Done { label, count } => put_done(out, 0, label, count),
        Reply::Refused(k) => put_refused(out, 0, k),
        Reply::Unsupported(_) => put_bytes(out, 0, b"refused 9"),
        Reply::Yes => put_bytes(out, 0, b"yes"),
        Reply::No => put_bytes(out, 0, b"no"),
        Reply::Runs(n) => put_runs(out, 0, list, n as usize),
    }
}

// The same in a buffer that every reply fits.
pub fn print_reply(out: &mut [u8], r: Reply, list: &[u32]) -> usize
    requires { (longest_reply ≤ length out.old) × RunsFit r list.now }
    ensures { (take result out.new ≡ print_reply r (runs_of r list.now))
        × (result ≤ longest_reply)
        × (length out.new ≡ length out.old) }
{
    put_reply(out, r, list)
}

// How many digits a number has.
fn decimal_length(n: u32) -> usize
    ensures { result ≡ length (decimal n) }
{
    let mut i = 9;
    let mut rest = n;
    while 9 < rest {
        rest = rest / 10;
        i -= 1;
    }
    10 - i
}

fn instant_length(t: u32) -> usize
    ensures { result ≡ length (print_instant t) }
{
    if t == 4294967295 {
        return 3;
    }
    decimal_length(t)
}

fn run_length(start: u32, end: u32) -> usize
    ensures { result ≡ length (print_run (interval start end)) }
{
    let first = instant_length(start);
    let second = instant_length(end);
    first + 1 + second
}

// How many bytes the first n intervals of a list are, each behind a space.
fn more_length(list: &[u32], n: usize) -> usize
    requires { (2 * n ≤ length list.now) × (n ≤ most_runs) }
    ensures { result ≡ length (print_more (pairs_of n list.now)) }
{
    let mut k = 0;
    let mut i = 0;
    while i < n {
        let run = run_length(list[2 * i], list[2 * i + 1]);
        k = k + 1 + run;
        i += 1;
    }
    k
}

fn runs_length(list: &[u32], n: usize) -> usize
    requires { (2 * n ≤ length list.now) × (n ≤ most_runs) }
    ensures { result ≡ length (print_runs (pairs_of n list.now)) }
{
    if n == 0 {
        return 4;
    }
    more_length(list, n) - 1
}

// How many bytes a reply is, with the intervals in the list for WHEN.
pub fn reply_length(r: Reply, list: &[u32]) -> usize
    requires { RunsFit r list.now }
    ensures { result ≡ length (print_reply r (runs_of r list.now)) }
{
    match r {
        Reply::Done { label, count } => 6 + decimal_length(label) + decimal_length(count),
        Reply::Refused(k) => 8 + decimal_length(k),
        Reply::Unsupported(_) => 9,
        Reply::Yes => 3,
        Reply::No => 2,
        Reply::Runs(n) => runs_length(list, n as usize),
    }
}
