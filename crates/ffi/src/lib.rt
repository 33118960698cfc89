// The library for C and Rust: the functions of crate base on numbers, truth values and lent slices.
// They add nothing but the wording: every contract is that of base's function, on the request or question
// that the numbers say. What a caller takes out of a packed reply is said in specs/PackedReplies.antt
// (`refusal-back`, `label-back`, `number-back`) and specs/ReplyBounds.antt (`request-parts` for a
// request, `text-parts` for a line of text, `report-parts` for a rights sheet).
#![tactic(auto)]

ghost use Rattle.std.specs.Prelude.{◌≡◌};
ghost use Rattle.foundation.specs.Intervals.{interval};
ghost use Rattle.model.specs.Soundness.{sound_bytes};
ghost use Rattle.model.specs.Answers.{create, may_answer, when_answer};
ghost use Rattle.model.specs.Simple.{simple_answer};
ghost use Rattle.model.specs.Report.{report_answer};
ghost use Rattle.model.specs.Session.{text_answer};
ghost use Rattle.model.specs.Batch.{Batched, question, questions_in};
ghost use Rattle.records.specs.Records.{records_answer};
ghost use Rattle.ffi.specs.PackedReplies.{term_of, option_from, side_from, access, packed, packed_count};
ghost use Rattle.ffi.specs.PackedReplies.{packed_text, AnsweredBy};

use foundation::Interval;
use model::{Access, OptionTerm, Question, Reply, Request, RuleTerms, SideTerms, Term};

// A star, or else the number.
fn term(any: bool, n: u32) -> Term
    ensures { result ≡ term_of any n }
{
    if any {
        return Term::Any;
    }
    Term::Number(n)
}

// A starred option, or else with or without the grant option.
fn option_term(any: bool, with: bool) -> OptionTerm
    ensures { result ≡ option_from any with }
{
    if any {
        return OptionTerm::Either;
    }
    if with {
        return OptionTerm::With;
    }
    OptionTerm::Without
}

// A reply as one number.
fn pack(r: Reply) -> u64
    ensures { result ≡ packed r }
{
    match r {
        Reply::Done { label, count } => (count as u64) * 4294967296
            + (label as u64) % 65536 * 65536,
        Reply::Refused(n) => (n as u64) % 65536,
        Reply::Unsupported(t) => (t as u64) * 4294967296 + 9,
        Reply::Yes => 4294967296,
        Reply::No => 0,
        Reply::Runs(n) => (n as u64) * 4294967296,
    }
}

// A reply that counts as one number.
fn pack_count(r: Result<u64, u32>) -> u64
    ensures { result ≡ packed_count r }
{
    match r {
        Ok(n) => n % 4294967296 * 4294967296,
        Err(k) => (k as u64) % 65536,
    }
}

// Makes an empty base.
#[unsafe(no_mangle)]
pub extern "C" fn access_base_create(base: &mut [u8]) -> u64
    ensures { (result ≡ packed (create base.old).reply)
        × (base.new ≡ (create base.old).lent) }
{
    pack(base::create(base))
}

// Whether the bytes are a sound base.
#[unsafe(no_mangle)]
pub extern "C" fn access_base_is_sound(base: &[u8]) -> bool
    ensures { result ≡ sound_bytes base.now }
{
    base::is_sound(base)
}

// MAY.
#[unsafe(no_mangle)]
pub extern "C" fn access_base_may(
    base: &[u8],
    subject: u32,
    mode: u32,
    object: u32,
    instant: u32,
) -> u64
    ensures { result ≡ packed (may_answer base.now (question subject mode object instant)) }
{
    let x = Access {
        subject: subject,
        mode: mode,
        object: object,
    };
    pack(base::may(
        base,
        Question {
            access: x,
            instant: instant,
        },
    ))
}

// MAY by the simple engine.
#[unsafe(no_mangle)]
pub extern "C" fn access_base_simple_may(
    base: &[u8],
    subject: u32,
    mode: u32,
    object: u32,
    instant: u32,
) -> u64
    ensures { result ≡ packed (simple_answer base.now (question subject mode object instant)) }
{
    let x = Access {
        subject: subject,
        mode: mode,
        object: object,
    };
    pack(base::simple_may(
        base,
        Question {
            access: x,
            instant: instant,
        },
    ))
}

// WHEN.
#[unsafe(no_mangle)]
pub extern "C" fn access_base_when(
    base: &[u8],
    subject: u32,
    mode: u32,
    object: u32,
    list: &mut [u32],
) -> u64
    ensures { (result ≡ packed (when_answer base.now (access subject mode object) list.old).reply)
        × (list.new ≡ (when_answer base.now (access subject mode object)
        list.old).lent) }
{
    let x = Access {
        subject: subject,
        mode: mode,
        object: object,
    };
    pack(base::when(base, x, list))
}

// The records of a body as numbers, from one on.
#[unsafe(no_mangle)]
pub extern "C" fn access_base_records(base: &[u8], source: u32, first: u32, list: &mut [u32]) -> u64
    ensures { (result ≡ packed (records_answer base.now source first list.old).reply)
        × (list.new ≡ (records_answer base.now source first list.old).lent) }
{
    pack(base::records(base, source, first, list))
}

// A request of any kind. A field that the kind does not name is not looked at.
#[unsafe(no_mangle)]
pub extern "C" fn access_base_request(
    base: &mut [u8],
    kind: u32,
    moment: u32,
    requester: u32,
    label: u32,
    mode: u32,
    object: u32,
    subject: u32,
    start: u32,
    end: u32,
    option: bool,
    left_any_subject: bool,
    left_subject: u32,
    left_any_mode: bool,
    left_mode: u32,
    left_any_object: bool,
    left_object: u32,
    left_negative: bool,
    operator: u32,
    right_any_subject: bool,
    right_subject: u32,
    right_any_mode: bool,
    right_mode: u32,
    right_any_object: bool,
    right_object: u32,
    right_negative: bool,
    any_grantor: bool,
    grantor: u32,
    any_option: bool,
    with_option: bool,
) -> u64
    ensures { AnsweredBy base.old (record {
      now = moment;
      requester = requester;
      kind = kind;
      label = label;
      mode = mode;
      object = object;
      subject = subject;
      interval = interval start end;
      option = option;
      rule = record {
        left = side_from left_any_subject left_subject left_any_mode left_mode left_any_object
            left_object left_negative;
        operator = operator;
        right =
            side_from right_any_subject right_subject right_any_mode right_mode right_any_object
            right_object right_negative;
        grantor = term_of any_grantor grantor;
        option = option_from any_option with_option;
      };
    }) result base.new }
{
    let left = SideTerms {
        subject: term(left_any_subject, left_subject),
        mode: term(left_any_mode, left_mode),
        object: term(left_any_object, left_object),
        negative: left_negative,
    };
    let right = SideTerms {
        subject: term(right_any_subject, right_subject),
        mode: term(right_any_mode, right_mode),
        object: term(right_any_object, right_object),
        negative: right_negative,
    };
    let rule = RuleTerms {
        left: left,
        operator: operator,
        right: right,
        grantor: term(any_grantor, grantor),
        option: option_term(any_option, with_option),
    };
    pack(base::request(
        base,
        Request {
            now: moment,
            requester: requester,
            kind: kind,
            label: label,
            mode: mode,
            object: object,
            subject: subject,
            interval: Interval {
                start: start,
                end: end,
            },
            option: option,
            rule: rule,
        },
    ))
}

// The rights sheet of an object.
#[unsafe(no_mangle)]
pub extern "C" fn access_base_report(base: &[u8], object: u32, page: &mut [u8]) -> u64
    ensures { (result ≡ packed_count (report_answer base.now object page.old).reply)
        × (page.new ≡ (report_answer base.now object page.old).lent) }
{
    pack_count(base::report(base, object, page))
}

// One line of text, its reply as text in the buffer.
#[unsafe(no_mangle)]
pub extern "C" fn access_base_text(base: &mut [u8], line: &[u8], out: &mut [u8]) -> u64
    ensures { (result ≡ packed_text (text_answer base.old line.now out.old))
        × (base.new ≡ (text_answer base.old line.now out.old).lent)
        × (out.new ≡ (text_answer base.old line.now out.old).out) }
{
    let w = base::text(base, line, out);
    (w.count as u64) * 4294967296 + w.refusal as u64
}

// A round's questions, four words each: subject, mode, object, instant. The reply is the refusal's number, or
// 0.
#[unsafe(no_mangle)]
pub extern "C" fn access_base_batch(base: &[u8], words: &[u32], replies: &mut [u8]) -> u64
    ensures { Batched base.now (questions_in words.now) replies.old result
        replies.new }
{
    base::batch_words(base, words, replies) as u64
}
