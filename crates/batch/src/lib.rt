// A round's questions in one call: each question is put to the base as if alone, and its reply is a byte.
#![tactic(auto)]

ghost use Rattle.std.specs.Prelude.{◌≡◌, true, ◌*◌, ◌/◌, ◌<◌, eqb, length, drop};
ghost use Rattle.foundation.specs.Tests.{pick};
ghost use Rattle.model.specs.Soundness.{sound_bytes};
ghost use Rattle.queries.specs.HandedOn.{HandedOn};
ghost use Rattle.model.specs.Batch.{reply_byte, byte_for, batch_refusal, Batched, question_in, questions_in};

use model::{Access, Question, Reply};
use sections::HANDED;

// A reply as a byte.
fn byte_of(r: Reply) -> u8
    requires { reply_byte r < 256 }
    ensures { result ≡ reply_byte r }
{
    match r {
        Reply::No => 0,
        Reply::Yes => 1,
        Reply::Refused(n) => (16 + n) as u8,
        Reply::Unsupported(t) => 25,
        Reply::Done { label, count } => 16,
        Reply::Runs(n) => 16,
    }
}

// What is the same for all questions, worked out once where there are any.
fn prepare(base: &[u8], questions: usize) -> [u64; HANDED]
    requires { 0 < questions → sound_bytes base.now ≡ true }
    ensures { 0 < questions → HandedOn base.now result }
{
    let mut words = [0u64; HANDED];
    if 0 < questions {
        queries::prepare(base, &mut words);
    }
    words
}

// The byte for one question, over a base that is known to be sound.
fn byte_for(base: &[u8], prepared: &[u64], q: Question) -> u8
    requires { (sound_bytes base.now ≡ true) × HandedOn base.now prepared.now }
    ensures { result ≡ byte_for base.now q }
{
    byte_of(answers::may_prepared(base, prepared, q))
}

// The refusal of the whole call, or 0.
fn batch_refusal(base: &[u8], questions: usize, room: usize) -> u32
    ensures { result ≡ batch_refusal base.now questions room }
{
    if !soundness::is_sound(base) {
        return 2;
    }
    if room < questions {
        return 13;
    }
    0
}

// How many questions are answered: all or none.
fn answered(refusal: u32, questions: usize) -> usize
    ensures { result ≡ pick (eqb refusal 0) questions 0 }
{
    if refusal == 0 {
        return questions;
    }
    0
}

// The question in four words from 4 * i on.
fn question_at(words: &[u32], i: usize) -> Question
    requires { i < length words.now / 4 }
    ensures { result ≡ question_in (drop (4 * i) words.now) }
{
    let at = 4 * i;
    Question {
        access: Access {
            subject: words[at],
            mode: words[at + 1],
            object: words[at + 2],
        },
        instant: words[at + 3],
    }
}

// The replies to the questions, a byte each at the front of the byte list.
pub fn batch(base: &[u8], questions: &[Question], replies: &mut [u8]) -> u32
    ensures { Batched base.now questions.now replies.old result
        replies.new }
{
    let m = questions.len();
    let r = batch_refusal(base, m, replies.len());
    let n = answered(r, m);
    let table = prepare(base, n);
    let prepared: &[u64] = &table;
    for i in 0..n {
        replies[i] = byte_for(base, prepared, questions[i]);
    }
    r
}

// The same for questions in words, four a question.
pub fn batch_words(base: &[u8], words: &[u32], replies: &mut [u8]) -> u32
    ensures { Batched base.now (questions_in words.now) replies.old result
        replies.new }
{
    let m = words.len() / 4;
    let r = batch_refusal(base, m, replies.len());
    let n = answered(r, m);
    let table = prepare(base, n);
    let prepared: &[u64] = &table;
    for i in 0..n {
        replies[i] = byte_for(base, prepared, question_at(words, i));
    }
    r
}
