// The records of a body, read one by one from the bytes that hold them.
ghost use Rattle.std.specs.Prelude.{◌≡◌, ◌∷◌, ◌+◌, ◌*◌, ◌≤◌, ◌<◌, Bool, ℕ, List, length, drop};
ghost use Rattle.foundation.specs.Lists.{allb, anyb};
ghost use Rattle.foundation.specs.Bytes.{records};
ghost use Rattle.model.specs.Soundness.{chained};
ghost use Rattle.model.specs.Encoding.{privilege_of, authorization_of, rule_of};
ghost use Rattle.model.specs.Encoding.{privilege_bytes, authorization_bytes, rule_bytes};
ghost use Rattle.fields.specs.Field.{splice};

use crate::bodies::{
    authorization_at, privilege_at, put_authorization, put_privilege, put_rule, rule_at,
};
use model::{AUTHORIZATION_BYTES, Authorization, PRIVILEGE_BYTES, Privilege, RULE_BYTES, Rule};
use std::marker::{Model, PhantomData};

// A record of a body: how many bytes it takes, and how it is read from them.
pub trait Record: Copy {
    const BYTES: usize;

    ghost BYTES: { ℕ };

    ghost of: { List ℕ → Self };

    ghost bytes: { Self → List ℕ };

    // The record at a place.
    fn at(s: &[u8], at: usize) -> Self
        requires { at + BYTES ≤ length s.now }
        ensures { result ≡ of (drop at s.now) };

    // Writes it at a place.
    fn put(self, s: &mut [u8], at: usize)
        requires { at + BYTES ≤ length s.old }
        ensures { s.new ≡ splice at (bytes self) s.old };
}

impl Record for Privilege {
    const BYTES: usize = PRIVILEGE_BYTES;

    ghost BYTES = { 4 };

    ghost of = { privilege_of };

    ghost bytes = { privilege_bytes };

    fn at(s: &[u8], at: usize) -> Privilege {
        privilege_at(s, at)
    }

    fn put(self, s: &mut [u8], at: usize) {
        put_privilege(s, at, self);
    }
}

impl Record for Authorization {
    const BYTES: usize = AUTHORIZATION_BYTES;

    ghost BYTES = { 24 };

    ghost of = { authorization_of };

    ghost bytes = { authorization_bytes };

    fn at(s: &[u8], at: usize) -> Authorization {
        authorization_at(s, at)
    }

    fn put(self, s: &mut [u8], at: usize) {
        put_authorization(s, at, self);
    }
}

impl Record for Rule {
    const BYTES: usize = RULE_BYTES;

    ghost BYTES = { 28 };

    ghost of = { rule_of };

    ghost bytes = { rule_bytes };

    fn at(s: &[u8], at: usize) -> Rule {
        rule_at(s, at)
    }

    fn put(self, s: &mut [u8], at: usize) {
        put_rule(s, at, self);
    }
}

// The first `count` records of some bytes. Contracts see the list of them.
#[derive(Drop)]
pub struct Records<'a, R: Record> {
    bytes: &'a [u8],
    count: usize,
    read_as: PhantomData<R>,
}

impl<'a, R: Record> Model for Records<'a, R> {
    ghost Value = { List R };

    ghost view = { λ b. records R.BYTES R.of b.count b.bytes.now };

    ghost invariant = { λ b. b.count * R.BYTES ≤ length b.bytes.now };
}

impl<'a, R: Record> Records<'a, R> {
    pub fn new(bytes: &'a [u8], count: usize) -> Records<'a, R>
        requires { count * R.BYTES ≤ length bytes.now }
        ensures { result ≡ records R.BYTES R.of count bytes.now }
    {
        Records {
            bytes,
            count,
            read_as: PhantomData,
        }
    }

    // How many they are.
    pub fn len(&self) -> usize
        ensures { result ≡ length self.now }
    {
        self.count
    }

    // The i-th.
    pub fn get(&self, i: usize) -> R
        requires { i < length self.now }
        ensures { drop i self.now ≡ result ∷ drop (i + 1) self.now }
    {
        R::at(self.bytes, i * R::BYTES)
    }

    // Whether one of them passes a test.
    pub fn any<F: Fn(R) -> bool>(&self, test: F) -> bool
        requires { F.IsAlwaysCallable test }
        ensures { (p : R → Bool) → ((r : R) (b : Bool) → F.post test r b → b ≡ p r) →
            result ≡ anyb p self.now }
    {
        for i in 0..self.len() {
            if test(self.get(i)) {
                return true;
            }
        }
        false
    }

    // Whether each of them does.
    pub fn all<F: Fn(R) -> bool>(&self, test: F) -> bool
        requires { F.IsAlwaysCallable test }
        ensures { (p : R → Bool) → ((r : R) (b : Bool) → F.post test r b → b ≡ p r) →
            result ≡ allb p self.now }
    {
        for i in 0..self.len() {
            if !test(self.get(i)) {
                return false;
            }
        }
        true
    }

    // Whether each of them and the next pass a test.
    pub fn is_chained<F: Fn(R, R) -> bool>(&self, test: F) -> bool
        requires { F.IsAlwaysCallable test }
        ensures { (p : R → R → Bool) → ((q r : R) (b : Bool) → F.post test q r b → b ≡ p q r) →
            result ≡ chained p self.now }
    {
        for i in 1..self.len() {
            if !test(self.get(i - 1), self.get(i)) {
                return false;
            }
        }
        true
    }
}
