// The public types of the access base: what the definitions in specs/ speak of and what the code passes by
// value.
#![tactic(auto)]

ghost use Rattle.std.specs.Prelude.{◌≡◌};

use foundation::Interval;

// The bytes of a base, of an object with a subject, of an authorization and of a rule in it.
pub const BASE_BYTES: usize = 27936;

pub const PRIVILEGE_BYTES: usize = 4;

pub const AUTHORIZATION_BYTES: usize = 24;

pub const RULE_BYTES: usize = 28;

// The bytes of 1,024 authorizations, the most that a base has.
pub const BODY_BYTES: usize = 24576;

// The bytes of the longest reply.
pub const REPLY_BYTES: usize = 24001;

// The kinds of requests.
pub const NEW: u32 = 1;

pub const GRANT: u32 = 2;

pub const DENY: u32 = 3;

pub const REVOKE: u32 = 4;

pub const REVOKEP: u32 = 5;

pub const REVOKEN: u32 = 6;

pub const ADDRULE: u32 = 7;

pub const DROPRULE: u32 = 8;

pub const GRANTADM: u32 = 9;

pub const REVOKEADM: u32 = 10;

pub const GRANTREF: u32 = 11;

pub const REVOKEREF: u32 = 12;

// An object with a subject: the object's owner, one of its administrators, or one of its referrers.
#[derive(Clone, Copy, PartialEq, Eq, PartialOrd, Ord)]
pub struct Privilege {
    pub object: u16,
    pub subject: u16,
}

// What the authorizations of one label share.
#[derive(Clone, Copy, PartialEq, Eq)]
pub struct Head {
    pub label: u16,
    pub grantor: u16,
    pub subject: u16,
    pub object: u16,
    pub mode: u8,
    pub negative: bool,
    pub option: bool,
    pub granted: u32,
}

// A temporal authorization (01: a line).
#[derive(Clone, Copy, PartialEq, Eq)]
pub struct Authorization {
    pub head: Head,
    pub interval: Interval,
}

// With their numbers in a rule's bytes.
#[derive(Clone, Copy, PartialEq, Eq)]
pub enum Operator {
    Whenever = 1,
    AsLongAs = 2,
    WheneverNot = 3,
    Unless = 4,
}

// The operator with a number. Whether a number is one is asked apart.
impl From<u8> for Operator {
    ghost use Rattle.model.specs.Requests.{operator_of};

    ghost from_gives = { λ n r. r ≡ operator_of n };

    fn from(n: u8) -> Operator {
        match n {
            1 => Operator::Whenever,
            2 => Operator::AsLongAs,
            3 => Operator::WheneverNot,
            _ => Operator::Unless,
        }
    }
}

impl From<Operator> for u8 {
    ghost use Rattle.model.specs.Encoding.{operator_number};

    ghost from_gives = { λ o n. n ≡ operator_number o };

    fn from(o: Operator) -> u8 {
        o as u8
    }
}

// The option of a rule's right side: with the grant option, without it, or starred.
#[derive(Clone, Copy, PartialEq, Eq)]
pub enum OptionTerm {
    With = 1,
    Without = 0,
    Either = 2,
}

// One side of a rule in the base. A subject, a mode or an object of 0 is the star.
#[derive(Clone, Copy, PartialEq, Eq)]
pub struct Side {
    pub subject: u16,
    pub mode: u8,
    pub object: u16,
    pub negative: bool,
}

// A derivation rule. `grantor` and `option` belong to the right side; a grantor of 0 is the star.
#[derive(Clone, Copy, PartialEq, Eq)]
pub struct Rule {
    pub label: u16,
    pub author: u16,
    pub left: Side,
    pub operator: Operator,
    pub right: Side,
    pub grantor: u16,
    pub option: OptionTerm,
    pub interval: Interval,
}

// A number of a request where a star may stand instead. The star is no number, so that 0 remains out of
// range.
#[derive(Clone, Copy, PartialEq, Eq)]
pub enum Term {
    Any,
    Number(u32),
}

// One side of a rule as a request words it.
#[derive(Clone, Copy, PartialEq, Eq)]
pub struct SideTerms {
    pub subject: Term,
    pub mode: Term,
    pub object: Term,
    pub negative: bool,
}

// A rule as a request words it; its interval is the request's. The operator is its number in the base's
// bytes, 1 to 4.
#[derive(Clone, Copy, PartialEq, Eq)]
pub struct RuleTerms {
    pub left: SideTerms,
    pub operator: u32,
    pub right: SideTerms,
    pub grantor: Term,
    pub option: OptionTerm,
}

// A request of any kind. The kind is a number, so that an unknown one can be said; a field that the kind does
// not name is not looked at.
#[derive(Clone, Copy, PartialEq, Eq)]
pub struct Request {
    pub now: u32,
    pub requester: u32,
    pub kind: u32,
    pub label: u32,
    pub mode: u32,
    pub object: u32,
    pub subject: u32,
    pub interval: Interval,
    pub option: bool,
    pub rule: RuleTerms,
}

// What the question WHEN asks about.
#[derive(Clone, Copy, PartialEq, Eq)]
pub struct Access {
    pub subject: u32,
    pub mode: u32,
    pub object: u32,
}

// What is looked for: an access, positive or denied, from a grantor or from any (0), with an option or with
// either.
#[derive(Clone, Copy, PartialEq, Eq)]
pub struct Pattern {
    pub access: Access,
    pub negative: bool,
    pub grantor: u16,
    pub option: OptionTerm,
}

// The question MAY: an access at an instant.
#[derive(Clone, Copy, PartialEq, Eq)]
pub struct Question {
    pub access: Access,
    pub instant: u32,
}

// The rows of the table of refusals, by their numbers.
#[derive(Clone, Copy, PartialEq, Eq)]
pub enum Row {
    Unreadable = 1,
    NotSound = 2,
    OutOfRange = 3,
    BehindClock = 4,
    BadInterval = 5,
    NoObject = 6,
    NoLabel = 7,
    NotPermitted = 8,
    Uncovered = 9,
    AlreadyThere = 10,
    NotHeld = 11,
    NotStratified = 12,
    Full = 13,
    Barred = 14,
    Circular = 15,
}

// The reply to a request or a question.
#[derive(Clone, Copy, PartialEq, Eq)]
pub enum Reply {
    // accepted, with the new label or 0 and the number of authorizations (01: lines) now in the base
    Done { label: u32, count: u32 },
    // refused with a number of the table
    Refused(u32),
    // refused with 9, and an uncovered instant
    Unsupported(u32),
    Yes,
    No,
    // the number of maximal intervals (01: runs) written to the list
    Runs(u32),
}
