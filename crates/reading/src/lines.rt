// The lines of each form: their fields are read one after the other, and a field that says nothing ends the
// line there.
ghost use Rattle.std.specs.Prelude.{◌≡◌, ◌∷◌, false, option_map};
ghost use Rattle.foundation.specs.Intervals.{interval};
ghost use Rattle.model.specs.Text.{order, asks_may, asks_when, ordering, no_rule, side};
ghost use Rattle.model.specs.Text.{object_line, label_line, privilege_line, interval_line, grant_line, rule_line};
ghost use Rattle.model.specs.Text.{request_line, may_line, when_line};
ghost use Rattle.reading.specs.LineFields.{fields_left, told_with};
ghost use Rattle.reading.specs.ParsedLines.{reader_for};

use crate::fields::Fields;
use crate::words::{
    read_instant, read_kind, read_number, read_operator, read_option, read_option_term, read_sign,
    read_term,
};
use foundation::Interval;
use model::{
    ADDRULE, Access, DENY, DROPRULE, GRANT, NEW, OptionTerm, Question, REVOKE, REVOKEN, REVOKEP,
    Request, RuleTerms, SideTerms, Term,
};

// What every request begins with.
#[derive(Clone, Copy)]
struct Opening {
    now: u32,
    requester: u32,
    kind: u32,
}

// A side of a rule where a request names none.
const NO_SIDE: SideTerms = SideTerms {
    subject: Term::Any,
    mode: Term::Any,
    object: Term::Any,
    negative: false,
};

// A rule where a request names none.
const NO_RULE: RuleTerms = RuleTerms {
    left: NO_SIDE,
    operator: 0,
    right: NO_SIDE,
    grantor: Term::Any,
    option: OptionTerm::Either,
};

impl Opening {
    // The request whose other fields are not named.
    #[inline(always)]
    fn request(self) -> Request
        ensures { order result
            ≡ ordering self.kind self.now self.requester 0 0 0 0 (interval 0 0) false no_rule }
    {
        Request {
            now: self.now,
            requester: self.requester,
            kind: self.kind,
            label: 0,
            mode: 0,
            object: 0,
            subject: 0,
            interval: Interval { start: 0, end: 0 },
            option: false,
            rule: NO_RULE,
        }
    }

    // NEW: an object.
    #[inline(always)]
    fn object_line(self, fields: &mut Fields) -> Option<Request>
        ensures { told_with (option_map order result) (fields_left fields.new)
            ≡ object_line self.kind self.now self.requester (fields_left fields.old) }
    {
        let object = read_number(fields.next()?)?;
        Some(Request {
            object,
            ..self.request()
        })
    }

    // GRANTADM, REVOKEADM, GRANTREF, REVOKEREF: an object and a subject.
    #[inline(always)]
    fn privilege_line(self, fields: &mut Fields) -> Option<Request>
        ensures { told_with (option_map order result) (fields_left fields.new)
            ≡ privilege_line self.kind self.now self.requester (fields_left fields.old) }
    {
        let object = read_number(fields.next()?)?;
        let subject = read_number(fields.next()?)?;
        Some(Request {
            object,
            subject,
            ..self.request()
        })
    }

    // REVOKE, DROPRULE: a label.
    #[inline(always)]
    fn label_line(self, fields: &mut Fields) -> Option<Request>
        ensures { told_with (option_map order result) (fields_left fields.new)
            ≡ label_line self.kind self.now self.requester (fields_left fields.old) }
    {
        let label = read_number(fields.next()?)?;
        Some(Request {
            label,
            ..self.request()
        })
    }

    // DENY, REVOKEP, REVOKEN: mode, object, subject, start and end.
    #[inline(always)]
    fn interval_line(self, fields: &mut Fields) -> Option<Request>
        ensures { told_with (option_map order result) (fields_left fields.new)
            ≡ interval_line self.kind self.now self.requester (fields_left fields.old) }
    {
        let mode = read_number(fields.next()?)?;
        let object = read_number(fields.next()?)?;
        let subject = read_number(fields.next()?)?;
        let start = read_instant(fields.next()?)?;
        let end = read_instant(fields.next()?)?;
        Some(Request {
            mode,
            object,
            subject,
            interval: Interval { start, end },
            ..self.request()
        })
    }

    // GRANT: mode, object, subject, start, end and option.
    #[inline(always)]
    fn grant_line(self, fields: &mut Fields) -> Option<Request>
        requires { self.kind ≡ GRANT }
        ensures { told_with (option_map order result) (fields_left fields.new)
            ≡ grant_line self.now self.requester (fields_left fields.old) }
    {
        let request = self.interval_line(fields)?;
        let option = read_option(fields.next()?)?;
        Some(Request { option, ..request })
    }

    // ADDRULE: the left side, the operator, the right side with its grantor and option, start and end.
    #[inline(always)]
    fn rule_line(self, fields: &mut Fields) -> Option<Request>
        requires { self.kind ≡ ADDRULE }
        ensures { told_with (option_map order result) (fields_left fields.new)
            ≡ rule_line self.now self.requester (fields_left fields.old) }
    {
        let left = side(fields)?;
        let operator = read_operator(fields.next()?)?;
        let right = side(fields)?;
        let grantor = read_term(fields.next()?)?;
        let option = read_option_term(fields.next()?)?;
        let start = read_instant(fields.next()?)?;
        let end = read_instant(fields.next()?)?;
        Some(Request {
            interval: Interval { start, end },
            rule: RuleTerms {
                left,
                operator,
                right,
                grantor,
                option,
            },
            ..self.request()
        })
    }

    // The fields behind the word of a kind.
    #[inline(always)]
    fn order_line(self, fields: &mut Fields) -> Option<Request>
        ensures { told_with (option_map order result) (fields_left fields.new)
            ≡ reader_for self.kind self.now self.requester (fields_left fields.old) }
    {
        match self.kind {
            NEW => self.object_line(fields),
            GRANT => self.grant_line(fields),
            ADDRULE => self.rule_line(fields),
            REVOKE | DROPRULE => self.label_line(fields),
            DENY | REVOKEP | REVOKEN => self.interval_line(fields),
            _ => self.privilege_line(fields),
        }
    }
}

// One side of a rule: subject, mode, object and sign.
#[inline(always)]
fn side(fields: &mut Fields) -> Option<SideTerms>
    ensures { told_with result (fields_left fields.new) ≡ side (fields_left fields.old) }
{
    let subject = read_term(fields.next()?)?;
    let mode = read_term(fields.next()?)?;
    let object = read_term(fields.next()?)?;
    let negative = read_sign(fields.next()?)?;
    Some(SideTerms {
        subject,
        mode,
        object,
        negative,
    })
}

// A request: now, requester, word, fields. The first of them is read already.
#[inline(always)]
pub fn request_line(first: &[u8], fields: &mut Fields) -> Option<Request>
    ensures { told_with (option_map order result) (fields_left fields.new)
        ≡ request_line (first.now ∷ fields_left fields.old) }
{
    let now = read_instant(first)?;
    let requester = read_number(fields.next()?)?;
    let kind = read_kind(fields.next()?)?;
    Opening {
        now,
        requester,
        kind,
    }
    .order_line(fields)
}

// MAY: subject, mode, object and instant.
#[inline(always)]
pub fn may_line(fields: &mut Fields) -> Option<Question>
    ensures { told_with (option_map asks_may result) (fields_left fields.new)
        ≡ may_line (fields_left fields.old) }
{
    let access = when_line(fields)?;
    let instant = read_instant(fields.next()?)?;
    Some(Question { access, instant })
}

// WHEN: subject, mode and object.
#[inline(always)]
pub fn when_line(fields: &mut Fields) -> Option<Access>
    ensures { told_with (option_map asks_when result) (fields_left fields.new)
        ≡ when_line (fields_left fields.old) }
{
    let subject = read_number(fields.next()?)?;
    let mode = read_number(fields.next()?)?;
    let object = read_number(fields.next()?)?;
    Some(Access {
        subject,
        mode,
        object,
    })
}
