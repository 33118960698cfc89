// What a withdrawal takes out.
use foundation::Interval;

// A grantor, subject, object, mode and sign, and an interval.
#[derive(Clone, Copy)]
pub struct Named {
    pub grantor: u16,
    pub subject: u16,
    pub object: u16,
    pub mode: u8,
    pub negative: bool,
    pub interval: Interval,
}

// What a withdrawal takes out.
#[derive(Clone, Copy)]
pub enum Cut {
    // the authorizations of a label
    Label(u16),
    // those on an object that a grantor gave
    Grantor { object: u16, grantor: u16 },
    // an interval out of those with that grantor, subject, object, mode and sign
    Name(Named),
}

// The instants from `from` on, before `to`.
#[derive(Clone, Copy)]
pub struct Stretch {
    pub from: u64,
    pub to: u64,
}
