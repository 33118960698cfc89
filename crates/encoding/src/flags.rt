// The flag bytes of authorizations and rules.
ghost use Rattle.std.specs.Prelude.{◌≡◌, ltb};
ghost use Rattle.model.specs.Encoding.{is_negative, has_option, head_flags, option_flags, option_of, rule_flags};

use model::OptionTerm;

// Bit 0 of an authorization's flags: it is a denial.
pub fn is_negative(f: u8) -> bool
    ensures { result ≡ is_negative f }
{
    f & 1 == 1
}

// Bit 1 of an authorization's flags: it has the grant option.
pub fn has_option(f: u8) -> bool
    ensures { result ≡ has_option f }
{
    f & 2 == 2
}

// Whether the other bits of an authorization's flags are clear.
pub fn head_flags_known(f: u8) -> bool
    ensures { result ≡ ltb f 4 }
{
    f & 252 == 0
}

// The flags of an authorization.
pub fn head_flags(negative: bool, option: bool) -> u8
    ensures { result ≡ head_flags negative option }
{
    (negative as u8) | ((option as u8) << 1)
}

// Bits 2 and 3 of a rule's flags: the option of the right side.
pub fn option_of(f: u8) -> OptionTerm
    ensures { result ≡ option_of f }
{
    if f & 8 == 8 {
        return OptionTerm::Either;
    }
    if f & 4 == 4 {
        return OptionTerm::With;
    }
    OptionTerm::Without
}

// Whether the other bits of a rule's flags are clear, and bits 2 and 3 not both set: the flags are below 12.
pub fn rule_flags_known(f: u8) -> bool
    ensures { result ≡ ltb f 12 }
{
    f < 12
}

// Bits 2 and 3 of a rule's flags.
fn option_flags(option: OptionTerm) -> u8
    ensures { result ≡ option_flags option }
{
    match option {
        OptionTerm::With => 4,
        OptionTerm::Without => 0,
        OptionTerm::Either => 8,
    }
}

// The flags of a rule.
pub fn rule_flags(left: bool, right: bool, option: OptionTerm) -> u8
    ensures { result ≡ rule_flags left right option }
{
    (left as u8) | ((right as u8) << 1) | option_flags(option)
}
