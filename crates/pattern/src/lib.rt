// The bytes of a pattern, sorted into plain, reserved and illegal (01, "The pattern on the card"). A few comparisons for each byte.
#![tactic(auto)]

ghost use Rattle.std.specs.Prelude.{◌≡◌};
ghost use Rattle.pattern.specs.Bytes.{byte_class};

#[derive(Clone, Copy)]
pub enum Class {
    Plain,
    Reserved,
    Illegal,
}

// A form that the project chose: a byte is sorted by a match with ranges.
#[tactic(auto, unfolding(crate::specs::Bytes::byte_class))]
pub fn class_of(b: u8) -> Class
    ensures { result ≡ byte_class b }
{
    match b {
        b'|' | b'*' | b'#' | b'(' | b')' | b'[' | b']' | b'{' | b'}' | b'\\' | b'.' | b'~' => {
            Class::Reserved
        }
        0x20..=0x7E => Class::Plain,
        _ => Class::Illegal,
    }
}
