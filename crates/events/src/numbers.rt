// Numbers of a script: decimal and hexadecimal fields.
ghost use Rattle.std.specs.Prelude.{◌≡◌, ◌≤◌, length, ltb};
ghost use Rattle.std.specs.Option.{option_map};
ghost use Rattle.events.specs.Numbers.{digit_of, is_numeral, is_decimal, is_hex, value_of, number_if, leading_number};

use crate::places::split_once;

// The number of a decimal field in front of others, and what stands behind the space that ends it.
pub fn leading_number(text: &[u8]) -> Option<(u32, &[u8])>
    ensures { option_map (λ field. (field.0, field.1.now)) result ≡ leading_number text.now }
{
    let (field, rest) = split_once(text, b' ')?;
    let value = decimal(field)?;
    Some((value, rest))
}

// The number of a decimal field, one to nine digits.
#[tactic(auto, using(std::proofs::lemmas::Bool::Decides::nat_tests), unfolding(crate::specs::Numbers::is_decimal))]
pub fn decimal(field: &[u8]) -> Option<u32>
    ensures { result ≡ number_if (is_decimal field.now) (value_of 10 field.now) }
{
    if field.is_empty() || field.len() > 9 {
        return None;
    }
    let value = numeral(field, 10)?;
    Some(value as u32)
}

// The number of a hexadecimal field of some digits, sixteen at most. It has one length where a decimal one has a range; the rest is
// `numeral`.
#[tactic(auto, using(std::proofs::lemmas::Bool::Decides::nat_tests), unfolding(crate::specs::Numbers::is_hex))]
pub fn hexadecimal(field: &[u8], digits: usize) -> Option<u64>
    requires { digits ≤ 16 }
    ensures { result ≡ number_if (is_hex digits field.now) (value_of 16 field.now) }
{
    if field.len() == digits {
        numeral(field, 16)
    } else {
        None
    }
}

// The number of digits in a base.
fn numeral(field: &[u8], base: u64) -> Option<u64>
    requires { (length field.now ≤ 16) × (base ≤ 16) }
    ensures { result ≡ number_if (is_numeral base field.now) (value_of base field.now) }
{
    let mut value = 0;
    for byte in field {
        let digit = digit_of(*byte, base)?;
        value = value * base + digit;
    }
    Some(value)
}

// The digit of a byte in a base, if it is one.
#[tactic(auto, using(std::proofs::lemmas::Bool::Decides::nat_tests), unfolding(crate::specs::Numbers::digit_of))]
fn digit_of(byte: u8, base: u64) -> Option<u64>
    requires { base ≤ 16 }
    ensures { result ≡ number_if (ltb (digit_of byte) base) (digit_of byte) }
{
    let digit = match byte {
        b'0'..=b'9' => byte - b'0',
        b'a'..=b'f' => byte - b'a' + 10,
        _ => return None,
    };
    let digit = u64::from(digit);
    if digit < base { Some(digit) } else { None }
}
