//! Numbers in digits.
ghost use Rattle.std.specs.Prelude.{◌≡◌, ◌≤◌, min};
ghost use Rattle.lex_semantics.specs.Reading.{digit_of, value};
ghost use Rattle.lexre_bytes.specs.Limits.{number_cap};

/// A number above this one counts as this one.
const NUMBER_CAP: u32 = 65_536;

/// The number that the digits write, or the cap where that is less.
pub fn capped_value(radix: u32, digits: &[u8]) -> u32
    requires from_one { 1 ≤ radix }
    requires at_most { radix ≤ 16 }
    ensures { result ≡ min number_cap (value radix digits.now) }
{
    let mut number = 0;
    for digit in digits {
        number = (number * radix + digit_of(*digit)).min(NUMBER_CAP);
    }
    number
}

/// The value of a digit, decimal or hexadecimal.
#[tactic(auto, unfolding(lex_semantics::specs::ByteSets::is_digit))]
fn digit_of(digit: u8) -> u32
    ensures value { result ≡ digit_of digit }
    ensures at_most { result ≤ 24 }
{
    let low = u32::from(digit % 16);
    if matches!(digit, b'0'..=b'9') {
        low
    } else {
        low + 9
    }
}
