// The value of a number.
ghost use Rattle.std.specs.Prelude.{◌≡◌, ◌^◌, ◌<◌, ◌≤◌, not, is_none};
ghost use Rattle.token_list.specs.Numbers.{digit_of, value_of, below, plain_value, ends_in_u, number_value, is_unsigned};

fn digit_of(b: u8) -> u8
    ensures value { result ≡ digit_of b }
    ensures small { result ≤ 16 }
{
    match b {
        b'0'..=b'9' => b - b'0',
        b'a'..=b'f' => b - b'a' + 10,
        b'A'..=b'F' => b - b'A' + 10,
        _ => 16,
    }
}

/// The value of digits to this base, where it is below the limit, which is at most two to the 32nd.
fn value_below(limit: u64, base: u8, digits: &[u8]) -> Option<u32>
    requires limit { limit ≤ 2 ^ 32 }
    requires base { base ≤ 16 }
    ensures { result ≡ below limit (value_of base digits.now) }
{
    if digits.is_empty() {
        return None;
    }
    let mut value = 0;
    for b in digits {
        let digit = digit_of(*b);
        if value >= limit {
            return None;
        }
        if digit >= base {
            return None;
        }
        value = value * u64::from(base) + u64::from(digit);
    }
    if value >= limit {
        return None;
    }
    Some(value as u32)
}

fn plain_value(unsigned: bool, text: &[u8]) -> Option<u32>
    ensures { result ≡ plain_value unsigned text.now }
{
    match text {
        [b'0', b'x' | b'X', digits @ ..] => value_below(1 << 32, 16, digits),
        [b'0', _, ..] => value_below(1 << 32, 8, &text[1..]),
        _ => value_below(if unsigned { 1 << 32 } else { 1 << 31 }, 10, text),
    }
}

fn ends_in_u(text: &[u8]) -> bool
    ensures { result ≡ ends_in_u text.now }
{
    match text.last() {
        Some(last) => *last == b'u' || *last == b'U',
        None => false,
    }
}

/// The value of a number token, or none where it isn't supported.
#[tactic(auto, unfolding(crate::specs::Numbers::number_value))]
pub fn number_value(text: &[u8]) -> Option<u32>
    ensures { result ≡ number_value text.now }
{
    if ends_in_u(text) {
        plain_value(true, &text[..text.len() - 1])
    } else {
        plain_value(false, text)
    }
}

/// Whether a number token of this value is unsigned.
pub fn is_unsigned(text: &[u8], value: u32) -> bool
    ensures { result ≡ is_unsigned text.now value }
{
    ends_in_u(text) || value >= 1 << 31
}

/// Whether a number token is supported.
pub fn is_supported_number(text: &[u8]) -> bool
    ensures { result ≡ not (is_none (number_value text.now)) }
{
    number_value(text).is_some()
}
