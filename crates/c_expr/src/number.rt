// The value of a number, and whether it is unsigned.
ghost use Rattle.std.specs.Prelude.{◌≡◌};
ghost use Rattle.c_expr.specs.Expressions.{value_in};
ghost use Rattle.token_list.specs.Numbers as spelling;

use token_list::{is_unsigned, number_value};

/// The value of a number's text, and whether it is unsigned. A text that spells no value has 0.
pub(crate) fn number(text: &[u8]) -> (u32, bool)
    ensures { result ≡ (value_in text.now, spelling.is_unsigned text.now (value_in text.now)) }
{
    let value = number_value(text).unwrap_or(0);
    (value, is_unsigned(text, value))
}
