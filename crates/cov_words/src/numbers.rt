//! Numbers in words.

ghost use Rattle.std.specs.Prelude.{◌≡◌, ◌≤◌, IfSome};
ghost use Rattle.std.specs.List.{list_all};
ghost use Rattle.std.specs.Char.{is_ascii_digit};
ghost use Rattle.cov_words.specs.Numbers as spec;

fn are_digits(bytes: &[u8]) -> bool
    ensures { result ≡ list_all is_ascii_digit bytes.now }
{
    bytes.iter().all(|byte| byte.is_ascii_digit())
}

/// One or more decimal digits, without a sign.
fn is_number(text: &str) -> bool
    ensures { result ≡ spec.is_number text.now }
{
    !text.is_empty() && are_digits(text.as_bytes())
}

/// The number that the text writes in decimal digits, if it does and the number is one from `least`
/// to `most`. Zeros may stand before it.
pub fn number_in(least: u64, most: u64, text: &str) -> Option<u64>
    ensures number { result ≡ spec.number_in least most text.now }
    ensures most { IfSome result (λ n. n ≤ most) }
{
    if !is_number(text) {
        return None;
    }
    let Ok(number) = text.parse::<u64>() else {
        return None;
    };
    if number < least {
        return None;
    }
    if most < number {
        return None;
    }
    Some(number)
}
