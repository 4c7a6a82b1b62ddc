ghost use Rattle.std.specs.Prelude.{◌≡◌, ◌≤◌, IfSome};
ghost use Rattle.std.specs.Fmt.{decimal};
ghost use Rattle.std.specs.Str.{bytes_eq};
ghost use Rattle.site_types.specs.Numbers.{number_up_to, number_between};

use itoa::Buffer;

/// The number, of at most `limit`, that decimal digits spell, without a sign or a leading zero.
pub fn read_number(digits: &[u8], limit: u64) -> Option<u64>
    ensures { result ≡ number_up_to limit digits.now }
{
    let Ok(text) = std::str::from_utf8(digits) else {
        return None;
    };
    let Ok(number) = text.parse::<u64>() else {
        return None;
    };
    if number <= limit && is_decimal_of(number, digits) {
        return Some(number);
    }
    None
}

/// The number, from `least` to `greatest`, that decimal digits spell so.
pub fn read_number_between(digits: &[u8], least: u64, greatest: u64) -> Option<u64>
    ensures number { result ≡ number_between least greatest digits.now }
    ensures within { IfSome result (λ number. number ≤ greatest) }
{
    let number = read_number(digits, greatest)?;
    if number < least {
        return None;
    }
    Some(number)
}

fn is_decimal_of(number: u64, digits: &[u8]) -> bool
    ensures { result ≡ bytes_eq digits.now (decimal number) }
{
    digits == Buffer::new().format(number).as_bytes()
}
