ghost use Rattle.rb_causes.specs.Numbers.{is_digit, is_decimal, decimal_of};
ghost use Rattle.std.specs.List.{list_all};
ghost use Rattle.std.specs.Prelude.{◌≡◌};

/// More digits are no decimal, so that each one fits in 64 bits.
const MOST_DIGITS: usize = 18;

/// The value of 1 to 18 ASCII digits, and `None` for any other text.
pub fn decimal(s: &str) -> Option<u64>
    ensures { result ≡ decimal_of s.now }
{
    if is_decimal(s) { s.parse().ok() } else { None }
}

fn is_decimal(s: &str) -> bool
    ensures { result ≡ is_decimal s.now }
{
    1 <= s.len() && s.len() <= MOST_DIGITS && are_digits(s.as_bytes())
}

fn are_digits(bytes: &[u8]) -> bool
    ensures { result ≡ list_all is_digit bytes.now }
{
    bytes.iter().all(|b| b.is_ascii_digit())
}
