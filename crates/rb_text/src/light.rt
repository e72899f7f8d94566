ghost use Rattle.rb_text.specs.Light.{ends_a_part, opens_safely, brace_total, is_light};
ghost use Rattle.std.specs.Prelude.{◌≡◌, nat_le};

/// The numbers in braces of a light text add up to no more.
const MOST: u32 = 100;

/// Whether no brace repeats a repetition and the numbers in braces add up to at most 100.
pub fn is_light(text: &str) -> bool
    ensures { result ≡ is_light text.now }
{
    opens_safely(text.as_bytes()) && counts_little(text.as_bytes())
}

/// Whether no brace opens directly behind a part that could be a repetition, or behind a blank.
fn opens_safely(text: &[u8]) -> bool
    ensures { result ≡ opens_safely text.now }
{
    text.iter()
        .zip(text.iter().skip(1))
        .all(|(before, b)| !(ends_a_part(*before) && *b == b'{'))
}

fn ends_a_part(b: u8) -> bool
    ensures { result ≡ ends_a_part b }
{
    matches!(
        b,
        b')' | b'}' | b'*' | b'+' | b'?' | b' ' | b'\t' | b'\r' | b'\n'
    )
}

/// Whether the numbers in braces add up to at most 100.
fn counts_little(text: &[u8]) -> bool
    ensures { result ≡ nat_le (brace_total text.now) 100 }
{
    let mut in_braces = false;
    let mut total = 0;
    let mut number = 0;
    for b in text {
        if !in_braces {
            in_braces = *b == b'{';
        } else if b.is_ascii_digit() {
            number = 10 * number + u32::from(*b - b'0');
            if total + number > MOST {
                return false;
            }
        } else {
            total += number;
            number = 0;
            in_braces = *b != b'}';
        }
    }
    true
}
