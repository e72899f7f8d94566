//! Which texts are zone rules. Each function passes over a part of a rule at the front of a text,
//! and gives what follows, or None where the part does not stand there.
ghost use Rattle.rb_causes.specs.Numbers.{is_digit};
ghost use Rattle.rb_cron.specs.ZoneRules as rules;
ghost use Rattle.std.specs.Char.{is_ascii_alphabetic};
ghost use Rattle.std.specs.List.{prefix_len};
ghost use Rattle.std.specs.Prelude.{◌≡◌, ◌≤◌, ◌-◌, ◌&&◌, option_map, nat_eq, nat_le, length};

/// Whether the text is a zone rule.
pub(crate) fn is_rule(text: &str) -> bool
    ensures { result ≡ rules.is_rule text.now }
{
    text == "UTC" || is_posix_rule(text.as_bytes())
}

fn is_posix_rule(text: &[u8]) -> bool
    ensures { result ≡ rules.ends_text (rules.posix_rule text.now) }
{
    match posix_rule(text) {
        Some(rest) => rest.is_empty(),
        None => false,
    }
}

fn posix_rule(text: &[u8]) -> Option<&[u8]>
    ensures { option_map (λ rest. rest.now) result ≡ rules.posix_rule text.now }
{
    let text = zone_name(text)?;
    let text = offset(text)?;
    if text.is_empty() {
        return Some(text);
    }
    summer(text)
}

/// A name, an optional offset, and when summer time begins and ends.
fn summer(text: &[u8]) -> Option<&[u8]>
    ensures { option_map (λ rest. rest.now) result ≡ rules.summer text.now }
{
    let text = zone_name(text)?;
    let text = if begins_with_sign(b',', text) {
        text
    } else {
        offset(text)?
    };
    let text = change(one(b',', text)?)?;
    change(one(b',', text)?)
}

/// 3 to 6 letters, or 3 to 6 letters, digits, `+` and `-` between `<` and `>`.
fn zone_name(text: &[u8]) -> Option<&[u8]>
    ensures { option_map (λ rest. rest.now) result ≡ rules.zone_name text.now }
{
    if !begins_with_sign(b'<', text) {
        return behind_zone_name(letters_len(text), text);
    }
    let text = one(b'<', text)?;
    let text = behind_zone_name(name_len(text), text)?;
    one(b'>', text)
}

/// What follows a name of so many bytes, which are 3 to 6.
fn behind_zone_name(len: usize, text: &[u8]) -> Option<&[u8]>
    requires { len ≤ length text.now }
    ensures { option_map (λ rest. rest.now) result ≡ rules.behind_zone_name len text.now }
{
    if 3 <= len && len <= 6 {
        Some(&text[len..])
    } else {
        None
    }
}

fn letters_len(text: &[u8]) -> usize
    ensures value { result ≡ prefix_len is_ascii_alphabetic text.now }
    ensures bound { result ≤ length text.now }
{
    let mut len = 0;
    for b in text {
        if !b.is_ascii_alphabetic() {
            return len;
        }
        len += 1;
    }
    len
}

fn name_len(text: &[u8]) -> usize
    ensures value { result ≡ prefix_len rules.is_zone_name_byte text.now }
    ensures bound { result ≤ length text.now }
{
    let mut len = 0;
    for b in text {
        if !is_zone_name_byte(*b) {
            return len;
        }
        len += 1;
    }
    len
}

fn is_zone_name_byte(b: u8) -> bool
    ensures { result ≡ rules.is_zone_name_byte b }
{
    b.is_ascii_alphanumeric() || b == b'+' || b == b'-'
}

/// An optional sign and a time.
fn offset(text: &[u8]) -> Option<&[u8]>
    ensures { option_map (λ rest. rest.now) result ≡ rules.offset text.now }
{
    match text {
        [b'+' | b'-', rest @ ..] => time(rest),
        _ => time(text),
    }
}

/// One or two digits up to 24, then optionally `:MM`, and after that optionally `:SS`.
fn time(text: &[u8]) -> Option<&[u8]>
    ensures { option_map (λ rest. rest.now) result ≡ rules.time text.now }
{
    let text = number(1, 24, text)?;
    if !begins_with_sign(b':', text) {
        return Some(text);
    }
    let text = sixtieth(text)?;
    if !begins_with_sign(b':', text) {
        return Some(text);
    }
    sixtieth(text)
}

/// `:` and two digits up to 59.
fn sixtieth(text: &[u8]) -> Option<&[u8]>
    ensures { option_map (λ rest. rest.now) result ≡ rules.sixtieth text.now }
{
    number(2, 59, one(b':', text)?)
}

/// `Mm.w.d`, then optionally `/` and a time.
fn change(text: &[u8]) -> Option<&[u8]>
    ensures { option_map (λ rest. rest.now) result ≡ rules.change text.now }
{
    let text = plain_number(1, 12, one(b'M', text)?)?;
    let text = plain_number(1, 5, one(b'.', text)?)?;
    let text = plain_number(0, 6, one(b'.', text)?)?;
    if !begins_with_sign(b'/', text) {
        return Some(text);
    }
    time(one(b'/', text)?)
}

/// One such byte.
fn one(sign: u8, text: &[u8]) -> Option<&[u8]>
    ensures { option_map (λ rest. rest.now) result ≡ rules.one (nat_eq sign) text.now }
{
    match text {
        [b, rest @ ..] if *b == sign => Some(rest),
        _ => None,
    }
}

fn begins_with_sign(sign: u8, text: &[u8]) -> bool
    ensures { result ≡ rules.begins_with_sign (nat_eq sign) text.now }
{
    match text {
        [b, ..] => *b == sign,
        [] => false,
    }
}

/// So many digits, two at most, that write a number up to the greatest.
fn number(fewest: usize, greatest: u32, text: &[u8]) -> Option<&[u8]>
    requires { 1 ≤ fewest }
    ensures { option_map (λ rest. rest.now) result
        ≡ rules.run_that is_digit (rules.is_number fewest 2 greatest) text.now }
{
    let len = digits_len(text);
    if is_number(fewest, greatest, &text[..len]) {
        Some(&text[len..])
    } else {
        None
    }
}

/// A number without leading zeros.
fn plain_number(least: u32, greatest: u32, text: &[u8]) -> Option<&[u8]>
    ensures { option_map (λ rest. rest.now) result ≡ rules.plain_number least greatest text.now }
{
    let len = digits_len(text);
    if is_plain_number(least, greatest, &text[..len]) {
        Some(&text[len..])
    } else {
        None
    }
}

fn digits_len(text: &[u8]) -> usize
    ensures value { result ≡ prefix_len is_digit text.now }
    ensures bound { result ≤ length text.now }
{
    let mut len = 0;
    for b in text {
        if !b.is_ascii_digit() {
            return len;
        }
        len += 1;
    }
    len
}

fn is_number(fewest: usize, greatest: u32, digits: &[u8]) -> bool
    requires { 1 ≤ fewest }
    ensures { result ≡ rules.is_number fewest 2 greatest digits.now }
{
    match digits {
        [one] => fewest <= 1 && value(*one) <= greatest,
        [ten, one] => fewest <= 2 && 10 * value(*ten) + value(*one) <= greatest,
        _ => false,
    }
}

fn is_plain_number(least: u32, greatest: u32, digits: &[u8]) -> bool
    ensures { result ≡ rules.is_plain_number least greatest digits.now }
{
    match digits {
        [one] => is_within(least, greatest, value(*one)),
        [ten, one] => { *ten != b'0' && is_within(least, greatest, 10 * value(*ten) + value(*one)) }
        _ => false,
    }
}

fn is_within(least: u32, greatest: u32, number: u32) -> bool
    ensures { result ≡ (nat_le least number && nat_le number greatest) }
{
    least <= number && number <= greatest
}

/// The value of a digit.
fn value(digit: u8) -> u32
    ensures value { result ≡ digit - 48 }
    ensures bound { result ≤ 207 }
{
    digit.saturating_sub(b'0') as u32
}
