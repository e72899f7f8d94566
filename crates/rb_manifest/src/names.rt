//! What a token or a project may be called.
ghost use Rattle.rb_log.specs.Moves.{is_name, is_name_byte};
ghost use Rattle.std.specs.List.{list_all};
ghost use Rattle.std.specs.Prelude.{◌≡◌, ◌&&◌, nat_le};

/// A letter, a digit or one of `_`, `.` and `-`.
fn is_name_byte(byte: u8) -> bool
    ensures { result ≡ is_name_byte byte }
{
    byte.is_ascii_alphanumeric() || byte == b'_' || byte == b'.' || byte == b'-'
}

/// Whether a name may be so long.
fn is_name_length(length: usize) -> bool
    ensures { result ≡ (nat_le 1 length && nat_le length 64) }
{
    1 <= length && length <= 64
}

fn are_name_bytes(bytes: &[u8]) -> bool
    ensures { result ≡ list_all is_name_byte bytes.now }
{
    bytes.iter().all(|byte| is_name_byte(*byte))
}

/// Whether these are 1 to 64 such bytes.
pub(crate) fn is_name(text: &str) -> bool
    ensures { result ≡ is_name text.now }
{
    is_name_length(text.len()) && are_name_bytes(text.as_bytes())
}
