//! How names and numbers are spelt.
ghost use Rattle.std.specs.Prelude.{◌≡◌};
ghost use Rattle.std.specs.List.{list_all};
ghost use Rattle.hx_text.specs.Spellings.{is_name_byte, is_name, number_of};

/// How many bytes stand behind the first of a name, at most.
const MOST_BEHIND: usize = 62;

/// Whether a byte may stand in a name behind its first.
fn is_name_byte(byte: u8) -> bool
    ensures { result ≡ is_name_byte byte }
{
    byte.is_ascii_alphanumeric() || matches!(byte, b'_' | b'.' | b'-')
}

/// Whether all bytes may.
fn are_name_bytes(bytes: &[u8]) -> bool
    ensures { result ≡ list_all is_name_byte bytes.now }
{
    bytes.iter().all(|b| is_name_byte(*b))
}

/// Whether a text is a name: an ASCII letter, and behind it at most 62 ASCII letters, digits, `_`,
/// `.` and `-`.
#[tactic(auto, using(crate::proofs::Names::name_by_parts))]
pub fn is_name(text: &str) -> bool
    ensures { result ≡ is_name text.now }
{
    match text.as_bytes() {
        [] => false,
        [first, rest @ ..] => first.is_ascii_alphabetic()
            && are_name_bytes(rest)
            && rest.len() <= MOST_BEHIND,
    }
}

/// The number that decimal digits write. They don't begin with `0`, unless that is all.
///
/// `None` is for any other text, and for a number of 2^64 or more.
pub fn read_u64(text: &str) -> Option<u64>
    ensures { result ≡ number_of text.now }
{
    match text.as_bytes().first() {
        Some(b'1'..=b'9') => text.parse().ok(),
        _ if text == "0" => Some(0),
        _ => None,
    }
}
