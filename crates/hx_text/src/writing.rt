//! Texts and numbers that are written over bytes, from a place on.
ghost use Rattle.std.specs.Prelude.{◌+◌, ◌/◌, ◌%◌, ◌<◌, ◌≤◌, ◌∷◌, [], decimal, length};
ghost use Rattle.hx_text.specs.Texts.{Writes};

/// Writes a text, and gives the place behind it.
pub(crate) fn write_str(bytes: &mut [u8], at: usize, text: &str) -> usize
    requires { at + length text.now ≤ length bytes.old }
    ensures { Writes text.now at bytes.old result bytes.new }
{
    let end = at + text.len();
    bytes[at..end].copy_from_slice(text.as_bytes());
    end
}

/// Writes two digits.
fn write_pair(bytes: &mut [u8], at: usize, n: u64) -> usize
    requires { (n < 100) × (at + 2 ≤ length bytes.old) }
    ensures { Writes ((48 + n / 10) ∷ (48 + n % 10) ∷ []) at bytes.old result bytes.new }
{
    bytes[at] = b'0' + (n / 10) as u8;
    bytes[at + 1] = b'0' + (n % 10) as u8;
    at + 2
}

/// Writes a number of one or two digits.
fn write_short(bytes: &mut [u8], at: usize, n: u64) -> usize
    requires { (n < 100) × (at + length (decimal n) ≤ length bytes.old) }
    ensures { Writes (decimal n) at bytes.old result bytes.new }
{
    if n < 10 {
        bytes[at] = b'0' + n as u8;
        return at + 1;
    }
    write_pair(bytes, at, n)
}

/// Writes a number of one to four digits.
fn write_middle(bytes: &mut [u8], at: usize, n: u64) -> usize
    requires { (n < 10000) × (at + length (decimal n) ≤ length bytes.old) }
    ensures { Writes (decimal n) at bytes.old result bytes.new }
{
    if n < 100 {
        return write_short(bytes, at, n);
    }
    let between = write_short(bytes, at, n / 100);
    write_pair(bytes, between, n % 100)
}

/// Writes a number of three digits or more. Where it has more than six, all but the last two are
/// written by a call of itself.
fn write_long(bytes: &mut [u8], at: usize, n: u64) -> usize
    requires { (100 ≤ n) × (at + length (decimal n) ≤ length bytes.old) }
    ensures { Writes (decimal n) at bytes.old result bytes.new }
{
    if n < 1_000_000 {
        let between = write_middle(bytes, at, n / 100);
        return write_pair(bytes, between, n % 100);
    }
    let between = write_long(bytes, at, n / 100);
    write_pair(bytes, between, n % 100)
}

/// Writes a number's decimal digits, and gives the place behind them. Most numbers are short, and
/// need no recursion.
pub(crate) fn write_u64(bytes: &mut [u8], at: usize, n: u64) -> usize
    requires { at + length (decimal n) ≤ length bytes.old }
    ensures { Writes (decimal n) at bytes.old result bytes.new }
{
    if n < 10_000 {
        return write_middle(bytes, at, n);
    }
    write_long(bytes, at, n)
}
