//! Numbers in lines.

ghost use Rattle.std.specs.Prelude.{◌≡◌, ◌≤◌, ◌<◌};
ghost use Rattle.line_fields.specs.Fields.{number_of};

/// The most digits of a number in a line.
pub const MAX_DIGITS: usize = 16;

/// The number that a field spells: one to `most` ASCII digits, of which the first may be zeros. None
/// just where the field is no such digits. Required: `most` is at most [`MAX_DIGITS`]. (Profile.)
pub fn read_digits(field: &[u8], most: usize) -> Option<u64>
    requires { most ≤ MAX_DIGITS }
    ensures { result ≡ number_of most field.now }
{
    if field.is_empty() || field.len() > most {
        return None;
    }
    let mut number = 0u64;
    for digit in field {
        if !digit.is_ascii_digit() {
            return None;
        }
        number = number * 10 + (*digit - b'0') as u64;
    }
    Some(number)
}
