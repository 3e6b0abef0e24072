// Decimal numbers of the text.

ghost use Rattle.std.specs.Prelude.{◌≡◌, ◌<◌, ◌≤◌, true, MatchOption};
ghost use Rattle.std.specs.Char.{is_ascii_digit};
ghost use Rattle.std.specs.List.{list_all};
ghost use Rattle.std.specs.Str.{all_ascii_digits};
ghost use Rattle.text.specs.Numbers.{value_of, NumberRead};

use crate::cause::Cause;

fn all_digits(part: &[u8]) -> bool
    ensures { result ≡ list_all is_ascii_digit part.now }
{
    part.iter().all(|b| b.is_ascii_digit())
}

// `parse` is for a `str`, and would take a sign.
/// The number that the digits write, if it is at most `limit`.
fn value_up_to(part: &[u8], limit: u32) -> Option<u32>
    requires { all_ascii_digits part.now ≡ true }
    ensures { MatchOption result (limit < value_of part.now) (λ v. (v ≡ value_of part.now) × (v ≤ limit)) }
{
    let mut value: u64 = 0;
    for b in part {
        value = value * 10 + (*b - b'0') as u64;
        if value > limit as u64 {
            return None;
        }
    }
    Some(value as u32)
}

/// The number that a word writes where one up to `limit` is due.
pub(super) fn number(part: &[u8], limit: u32) -> Result<u32, Cause>
    ensures { NumberRead limit part.now result }
{
    if part.is_empty() || !all_digits(part) {
        return Err(Cause::IllFormed);
    }
    if part.len() > 1 && part[0] == b'0' {
        return Err(Cause::BadNumber);
    }
    value_up_to(part, limit).ok_or(Cause::BadNumber)
}
