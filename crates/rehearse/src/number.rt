//! Numbers of events.

ghost use Rattle.std.specs.Prelude.{◌≡◌, ◌≤◌, decimal};
ghost use Rattle.rehearse.specs.Numbers.{Finds, IsSmall};

use txt_core::digit;

const DECIMAL: u8 = 10;

/// The most digits of a number: as many as the last moment of the clock has.
const MOST_DIGITS: usize = 12;

/// The number of these digits, which have no extra zero in front; `None` where they are no number, or
/// more than twelve digits.
pub fn read_number(digits: &[u8]) -> Option<u64>
    ensures { Finds (λ n. IsSmall n × (digits.now ≡ decimal n)) result }
{
    if digits.is_empty() || digits.len() > MOST_DIGITS {
        return None;
    }
    if digits[0] == b'0' && digits.len() > 1 {
        return None;
    }
    let mut number = 0u64;
    'digits: for byte in digits {
        let value = digit(*byte);
        if value >= DECIMAL {
            return None;
        }
        number = number * 10 + u64::from(value);
    }
    Some(number)
}

/// The same of the length of a block, which may have at most so many bytes.
pub fn read_length(digits: &[u8], most: u64) -> Option<usize>
    requires { IsSmall most }
    ensures { Finds (λ n. (n ≤ most) × (digits.now ≡ decimal n)) result }
{
    let length = read_number(digits)?;
    if length > most {
        return None;
    }
    Some(length as usize)
}
