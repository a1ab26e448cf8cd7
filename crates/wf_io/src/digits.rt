//! The value of decimal digits.

ghost use Rattle.std.specs.Prelude.{◌≡◌, ◌≤◌, ◌^◌, length, IsSome, IsTrue, MatchOption};
ghost use Rattle.std.specs.List.{list_all};
ghost use Rattle.wf_io.specs.Digits.{is_digit, value_from};

/// Returns the value of decimal digits, or None if it exceeds 64 bits. At most 19 digits never do.
pub fn value_of(digits: &[u8]) -> Option<u64>
    requires { IsTrue (list_all is_digit digits.now) }
    ensures value { MatchOption result (2 ^ 64 ≤ value_from 0 digits.now)
        (λ value. value ≡ value_from 0 digits.now) }
    ensures few { length digits.now ≤ 19 → IsSome result }
{
    let mut value = 0;
    for digit in digits {
        let worth = u64::from(*digit - b'0');
        if value > (u64::MAX - worth) / 10 {
            return None;
        }
        value = value * 10 + worth;
    }
    Some(value)
}
