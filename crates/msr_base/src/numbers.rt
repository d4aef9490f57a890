//! Numbers of a text, read back.
ghost use Rattle.std.specs.Prelude.{◌≡◌, ◌<◌, ◌^◌, ◌+◌, ◌-◌, ◌*◌, ℕ, IfSome, IsSomeAnd, SomeIff, decimal, true};
ghost use Rattle.std.specs.Char.{is_ascii_digit};

/// The number with one more digit, if that is one, and the number fits 64 bits.
fn with_digit(n: u64, digit: u8) -> Option<u64>
    ensures { SomeIff result ((is_ascii_digit digit ≡ true) × (10 * n + (digit - 48) < 2 ^ 64))
        (10 * n + (digit - 48)) }
{
    if !digit.is_ascii_digit() {
        return None;
    }
    n.checked_mul(10)?.checked_add(u64::from(digit - b'0'))
}

/// The number that the digits are the decimal of, with no leading zeros.
pub fn number_of(digits: &[u8]) -> Option<u64>
    ensures found { IfSome result (λ n. digits.now ≡ decimal n) }
    ensures only { (n : ℕ) → n < 2 ^ 64 → digits.now ≡ decimal n → IsSomeAnd result (λ x. x ≡ n) }
{
    let (first, others) = digits.split_first()?;
    if *first == b'0' && !others.is_empty() {
        return None;
    }
    let mut n = 0;
    let mut rest = digits;
    'digits: while let Some((digit, more)) = rest.split_first() {
        n = with_digit(n, *digit)?;
        rest = more;
    }
    Some(n)
}
