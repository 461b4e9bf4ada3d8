ghost use Rattle.std.specs.Prelude.{◌≡◌, length, decimal};

/// How many decimal digits `n` has: 1 for 0.
pub fn num_decimal_digits(n: usize) -> usize
    ensures { result ≡ length (decimal n) }
{
    let mut digits = 1;
    let mut rest = n;
    while rest >= 10 {
        rest /= 10;
        digits += 1;
    }
    digits
}
