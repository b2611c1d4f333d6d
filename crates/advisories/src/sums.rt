// Sums and differences that may go beyond 64 bits.
ghost use Rattle.std.specs.Prelude.{◌≡◌, ◌+ℤ◌, ◌-ℤ◌};

pub(crate) fn sum(one: i64, other: i64) -> i128
    ensures { result ≡ one +ℤ other }
{
    i128::from(one) + i128::from(other)
}

pub(crate) fn difference(one: i64, other: i64) -> i128
    ensures { result ≡ one -ℤ other }
{
    i128::from(one) - i128::from(other)
}
