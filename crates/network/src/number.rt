//! Products of numbers.
ghost use Rattle.std.specs.Prelude.{◌≡◌, ◌*ℤ◌};

/// The product of two numbers, whatever they are.
pub fn product(one: i32, other: i32) -> i64
    ensures { result ≡ one *ℤ other }
{
    i64::from(one) * i64::from(other)
}
