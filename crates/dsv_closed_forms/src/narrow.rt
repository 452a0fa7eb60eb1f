// Arithmetic on numbers whose results are known to be narrow.
ghost use Rattle.std.specs.Prelude.{◌≡◌, ◌+ℤ◌, ◌-ℤ◌, ◌*ℤ◌, neg_ℤ, int_lt, true};
ghost use Rattle.std.specs.Ordering.{int_eq};
ghost use Rattle.dsv_algebra.specs.Narrow.{is_narrow};
ghost use Rattle.dsv_algebra.specs.Squares.{size};

use dsv_algebra::NarrowInteger;

/// The sum, which is narrow.
pub(crate) fn sum(a: NarrowInteger, b: NarrowInteger) -> NarrowInteger
    requires { is_narrow (a +ℤ b) ≡ true }
    ensures { result ≡ a +ℤ b }
{
    NarrowInteger::from(a.get() + b.get())
}

/// The difference, which is narrow.
pub(crate) fn difference(a: NarrowInteger, b: NarrowInteger) -> NarrowInteger
    requires { is_narrow (a -ℤ b) ≡ true }
    ensures { result ≡ a -ℤ b }
{
    NarrowInteger::from(a.get() - b.get())
}

/// The product, which is narrow.
pub(crate) fn product(a: NarrowInteger, b: NarrowInteger) -> NarrowInteger
    requires { is_narrow (a *ℤ b) ≡ true }
    ensures { result ≡ a *ℤ b }
{
    NarrowInteger::from(a.get() * b.get())
}

/// The number with the other sign.
pub(crate) fn negation(a: NarrowInteger) -> NarrowInteger
    requires { is_narrow a ≡ true }
    ensures { result ≡ neg_ℤ a }
{
    NarrowInteger::from(-a.get())
}

/// Whether the numbers are equal.
pub(crate) fn are_equal(a: NarrowInteger, b: NarrowInteger) -> bool
    ensures { result ≡ int_eq a b }
{
    a.get() == b.get()
}

/// Whether the first number is less than the second one.
pub(crate) fn is_less(a: NarrowInteger, b: NarrowInteger) -> bool
    ensures { result ≡ int_lt a b }
{
    a.get() < b.get()
}

/// Whether the first number is less in size than the second one.
pub(crate) fn is_less_in_size(a: NarrowInteger, b: NarrowInteger) -> bool
    requires narrow { is_narrow a ≡ true }
    ensures { result ≡ int_lt (size a) b }
{
    a.get().abs() < b.get()
}
