//! What numbers lie in.

ghost use Rattle.std.specs.Prelude.{◌≡◌, ◌*◌, ◌^◌, ◌<◌, ℤ, pos, ◌+ℤ◌, ◌-ℤ◌, ◌≤ℤ◌};
ghost use Rattle.std.specs.Int.{Width, w32, w64, int_wrap, byte_len};

/// A signed number of 32 or 64 bits, whose sums wrap: an `i32` or an `i64`. So one reader serves
/// both.
pub trait Integer: Copy + Drop {
    /// Its bits.
    ghost width: { Width };

    /// What contracts see of it.
    ghost seen: { Self → ℤ };

    /// The number in these bits.
    fn wrapped(number: i64) -> Self
        ensures { seen result ≡ int_wrap width number };

    /// The number, a least delta and a packed number, added up in these bits.
    fn step(self, least: i64, number: u64) -> Self
        ensures { seen result ≡ int_wrap width (seen self +ℤ (least +ℤ pos number)) };

    /// The number.
    fn number(self) -> i64
        ensures is { result ≡ seen self }
        ensures fits { int_wrap width (seen self) ≡ seen self };

    /// The difference to the next number, in these bits.
    fn delta(self, next: Self) -> i64
        ensures { result ≡ int_wrap width (seen next -ℤ seen self) };

    /// The packed number by which, with a least delta, the number leads to the next one in these bits:
    /// how far the difference is above the least one, if it is.
    fn gap(self, next: Self, least: i64) -> u64
        ensures leads { int_wrap width (seen self +ℤ (least +ℤ pos result)) ≡ seen next }
        ensures narrow { result < 2 ^ (8 * byte_len width) }
        ensures exact { let delta = int_wrap width (seen next -ℤ seen self) in int_wrap width least ≡ least → least ≤ℤ delta → least +ℤ pos result ≡ delta };
}

impl Integer for i64 {
    ghost width = { w64 };

    ghost seen = { λ z. z };

    #[inline]
    fn wrapped(number: i64) -> i64 {
        number
    }

    #[inline]
    fn step(self, least: i64, number: u64) -> i64 {
        self.wrapping_add(least.wrapping_add(number.cast_signed()))
    }

    #[inline]
    fn number(self) -> i64 {
        self
    }

    #[inline]
    fn delta(self, next: i64) -> i64 {
        difference(next, self)
    }

    #[inline]
    fn gap(self, next: i64, least: i64) -> u64 {
        difference(difference(next, self), least).cast_unsigned()
    }
}

impl Integer for i32 {
    ghost width = { w32 };

    ghost seen = { λ z. z };

    #[inline]
    fn wrapped(number: i64) -> i32 {
        low(number.cast_unsigned())
    }

    #[inline]
    fn step(self, least: i64, number: u64) -> i32 {
        self.wrapping_add(low(least.cast_unsigned()).wrapping_add(low(number)))
    }

    #[inline]
    fn number(self) -> i64 {
        i64::from(self)
    }

    #[inline]
    fn delta(self, next: i32) -> i64 {
        i64::from(narrow_difference(next, self))
    }

    #[inline]
    fn gap(self, next: i32, least: i64) -> u64 {
        let delta = narrow_difference(next, self);
        u64::from(narrow_difference(delta, low(least.cast_unsigned())).cast_unsigned())
    }
}

/// The low 32 bits as a signed number.
#[inline]
fn low(number: u64) -> i32
    ensures { result ≡ int_wrap w32 (pos number) }
{
    ((number & 0xffff_ffff) as u32).cast_signed()
}

/// The difference in 64 bits.
#[inline]
fn difference(a: i64, b: i64) -> i64
    ensures { result ≡ int_wrap w64 (a -ℤ b) }
{
    a.wrapping_sub(b)
}

/// The difference in 32 bits.
#[inline]
fn narrow_difference(a: i32, b: i32) -> i32
    ensures { result ≡ int_wrap w32 (a -ℤ b) }
{
    a.wrapping_sub(b)
}
