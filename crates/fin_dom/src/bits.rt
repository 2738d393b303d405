//! Masks of constructors: bit `c` stands for constructor `c`.

ghost use Rattle.std.specs.Prelude.{◌≡◌, ℕ, ◌<◌, ◌≤◌, ◌^◌, ◌==◌, ◌&&◌, not, IsTrue};
ghost use Rattle.std.specs.Int.{trailing_zeros, w64};
ghost use Rattle.cub_proto.specs.Truth.{has_bit};

/// The least constructor of a mask.
pub fn low(mask: u64) -> u8
    ensures value { result ≡ trailing_zeros w64 mask }
    ensures inside { 0 < mask → result < 64 }
    ensures has { 0 < mask → IsTrue (has_bit mask result) }
    ensures least { (c : ℕ) → IsTrue (has_bit mask c) → result ≤ c }
{
    mask.trailing_zeros() as u8
}

/// The mask of one constructor.
pub fn bit(constructor: u8) -> u64
    requires { constructor < 64 }
    ensures { result ≡ 2 ^ constructor }
{
    1 << constructor
}

/// Whether one constructor is left.
pub fn is_single(mask: u64) -> bool
    requires { 0 < mask }
    ensures { result ≡ (mask == 2 ^ trailing_zeros w64 mask) }
{
    mask == bit(low(mask))
}

/// The constructors of both masks.
pub fn both(a: u64, b: u64) -> u64
    ensures { (c : ℕ) → has_bit result c ≡ (has_bit a c && has_bit b c) }
{
    a & b
}

/// The mask without one of its constructors.
pub fn without(mask: u64, constructor: u8) -> u64
    requires { IsTrue (has_bit mask constructor) }
    ensures bits { (c : ℕ) → has_bit result c ≡ (has_bit mask c && not (c == constructor)) }
    ensures less { result < mask }
{
    mask & !bit(constructor)
}

/// The mask without the constructor of another mask, where that mask has one alone.
pub fn apart(mask: u64, other: u64) -> u64
    requires { 0 < other }
    ensures { (c : ℕ) → has_bit result c ≡ (has_bit mask c && not (other == 2 ^ c)) }
{
    if is_single(other) {
        mask & !other
    } else {
        mask
    }
}
