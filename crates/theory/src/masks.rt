//! Masks of constructors: bit `c` stands for constructor `c`.

ghost use Rattle.std.specs.Prelude.{◌≡◌, ◌≢◌, ℕ, ◌<◌, ◌^◌, ◌&&◌, not, ◌==◌, true, false, IsTrue, IfSome, MatchOption};
ghost use Rattle.cub_proto.specs.Truth.{has_bit};

// The least constructor of a mask.
fn low(mask: u64) -> u8
    ensures inside { 0 < mask → result < 64 }
    ensures has { 0 < mask → has_bit mask result ≡ true }
{
    mask.trailing_zeros() as u8
}

// The constructors of both masks.
pub(crate) fn both(a: u64, b: u64) -> u64
    ensures { (c : ℕ) → has_bit result c ≡ (has_bit a c && has_bit b c) }
{
    a & b
}

// The constructors of the first mask that the second lacks.
fn beyond(a: u64, b: u64) -> u64
    ensures { (c : ℕ) → has_bit result c ≡ (has_bit a c && not (has_bit b c)) }
{
    a & !b
}

// A constructor of the mask, if it has one.
pub(crate) fn some(mask: u64) -> Option<u8>
    ensures has { IfSome result (λ c. has_bit mask c ≡ true) }
    ensures none { result ≡ None → (c : ℕ) → has_bit mask c ≡ true → ⊥ }
{
    if mask == 0 {
        return None;
    }
    Some(low(mask))
}

// A constructor of the first mask that the second lacks, if there is one.
pub(crate) fn outside(a: u64, b: u64) -> Option<u8>
    ensures has { IfSome result (λ c. (has_bit a c ≡ true) × (has_bit b c ≡ false)) }
    ensures none { result ≡ None → (c : ℕ) → has_bit a c ≡ true → has_bit b c ≡ true }
{
    some(beyond(a, b))
}

// The mask of one constructor.
fn bit(c: u8) -> u64
    requires { c < 64 }
    ensures { result ≡ 2 ^ c }
{
    1 << c
}

// A constructor of the mask other than c, if there is one.
fn apart(mask: u64, c: u8) -> Option<u8>
    requires { c < 64 }
    ensures has { IfSome result (λ d. (has_bit mask d ≡ true) × (d ≢ c)) }
    ensures none { result ≡ None → (d : ℕ) → has_bit mask d ≡ true → d ≡ c }
{
    outside(mask, bit(c))
}

// The same where the second mask has no constructor but c, which the first one has.
fn other_pair(a: u64, b: u64, c: u8) -> Option<(u8, u8)>
    requires first { has_bit a c ≡ true }
    requires alone { (d : ℕ) → has_bit b d ≡ true → d ≡ c }
    ensures has { IfSome result (λ pair. (has_bit a pair.0 ≡ true) × (has_bit b pair.1 ≡ true) × (pair.0 ≢ pair.1)) }
    ensures none { result ≡ None → (x y : ℕ) → has_bit a x ≡ true → has_bit b y ≡ true → x ≡ y }
{
    let d = some(b)?;
    let e = apart(a, c)?;
    Some((e, d))
}

// A constructor of the first mask and another one of the second, if there are two such.
pub(crate) fn differing(a: u64, b: u64) -> Option<(u8, u8)>
    ensures has { IfSome result (λ pair. (has_bit a pair.0 ≡ true) × (has_bit b pair.1 ≡ true) × (pair.0 ≢ pair.1)) }
    ensures none { result ≡ None → (x y : ℕ) → has_bit a x ≡ true → has_bit b y ≡ true → x ≡ y }
{
    let c = some(a)?;
    match apart(b, c) {
        Some(d) => Some((c, d)),
        None => other_pair(a, b, c),
    }
}
