//! Words of up to 64 cubes, turned round: one word for each bit, with a bit for each cube. A search looks at a bit of all
//! cubes of a segment at once, and has in one word which of them it may pass over.

ghost use Rattle.std.specs.Prelude.{◌≡◌, ◌+◌, ◌-◌, ◌^◌, ◌==◌, ◌<◌, ◌≤◌, ◌&&◌, ◌||◌, not, ℕ, Bool, List, length, IsTrue, OnOk, if◌then◌else◌};
ghost use Rattle.cub_proto.specs.Truth.{has_bit};
ghost use Rattle.cover_index.specs.Columns.{column, AreColumns, AreFilled, Meet};

use cub_base::Memory;

/// The number of bits of a word, and of cubes that words are turned round for.
pub(crate) const BITS: u32 = 64;

// The bits of either word.
fn either(a: u64, b: u64) -> u64
    ensures { (c : ℕ) → has_bit result c ≡ (has_bit a c || has_bit b c) }
{
    a | b
}

// The bits of both words.
fn both(a: u64, b: u64) -> u64
    ensures { (c : ℕ) → has_bit result c ≡ (has_bit a c && has_bit b c) }
{
    a & b
}

/// The bits of the first word that the second lacks.
pub(crate) fn beyond(a: u64, b: u64) -> u64
    ensures { (c : ℕ) → has_bit result c ≡ (has_bit a c && not (has_bit b c)) }
{
    a & !b
}

fn power(number: u32) -> u64
    requires { number < 64 }
    ensures { result ≡ 2 ^ number }
{
    1 << number
}

// The bits below a number.
fn below(number: u32) -> u64
    requires { number < 64 }
    ensures { (c : ℕ) → IsTrue (has_bit result c) → c < number }
{
    power(number) - 1
}

// Whether the word has the bit.
fn has(word: u64, number: u32) -> bool
    requires { number < 64 }
    ensures { result ≡ has_bit word number }
{
    cub_proto::has_bit(word, number as u8)
}

// The word with the bit where it is to be there, and else without it.
fn with(word: u64, number: u32, there: bool) -> u64
    requires { number < 64 }
    ensures { (c : ℕ) → has_bit result c ≡ (if number == c then there else has_bit word c) }
{
    if there {
        either(word, power(number))
    } else {
        beyond(word, power(number))
    }
}

/// Makes all the words, without bits where there were none.
pub(crate) fn make(columns: &mut Vec<u64>) -> Result<(), Memory>
    requires { length columns.old.items ≤ 64 }
    ensures few { length columns.new.items ≤ 64 }
    ensures all { OnOk result (length columns.new.items ≡ 64) }
    ensures same { (b : ℕ) → column columns.new.items b ≡ column columns.old.items b }
{
    while columns.len() < BITS as usize {
        match columns.push(0) {
            Ok(()) => {}
            Err(_) => return Err(Memory),
        }
    }
    Ok(())
}

/// Puts the word of the cube with that number into the columns.
pub(crate) fn put(columns: &mut Vec<u64>, at: u32, word: u64)
    requires all { length columns.old.items ≡ 64 }
    requires few { at < 64 }
    ensures all { length columns.new.items ≡ 64 }
    ensures own { (b : ℕ) → b < 64 → has_bit (column columns.new.items b) at ≡ has_bit word b }
    ensures others { (b i : ℕ) → b < 64 → i < at → has_bit (column columns.new.items b) i ≡ has_bit (column columns.old.items b) i }
{
    for b in 0..BITS {
        columns[b as usize] = with(columns[b as usize], at, has(word, b));
    }
}

// All bits where it is so, else none.
fn all_if(so: bool) -> u64
    ensures { (c : ℕ) → IsTrue (has_bit result c) → IsTrue so }
{
    if so { u64::MAX } else { 0 }
}

/// A word for each bit, filled where the given word has the bit.
pub(crate) fn filled(word: u64) -> [u64; 64]
    ensures { AreFilled result (has_bit word) }
{
    let mut words = [0; 64];
    for b in 0..BITS {
        words[b as usize] = all_if(has(word, b));
    }
    words
}

/// The cubes that have one of the bits for which a word is filled.
pub(crate) fn met(columns: &[u64], filled: &[u64]) -> u64
    requires { length columns.now ≤ length filled.now }
    ensures { (i : ℕ) → IsTrue (has_bit result i) → Meet columns.now filled.now i }
{
    let mut cubes = 0;
    for b in 0..columns.len() {
        cubes = either(cubes, both(columns[b], filled[b]));
    }
    cubes
}

// The least number of a bit.
fn low(word: u64) -> u32
    ensures { (c : ℕ) → IsTrue (has_bit word c) → result ≤ c }
{
    word.trailing_zeros()
}

/// The first number from one up to another whose bit the word lacks, or the other.
pub(crate) fn next_beyond(word: u64, at: u32, upto: u32) -> u32
    requires order { at < upto }
    requires few { upto ≤ 64 }
    ensures from { at ≤ result }
    ensures within { result ≤ upto }
    ensures passed { (i : ℕ) → at ≤ i → i < result → IsTrue (has_bit word i) }
{
    let lacking = beyond(u64::MAX, either(word, below(at)));
    low(lacking).max(at).min(upto)
}
