//! Reads and writes hexadecimal digits sixteen octets at a time, without a branch for each octet.
//!
//! The results are those that the crate `hex` defines; this module only computes them faster. If
//! `decode_digits` returns false, its caller uses `hex`. For fewer than sixteen octets
//! `decode_digits` returns false, and `encode_digits` calls `hex`.
//!
//! **Reading.** Thirty-two digits `c` are in the lanes of one vector, and each lane becomes the
//! value of its digit, or 16 or more if `c` is not a digit. Lanes wrap around at 256. Each table
//! computes one number in its last column, and the value is the lesser of the two:
//!
//! | `c` | `c - 58` | minus 6, at least 0 | minus 240 |
//! |---|---|---|---|
//! | 0 to 47 | 198 to 245 | 192 to 239 | 208 to 255 |
//! | `0` to `9`, 48 to 57 | 246 to 255 | 240 to 249 | **0 to 9** |
//! | 58 to 255 | 0 to 197 | 0 to 191 | 16 to 207 |
//!
//! | `c` with the bit 0x20 set | `c - 97` | at most 245 | plus 10 |
//! |---|---|---|---|
//! | `a` to `f`, 97 to 102, and so `A` to `F` | 0 to 5 | 0 to 5 | **10 to 15** |
//! | every other | 6 to 255 | 6 to 245 | 16 to 255 |
//!
//! No `c` has a number below 16 in both tables. A pair of values, high and low, is one number of 16
//! bits, `high + 256 * low`. Its product with 4097 is, modulo 65536,
//! `high + 256 * (16 * high + low)`, so the upper eight bits are the octet.
//!
//! **Other octets.** The first block in which a value is 16 or more has the end of the digits: a line
//! feed, if the line has its usual form. So nothing looks for the end of such a line first. After the
//! last pair, wrong octets may have been written, but no caller reads them.
//!
//! **Writing.** The digit of a value up to 9 is the value plus the octet `0`. For a greater value
//! 39 more is added, so that 10 becomes `a`. The digits of the upper and lower four bits alternate.
//!
//! **The last block** begins sixteen octets before the end, so it may overlap the block before it.
//! Octets in both blocks are read or written twice, with the same result. So no octets are left to
//! be read or written one by one.
ghost use Rattle.std.specs.Prelude.{◌≡◌, ℕ, ◌↔◌, ◌<◌, ◌≤◌, ◌+◌, ◌*◌, length, take, true, slice_index, IfSome, IsOk, IsTrue};
ghost use Rattle.std.specs.List.{AllPass};
ghost use Rattle.hex.specs.Hex.{decode_of, decode_pairs, encode_lower, is_hex_digit, lower_digits};
ghost use Rattle.lldp_text.specs.Code.Digits.{IsValue, AreSmall, ArePairs, AreDigits};

use std::simd::prelude::*;

/// How many octets are read or written at a time.
const BLOCK: usize = 16;

/// Returns the value of each hexadecimal digit, and 16 or more for any other octet.
#[inline(always)]
fn values_of(digits: u8x32) -> u8x32
    ensures len { length result ≡ 32 }
    ensures values { (k : ℕ) → k < 32 → IsValue (slice_index digits k) (slice_index result k) }
{
    let moved = (digits - u8x32::splat(b'9' + 1)).saturating_sub(u8x32::splat(6));
    let numeral = moved - u8x32::splat(240);
    let from_a = (digits | u8x32::splat(0x20)) - u8x32::splat(b'a');
    let letter = from_a.simd_min(u8x32::splat(245)) + u8x32::splat(10);
    numeral.simd_min(letter)
}

/// Returns the octet of each pair of values. The first value of a pair is the high one.
#[inline(always)]
fn octets_of(values: u8x32) -> u8x16
    ensures len { length result ≡ 16 }
    ensures pairs { (k : ℕ) → k < 16 → slice_index values (2 * k) < 16 →
        slice_index values (2 * k + 1) < 16
        → slice_index result k ≡ slice_index values (2 * k) * 16 + slice_index values (2 * k + 1) }
{
    let pairs = u16x16::from_le_bytes(values) * u16x16::splat(4097);
    (pairs >> u16x16::splat(8)).cast::<u8>()
}

/// Returns whether every lane is below 16, as the values of digits are.
#[inline(always)]
fn are_small(values: u8x32) -> bool
    ensures { IsTrue result ↔ AreSmall values }
{
    (values & u8x32::splat(0xf0)).reduce_or() == 0
}

/// Returns how many lanes come before the first that is 16 or more.
#[inline(always)]
fn leading(values: u8x32) -> usize
    ensures most { result ≤ 32 }
    ensures small { (k : ℕ) → k < result → slice_index values k < 16 }
{
    let others = values.simd_ge(u8x32::splat(16)).to_bitmask();
    (others.trailing_zeros() as usize).min(32)
}

/// Decodes the digits of sixteen octets, from octet `at` on. Returns the values of the digits.
#[inline(always)]
fn decode_block(digits: &[u8], octets: &mut [u8], at: usize) -> u8x32
    requires fits { at + 16 ≤ length octets.old }
    requires digits { 2 * at + 32 ≤ length digits.now }
    ensures len { length octets.new ≡ length octets.old }
    ensures pairs { (k : ℕ) → k < 16 → slice_index result (2 * k) < 16 →
        slice_index result (2 * k + 1) < 16 → ArePairs digits.now octets.new (at + k) }
    ensures small { AllPass is_hex_digit digits.now → AreSmall result }
    ensures rest { (i : ℕ) → i < at → slice_index octets.new i ≡ slice_index octets.old i }
{
    let values = values_of(u8x32::from_slice(&digits[2 * at..]));
    octets_of(values).copy_to_slice(&mut octets[at..]);
    values
}

/// Decodes pairs of digits from the front of a text. Returns how many octets these are: all up to
/// the first octet that is not a digit, or those of the whole blocks.
fn decode_front(text: &[u8], octets: &mut [u8]) -> usize
    ensures len { length octets.new ≡ length octets.old }
    ensures room { result ≤ length octets.new }
    ensures within { 2 * result ≤ length text.now }
    ensures pairs { (i : ℕ) → i < result → ArePairs text.now octets.new i }
    ensures far { AllPass is_hex_digit text.now → 2 * length octets.new ≤ length text.now →
        length octets.new < result + 16 }
{
    let most = text.len().min(2 * octets.len());
    let mut at = 0;
    'blocks: while 2 * at + 2 * BLOCK <= most {
        let values = decode_block(text, octets, at);
        if !are_small(values) {
            return at + leading(values) / 2;
        }
        at += BLOCK;
    }
    at
}

/// Decodes the digits before the first line feed, as `hex` does. Returns how many octets these are.
/// Returns None if another octet comes first, if the number of digits is odd, or if the line feed
/// is not within a whole block of the text and of the room.
pub fn decode_line(text: &[u8], octets: &mut [u8]) -> Option<usize>
    ensures len { length octets.new ≡ length octets.old }
    ensures ends { IfSome result (λ n. 2 * n < length text.now) }
    ensures line_feed { IfSome result (λ n. slice_index text.now (2 * n) ≡ 10) }
    ensures room { IfSome result (λ n. n ≤ length octets.new) }
    ensures octets { IfSome result (λ n. decode_of (take (2 * n) text.now) ≡ Ok (take n octets.new)) }
{
    let count = decode_front(text, octets);
    if 2 * count < text.len() && text[2 * count] == b'\n' {
        return Some(count);
    }
    None
}

/// Decodes pairs of digits into octets, as `hex` does. Returns true exactly if there are sixteen
/// octets or more and all of `digits` are hexadecimal digits. If it returns false, the octets may
/// have any values.
pub fn decode_digits(digits: &[u8], octets: &mut [u8]) -> bool
    requires { length digits.now ≡ 2 * length octets.old }
    ensures octets { result ≡ true → decode_pairs 0 digits.now ≡ Ok octets.new }
    ensures answer { IsTrue result ↔ ((16 ≤ length octets.old) × IsOk (decode_pairs 0 digits.now)) }
{
    if octets.len() < BLOCK {
        return false;
    }
    let last = octets.len() - BLOCK;
    if decode_front(digits, octets) < last {
        return false;
    }
    are_small(decode_block(digits, octets, last))
}

/// Returns the digit of each value up to 15.
#[inline(always)]
fn digits_of(values: u8x16) -> u8x16
    ensures { (k : ℕ) → k < 16 → slice_index values k < 16 →
        slice_index result k ≡ slice_index lower_digits (slice_index values k) }
{
    let letters = values.simd_gt(u8x16::splat(9));
    let more = letters.select(u8x16::splat(b'a' - b'0' - 10), u8x16::splat(0));
    values + u8x16::splat(b'0') + more
}

/// Returns the octets of both vectors alternately, an octet of the first vector first.
#[inline(always)]
fn by_turns(first: u8x16, second: u8x16) -> u8x32
    ensures len { length result ≡ 32 }
    ensures turns { (k : ℕ) → k < 16 →
        (slice_index result (2 * k) ≡ slice_index first k)
        × (slice_index result (2 * k + 1) ≡ slice_index second k) }
{
    first.shuffle(
        second,
        [
            0, 16, 1, 17, 2, 18, 3, 19, 4, 20, 5, 21, 6, 22, 7, 23, 8, 24, 9, 25, 10, 26, 11, 27,
            12, 28, 13, 29, 14, 30, 15, 31,
        ],
    )
}

/// Writes the hexadecimal digits of sixteen octets, from octet `at` on.
#[inline(always)]
fn encode_block(octets: &[u8], digits: &mut [u8], at: usize)
    requires fits { at + 16 ≤ length octets.now }
    requires digits { length digits.old ≡ 2 * length octets.now }
    ensures len { length digits.new ≡ length digits.old }
    ensures pairs { (i : ℕ) → at ≤ i → i < at + 16 → AreDigits octets.now digits.new i }
    ensures rest { (k : ℕ) → k < 2 * at → slice_index digits.new k ≡ slice_index digits.old k }
{
    let block = u8x16::from_slice(&octets[at..]);
    let high = digits_of(block >> u8x16::splat(4));
    let low = digits_of(block & u8x16::splat(15));
    by_turns(high, low).copy_to_slice(&mut digits[2 * at..]);
}

/// Writes the two lower-case hexadecimal digits of each octet, as `hex` does.
pub fn encode_digits(octets: &[u8], digits: &mut [u8])
    requires { length digits.old ≡ 2 * length octets.now }
    ensures { digits.new ≡ encode_lower octets.now }
{
    if octets.len() < BLOCK {
        let _ = hex::encode_to_slice(octets, digits);
        return;
    }
    let last = octets.len() - BLOCK;
    let mut at = 0;
    'blocks: while at < last {
        encode_block(octets, digits, at);
        at += BLOCK;
    }
    encode_block(octets, digits, last);
}
