// Little-endian numbers: the lowest byte comes first.
ghost use Rattle.std.specs.Prelude.{◌≡◌, ◌+◌, ◌^◌, ◌<◌, ◌≤◌, length, IfSome};
ghost use Rattle.awd_source.specs.Bytes.{le, part};
ghost use Rattle.awd_source.specs.Numbers.{first_not_below};

use crate::present::byte_in;
use crate::source::Source;

// How many bytes a number has: 1 to 8.
#[derive(Clone, Copy)]
pub struct NumberSize {
    pub bytes: u64,
    ghost some: { 1 ≤ bytes },
    ghost few: { bytes ≤ 8 },
}

pub const ONE: NumberSize = NumberSize { bytes: 1 };

pub const TWO: NumberSize = NumberSize { bytes: 2 };

pub const FOUR: NumberSize = NumberSize { bytes: 4 };

// The number that so many bytes from a place on spell. (By their number and not by the place where they end: where that is known when the
// code is compiled, there is no loop.)
pub(crate) fn spell<S: Source>(source: &S, at: u64, size: u64) -> u64
    requires inside { at + size ≤ length (S.bytes source.now) }
    requires fits { at + size < 2 ^ 64 }
    requires few { size ≤ 8 }
    ensures value { let B = S.bytes source.now in result ≡ le (part B at size) }
    ensures below { result < 256 ^ size }
{
    let mut value: u64 = 0;
    for further in (0..size).rev() {
        let b = byte_in(source, at + further);
        value = value * 256 + u64::from(b);
    }
    value
}

// The number that stands at a place which has been judged before. Bytes behind the source's end would count as 0. (A u64 for every size: what
// is below 256^size is taken to the narrower type by `as`.)
#[inline]
pub fn spelled_at<S: Source>(source: &S, at: u64, size: NumberSize) -> u64
    ensures value { let B = S.bytes source.now in result ≡ le (part B at size.bytes) }
    ensures below { result < 256 ^ size.bytes }
{
    let length = source.length();
    match at.checked_add(size.bytes) {
        Some(stop) if stop <= length => spell(source, at, size.bytes),
        _ => spelled_short(source, at, size),
    }
}

// The number whose bytes the source does not have all. (Apart, so that the other way is short enough to be written out where it is used.)
#[tactic(auto, using(crate::proofs::Digits::cut_short))]
#[inline(never)]
fn spelled_short<S: Source>(source: &S, at: u64, size: NumberSize) -> u64
    requires { length (S.bytes source.now) < at + size.bytes }
    ensures value { let B = S.bytes source.now in result ≡ le (part B at size.bytes) }
    ensures below { result < 256 ^ size.bytes }
{
    let length = source.length();
    let start = at.min(length);
    spell(source, start, length - start)
}

/// The place of the first number that is not below a limit, where numbers of 16 bits stand one after another; a last byte alone is none of them.
/// (Most of the time of reading a large geometry goes by here; inside its caller the loop's numbers would not all be kept in registers.)
#[inline(never)]
pub fn first_not_below<S: Source>(numbers: &S, limit: u64) -> Option<u64>
    ensures found { result ≡ first_not_below limit (S.bytes numbers.now) }
    ensures inside { IfSome result (λ p. p < length (S.bytes numbers.now)) }
{
    for k in 0..numbers.length() / 2 {
        if spell(numbers, 2 * k, 2) >= limit {
            return Some(2 * k);
        }
    }
    None
}
