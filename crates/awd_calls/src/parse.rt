// A line of text as a call: a command and what it is given, words parted by single spaces.
ghost use Rattle.std.specs.Prelude.{◌≡◌, Some};
ghost use Rattle.std.specs.Char.{is_ascii_digit, is_ascii_hexdigit};
ghost use Rattle.std.specs.List.{list_all};
ghost use Rattle.std.specs.Option.{option_map};
ghost use Rattle.std.specs.Result.{result_ok};
ghost use Rattle.awd_calls.specs.Texts.{no_call_text};
ghost use Rattle.awd_calls.specs.Lines.{words_of, few, texts, number_of, bits_of, cell_of};
ghost use Rattle.awd_calls.specs.Lines.{bare, with_one, with_two, with_three, with_four, by_words, call_of};

use crate::calls::Call;
use arrayvec::ArrayVec;
use awd_contents::Cell;
use std::error::Error;
use std::fmt;
use std::num::{f32_from_bits_with_nan, f64_from_bits_with_nan};
use std::str::FromStr;

// No call has more words.
const MAX_WORDS: usize = 5;

// Why a line is not taken: it is no call.
#[derive(Clone, Copy, PartialEq, Eq, Debug)]
pub struct NoCall;

impl fmt::Display for NoCall {
    ghost output = { λ _. Some no_call_text };

    fn fmt<W: fmt::Write>(&self, f: &mut fmt::Formatter<W>) -> fmt::Result {
        f.write_str("the line is no call")
    }
}

impl Error for NoCall {}

// The words of a line, parted by single spaces; none where they are more than any call has.
fn words(line: &str) -> Option<ArrayVec<&str, MAX_WORDS>>
    ensures { option_map (λ w. texts w.items) result ≡ few (words_of line.now) }
{
    let mut words = ArrayVec::new();
    let mut rest = line;
    while let Some((word, more)) = rest.split_once(' ') {
        words.try_push(word).ok()?;
        rest = more;
    }
    words.try_push(rest).ok()?;
    Some(words)
}

// Whether each byte is a decimal digit, and none a sign.
fn is_decimal(word: &str) -> bool
    ensures { result ≡ list_all is_ascii_digit word.now }
{
    word.as_bytes().iter().all(|b| b.is_ascii_digit())
}

// Whether each byte is a hexadecimal digit; capitals are.
fn is_hexadecimal(word: &str) -> bool
    ensures { result ≡ list_all is_ascii_hexdigit word.now }
{
    word.as_bytes().iter().all(|b| b.is_ascii_hexdigit())
}

// A number in decimal digits.
fn number(word: &str) -> Option<u64>
    ensures { result ≡ number_of 64 word.now }
{
    if !is_decimal(word) {
        return None;
    }
    word.parse().ok()
}

// An address or an ID in decimal digits.
fn address(word: &str) -> Option<u32>
    ensures { result ≡ number_of 32 word.now }
{
    u32::try_from(number(word)?).ok()
}

// Bits in so many hexadecimal digits.
fn bits(word: &str, digits: usize) -> Option<u64>
    ensures { result ≡ bits_of digits word.now }
{
    if word.len() != digits || !is_hexadecimal(word) {
        return None;
    }
    u64::from_str_radix(word, 16).ok()
}

// The content of a cell, by the letter of its width and its bits.
fn content(width: &str, word: &str) -> Option<Cell>
    ensures { result ≡ cell_of width.now word.now }
{
    match width {
        // eight digits, so nothing is cut off
        "s" => Some(Cell::Single(f32_from_bits_with_nan(bits(word, 8)? as u32))),
        "d" => Some(Cell::Double(f64_from_bits_with_nan(bits(word, 16)?))),
        _ => None,
    }
}

// A call by its name alone.
fn bare(name: &str) -> Option<Call>
    ensures { result ≡ bare name.now }
{
    match name {
        "open" => Some(Call::Open),
        "next" => Some(Call::Next),
        "undo" => Some(Call::Undo),
        "count" => Some(Call::Count),
        "edits" => Some(Call::Edits),
        "length" => Some(Call::Length),
        _ => None,
    }
}

// A call with one word behind its name.
fn with_one(name: &str, first: &str) -> Option<Call>
    ensures { result ≡ with_one name.now first.now }
{
    match name {
        "record" => Some(Call::Record(number(first)?)),
        "number" => Some(Call::NumberOf(address(first)?)),
        "path" => Some(Call::Path(number(first)?)),
        "byte" => Some(Call::Byte(number(first)?)),
        _ => None,
    }
}

// A call with two.
fn with_two(name: &str, first: &str, second: &str) -> Option<Call>
    ensures { result ≡ with_two name.now first.now second.now }
{
    match name {
        "reparent" => Some(Call::Reparent(number(first)?, address(second)?)),
        "material" => Some(Call::Material(number(first)?, number(second)?)),
        "cell" => Some(Call::Cell(number(first)?, number(second)?)),
        _ => None,
    }
}

// A call with three.
fn with_three(name: &str, first: &str, second: &str, third: &str) -> Option<Call>
    ensures { result ≡ with_three name.now first.now second.now third.now }
{
    match name {
        "dress" => Some(Call::Dress(number(first)?, number(second)?, address(third)?)),
        _ => None,
    }
}

// A call with four.
fn with_four(name: &str, first: &str, second: &str, third: &str, fourth: &str) -> Option<Call>
    ensures { result ≡ with_four name.now first.now second.now third.now fourth.now }
{
    match name {
        "nudge" => Some(Call::Nudge(number(first)?, number(second)?, content(third, fourth)?)),
        _ => None,
    }
}

// The call that some words are.
fn from_words(words: &[&str]) -> Option<Call>
    ensures { result ≡ by_words (texts words.now) }
{
    match *words {
        [name] => bare(name),
        [name, first] => with_one(name, first),
        [name, first, second] => with_two(name, first, second),
        [name, first, second, third] => with_three(name, first, second, third),
        [name, first, second, third, fourth] => with_four(name, first, second, third, fourth),
        _ => None,
    }
}

// A line as a call. It need not fit the document: that is for the session to judge.
impl FromStr for Call {
    type Err = NoCall;

    ghost from_str_gives = { λ line r. result_ok r ≡ call_of line };

    fn from_str(line: &str) -> Result<Call, NoCall> {
        let words = words(line).ok_or(NoCall)?;
        from_words(words.as_slice()).ok_or(NoCall)
    }
}
