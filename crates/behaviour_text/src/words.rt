// Words, numerals and names.

ghost use Rattle.std.specs.Prelude.{◌≡◌, ◌≤◌, [], ◌∷◌, map, length, true, OnOk};
ghost use Rattle.std.specs.Char.{is_ascii_digit};
ghost use Rattle.std.specs.List.{list_all, slice_split};
ghost use Rattle.std.specs.Str.Parse.{digits_value};
ghost use Rattle.text_lines.specs.Lines.{is_space};
ghost use Rattle.behaviour_code.specs.Names.{is_name, is_name_byte};
ghost use Rattle.behaviour_text.specs.Words.{words_of, has_numeral_form, numeral, word_at};

use orca_names::NAME_LIMIT;
use std::alloc::AllocError;
use std::str;
use text_lines::is_space;

/// Puts the words of a line into a list, in place of what it held.
pub(crate) fn put_words<'a>(words: &mut Vec<&'a [u8]>, line: &'a [u8]) -> Result<(), AllocError>
    ensures { OnOk result (map (λ w. w.now) words.new.items ≡ words_of line.now) }
{
    words.clear();
    for piece in line.split(|byte| is_space(*byte)) {
        if piece.len() != 0 {
            words.push(piece)?;
        }
    }
    Ok(())
}

fn are_digits(word: &[u8]) -> bool
    ensures { result ≡ list_all is_ascii_digit word.now }
{
    word.iter().all(|byte| byte.is_ascii_digit())
}

fn has_numeral_form(word: &[u8]) -> bool
    ensures { result ≡ has_numeral_form word.now }
{
    match word {
        [] => false,
        [digit] => digit.is_ascii_digit(),
        [first, ..] => *first != b'0' && are_digits(word),
    }
}

#[tactic(auto, using(crate::proofs::Numerals::one_digit_is))]
fn one_digit(digit: u8) -> Option<u64>
    ensures { result ≡ numeral (digit ∷ []) }
{
    if digit.is_ascii_digit() {
        Some(u64::from(digit - b'0'))
    } else {
        None
    }
}

#[tactic(auto, using(crate::proofs::Numerals::two_digits_are))]
fn two_digits(first: u8, second: u8) -> Option<u64>
    ensures { result ≡ numeral (first ∷ second ∷ []) }
{
    if first != b'0' && first.is_ascii_digit() && second.is_ascii_digit() {
        Some(10 * u64::from(first - b'0') + u64::from(second - b'0'))
    } else {
        None
    }
}

/// The number that at most 19 digits write, which has 64 bits.
fn digits_value(digits: &[u8]) -> u64
    requires digits { list_all is_ascii_digit digits.now ≡ true }
    requires few { length digits.now ≤ 19 }
    ensures { result ≡ digits_value 10 digits.now }
{
    let mut value = 0;
    for digit in digits {
        value = 10 * value + u64::from(*digit - b'0');
    }
    value
}

fn long_numeral(word: &[u8]) -> Option<u64>
    requires { has_numeral_form word.now ≡ true }
    ensures { result ≡ numeral word.now }
{
    match str::from_utf8(word) {
        Ok(text) => text.parse::<u64>().ok(),
        Err(_) => None,
    }
}

fn any_numeral(word: &[u8]) -> Option<u64>
    ensures { result ≡ numeral word.now }
{
    if !has_numeral_form(word) {
        None
    } else if word.len() <= 19 {
        Some(digits_value(word))
    } else {
        long_numeral(word)
    }
}

/// The number of a numeral of at most 64 bits. Most have one digit or two.
pub(crate) fn numeral(word: &[u8]) -> Option<u64>
    ensures { result ≡ numeral word.now }
{
    match word {
        [digit] => one_digit(*digit),
        [first, second] => two_digits(*first, *second),
        _ => any_numeral(word),
    }
}

fn is_name_byte(byte: u8) -> bool
    ensures { result ≡ is_name_byte byte }
{
    byte.is_ascii_alphanumeric() || byte == b'_'
}

fn are_name_bytes(word: &[u8]) -> bool
    ensures { result ≡ list_all is_name_byte word.now }
{
    word.iter().all(|byte| is_name_byte(*byte))
}

/// Whether a word has a name's form: 1 to 32 letters, digits or `_`.
pub(crate) fn is_name(word: &[u8]) -> bool
    ensures { result ≡ is_name word.now }
{
    1 <= word.len() && word.len() <= NAME_LIMIT && are_name_bytes(word)
}

/// The word at a place, empty where there is none.
pub(crate) fn word_at<'a>(words: &[&'a [u8]], i: usize) -> &'a [u8]
    ensures { result.now ≡ word_at (map (λ w. w.now) words.now) i }
{
    if i < words.len() { words[i] } else { &[] }
}
