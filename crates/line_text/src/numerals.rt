//! Numbers as a line spells them.
ghost use Rattle.std.specs.Prelude.{◌≡◌, IfSome, IfNone, ◌+◌, ◌-◌, ◌<◌, ◌≤◌, ◌^◌, length, take, get_or, true, false};
ghost use Rattle.std.specs.Prelude.{option_map, option_and_then, ◌∷◌};
ghost use Rattle.std.specs.Char.{is_ascii_digit};
ghost use Rattle.std.specs.Str.{all_ascii_digits};
ghost use Rattle.dover_model.specs.Lines.{fields_of};
ghost use Rattle.dover_model.specs.Numerals as model;
ghost use Rattle.line_text.specs.Reading.{fields_left, number_of_first};

/// The most digits that a numeral may have.
const MOST_DIGITS: usize = 18;

/// Whether there is a byte, and no leading zero except `0` itself.
#[inline(always)]
fn is_plain(text: &[u8]) -> bool
    ensures { result ≡ model.is_plain text.now }
{
    match text {
        [] => false,
        [first, rest @ ..] => *first != b'0' || rest.is_empty(),
    }
}

/// How far a byte is above the digit 0: what a digit stands for, and more than 9 for each other byte.
#[inline(always)]
fn above_zero(byte: u8) -> u64
    ensures digit { result ≤ 9 → (is_ascii_digit byte ≡ true) × (result ≡ byte - 48) }
    ensures other { 9 < result → is_ascii_digit byte ≡ false }
{
    u64::from(byte).wrapping_sub(u64::from(b'0'))
}

/// The number that the digits in front write, and how many they are. None where they are more than a numeral may have.
#[inline(always)]
fn leading_digits(text: &[u8]) -> Option<(u64, usize)>
    ensures within { IfSome result (λ r. r.1 ≤ length text.now) }
    ensures few { IfSome result (λ r. r.1 ≤ 18) }
    ensures digits { IfSome result (λ r. all_ascii_digits (take r.1 text.now) ≡ true) }
    ensures all { IfSome result (λ r. r.1 < length text.now → is_ascii_digit (get_or text.now r.1 0) ≡ false) }
    ensures number { IfSome result (λ r. r.0 ≡ model.number_onto 0 (take r.1 text.now)) }
    ensures short { IfSome result (λ r. r.0 < 10 ^ 18) }
    ensures room { IfNone result (18 < length text.now) }
    ensures many { IfNone result (all_ascii_digits (take 19 text.now) ≡ true) }
{
    let mut number = 0u64;
    for (at, byte) in text.iter().enumerate() {
        let digit = above_zero(*byte);
        if digit > 9 {
            return Some((number, at));
        }
        if at == MOST_DIGITS {
            return None;
        }
        number = 10 * number + digit;
    }
    Some((number, text.len()))
}

/// The number that the bytes spell: 1 to 18 digits, with no leading zero except `0` itself.
pub fn numeral(text: &[u8]) -> Option<u64>
    ensures is { result ≡ model.numeral text.now }
    ensures short { IfSome result (λ n. n < 10 ^ 18) }
{
    let Some((number, digits)) = leading_digits(text) else {
        return None;
    };
    if digits < text.len() {
        return None;
    }
    if !is_plain(text) {
        return None;
    }
    Some(number)
}

/// The number in front of a line, up to a space or the end, and what follows the space.
#[inline(always)]
fn number_in_front(line: &[u8]) -> Option<(u64, Option<&[u8]>)>
    ensures read { option_map (λ f. (f.0, fields_left f.1)) result ≡ number_of_first (fields_of line.now) }
    ensures shorter { IfSome result (λ f. IfSome f.1 (λ rest. length rest.now < length line.now)) }
{
    let Some((number, digits)) = leading_digits(line) else {
        return None;
    };
    if digits == line.len() {
        return is_plain(line).then_some((number, None));
    }
    if line[digits] != b' ' {
        return None;
    }
    is_plain(&line[..digits]).then_some((number, Some(&line[digits + 1..])))
}

/// The number that the first field of a line spells, and what is left behind the field.
#[inline(always)]
pub fn first_number(line: &[u8]) -> Option<(u64, Option<&[u8]>)>
    ensures read { option_map (λ f. (f.0, fields_left f.1)) result ≡ number_of_first (fields_of line.now) }
    ensures shorter { IfSome result (λ f. IfSome f.1 (λ rest. length rest.now < length line.now)) }
    ensures numbers { model.numerals (fields_of line.now)
        ≡ option_and_then (λ f. option_map (λ ns. f.0 ∷ ns) (model.numerals (fields_left f.1))) result }
{
    number_in_front(line)
}
