// Character numbers, the text after `#` of a reference, and the UTF-8 of a character.
#![tactic(auto)]

ghost use Rattle.std.specs.Prelude.{◌≡◌, ◌≢◌, ℕ, ◌≤◌, ◌++◌, length, drop, IfSome};
ghost use Rattle.text.specs.Bytes.{pick};
ghost use Rattle.text.specs.Version.{xml10, xml11};
ghost use Rattle.charref.specs.CharNumbers.{Char, Forbidden, Value};
ghost use Rattle.charref.specs.CharRef.{digit_value, number_from, small, in_base, judge, char_number, encode};
ghost use Rattle.charref.specs.Chars.{is_char};
ghost use Rattle.charref.specs.Reading.{legal_by, Written, Quickly};
ghost use Rattle.charref.specs.Errors.{parsed_as, read_as, refusal_for};

use text::refusals::Refusal;

// What refuses a character number: 12, 13, 14 with the value, 15; 25 where the rule that the caller wants does not allow the character
// (document 02, K8).
#[derive(Clone, Copy)]
pub enum ParseCharRefError {
    UnexpectedSign,
    InvalidNumber,
    InvalidCodepoint(u32),
    IllegalCharacter,
    Forbidden,
}

impl From<ParseCharRefError> for Refusal {
    ghost from_gives = { λ e r. r ≡ refusal_for e };

    fn from(e: ParseCharRefError) -> Refusal {
        match e {
            ParseCharRefError::UnexpectedSign => Refusal::UnexpectedSign,
            ParseCharRefError::InvalidNumber => Refusal::InvalidNumber,
            ParseCharRefError::InvalidCodepoint(n) => Refusal::InvalidCodepoint(n as u64),
            ParseCharRefError::IllegalCharacter => Refusal::IllegalCharacter,
            ParseCharRefError::Forbidden => Refusal::ForbiddenReference,
        }
    }
}

// A character, and the `;` after its digits.
#[derive(Clone, Copy)]
pub struct Quick {
    pub c: u32,
    pub end: usize,
}

// 16 where the byte is no digit of base 10 or 16.
fn digit(b: u8) -> u64
    ensures { result ≡ digit_value b }
{
    if b < 48 {
        return 16;
    }
    if b <= 57 {
        return (b - 48) as u64;
    }
    if b < 65 {
        return 16;
    }
    if b <= 70 {
        return (b - 55) as u64;
    }
    if b < 97 {
        return 16;
    }
    if b <= 102 {
        return (b - 87) as u64;
    }
    16
}

// How many bytes to skip: zeros in front change no number, and this loop passes them faster.
fn skip_zeros(text: &[u8]) -> usize
    ensures within { result ≤ length text.now }
    ensures same { (base : ℕ) → 1 ≤ base → number_from base 0 (drop result text.now) ≡ number_from base 0 text.now }
{
    let mut i: usize = 0;
    while i < text.len() {
        if text[i] != b'0' {
            return i;
        }
        i += 1;
    }
    i
}

// In the place of Rust's u32::from_str_radix. A byte that is no digit and a value over 32 bits have the same answer, so both end the loop at once.
fn digits(text: &[u8], base: u64) -> Result<u32, ParseCharRefError>
    requires { (1 ≤ base) × (base ≤ 16) }
    ensures { result ≡ parsed_as (small (number_from base 0 text.now)) }
{
    let mut value: u64 = 0;
    let mut i = skip_zeros(text);
    while i < text.len() {
        let d = digit(text[i]);
        if base <= d {
            return Err(ParseCharRefError::InvalidNumber);
        }
        value = base * value + d;
        if 4294967295 < value {
            return Err(ParseCharRefError::InvalidNumber);
        }
        i += 1;
    }
    Ok(value as u32)
}

// A sign has an answer of its own, so it is looked for before the digits are read.
fn from_str_radix(text: &[u8], base: u64) -> Result<u32, ParseCharRefError>
    requires { (1 ≤ base) × (base ≤ 16) }
    ensures { result ≡ parsed_as (in_base base text.now) }
{
    if text.len() == 0 {
        return Err(ParseCharRefError::InvalidNumber);
    }
    match text[0] {
        b'+' | b'-' => Err(ParseCharRefError::UnexpectedSign),
        _ => digits(text, base),
    }
}

// Is it a character of the version?
pub fn is_char(c: u32, newer: bool) -> bool
    ensures { result ≡ is_char (pick newer xml11 xml10) c }
{
    if newer {
        return ((1 <= c) & (c <= 0xd7ff))
            | ((0xe000 <= c) & (c <= 0xfffd))
            | ((0x10000 <= c) & (c <= 0x10ffff));
    }
    (c == 9)
        | (c == 0xa)
        | (c == 0xd)
        | ((0x20 <= c) & (c <= 0xd7ff))
        | ((0xe000 <= c) & (c <= 0xfffd))
        | ((0x10000 <= c) & (c <= 0x10ffff))
}

// Does the rule let a number name the character? 0 is the lenient rule, 1 Char of XML 1.0, all above it Char of XML 1.1 (`legal_by`).
pub fn is_allowed(c: u32, rule: u8) -> bool
    ensures { legal_by rule c ≡ pick result (Char c) Forbidden }
{
    if rule == 0 {
        return true;
    }
    is_char(c, 1 < rule)
}

// A number that 12 to 15 let pass, by the rule.
fn by_rule(n: u32, rule: u8) -> Result<u32, ParseCharRefError>
    ensures { result ≡ read_as (legal_by rule n) }
{
    if is_allowed(n, rule) {
        return Ok(n);
    }
    Err(ParseCharRefError::Forbidden)
}

fn judge(n: u32, rule: u8) -> Result<u32, ParseCharRefError>
    ensures { result ≡ read_as (judge (legal_by rule) (Value n)) }
{
    if n == 0 {
        return Err(ParseCharRefError::IllegalCharacter);
    }
    if 0xD800 <= n {
        if n <= 0xDFFF {
            return Err(ParseCharRefError::InvalidCodepoint(n));
        }
        if 1114111 < n {
            return Err(ParseCharRefError::InvalidCodepoint(n));
        }
    }
    by_rule(n, rule)
}

// The text after `#`, by the rule that the caller wants.
pub fn parse_number(text: &[u8], rule: u8) -> Result<u32, ParseCharRefError>
    ensures { result ≡ read_as (char_number (legal_by rule) text.now) }
{
    if text.len() == 0 {
        return Err(ParseCharRefError::InvalidNumber);
    }
    if text[0] == b'x' {
        return judge(from_str_radix(&text[1..], 16)?, rule);
    }
    judge(from_str_radix(text, 10)?, rule)
}

// Reads digits up to the `;`. Leaves to `parse_number` whatever is no character below the surrogates.
fn quick_digits(text: &[u8], from: usize, base: u64) -> Option<Quick>
    requires from_in_bounds { from ≤ length text.now }
    requires le_base { (1 ≤ base) × (base ≤ 16) }
    ensures { IfSome result (λ q. (q.c ≢ 0) × Written base text.now from q) }
{
    let mut value: u64 = 0;
    let mut i = from;
    while i < text.len() {
        let b = text[i];
        if b == b';' {
            if value == 0 {
                return None;
            }
            return Some(Quick {
                c: value as u32,
                end: i,
            });
        }
        let d = digit(b);
        if base <= d {
            return None;
        }
        value = base * value + d;
        if 0xD7FF < value {
            return None;
        }
        i += 1;
    }
    None
}

// The number whose text after `#` starts at `from`.
pub fn quick_number(text: &[u8], from: usize) -> Option<Quick>
    requires { from ≤ length text.now }
    ensures { Quickly text.now from result }
{
    if from < text.len() {
        if text[from] == b'x' {
            return quick_digits(text, from + 1, 16);
        }
    }
    quick_digits(text, from, 10)
}

// How many bytes `encode_utf8` writes.
pub fn utf8_length(n: u32) -> usize
    ensures { result ≡ length (encode n) }
{
    if n < 0x80 {
        return 1;
    }
    if n < 0x800 {
        return 2;
    }
    if n < 0x10000 {
        return 3;
    }
    4
}

// Writes the character at the start of `out`, and keeps the rest.
pub fn encode_utf8(n: u32, out: &mut [u8]) -> usize
    requires { (n ≤ 1114111) × (length (encode n) ≤ length out.old) }
    ensures { (result ≡ length (encode n)) × (out.new ≡ encode n ++ drop (length (encode n)) out.old) }
{
    if n < 0x80 {
        out[0] = n as u8;
        return 1;
    }
    if n < 0x800 {
        out[0] = (0xC0 + n / 64) as u8;
        out[1] = (0x80 + n % 64) as u8;
        return 2;
    }
    if n < 0x10000 {
        out[0] = (0xE0 + n / 4096) as u8;
        out[1] = (0x80 + n / 64 % 64) as u8;
        out[2] = (0x80 + n % 64) as u8;
        return 3;
    }
    out[0] = (0xF0 + n / 262144) as u8;
    out[1] = (0x80 + n / 4096 % 64) as u8;
    out[2] = (0x80 + n / 64 % 64) as u8;
    out[3] = (0x80 + n % 64) as u8;
    4
}
