// Argument checks that all calls share: the text's length (refusal 1), the version byte (4), UTF-8 (5).
#![tactic(auto)]

ghost use Rattle.std.specs.Prelude.{◌≡◌};
ghost use Rattle.text.specs.Call.{answered, length_check, version_check, utf8_check, text_check, argument_check};

pub mod load;
pub mod pattern;
pub mod refusals;
pub mod simple;
pub mod validate;

use refusals::Refusal;

// The longest text that a call takes, in bytes.
pub const LONGEST_TEXT: usize = 16777216;

// What a call that succeeds answers: its first and second.
#[derive(Clone, Copy)]
pub struct Success {
    pub first: u64,
    pub second: u64,
}

// What a call answers: on success its words, else document 01's refusal.
pub type Answer = Result<Success, Refusal>;

// What a check answers that refuses nothing.
pub const PASSED: Success = Success {
    first: 0,
    second: 0,
};

// Refusal 1.
pub fn check_length(text: &[u8]) -> Answer
    ensures { answered result ≡ length_check text.now }
{
    if LONGEST_TEXT < text.len() {
        return Err(Refusal::TooLong(text.len() as u64));
    }
    Ok(PASSED)
}

// Refusal 4.
pub fn check_version(version: u8) -> Answer
    ensures { answered result ≡ version_check version }
{
    if 2 < version {
        return Err(Refusal::UnknownByte);
    }
    Ok(PASSED)
}

// Refusal 5.
pub fn check_utf8(text: &[u8]) -> Answer
    ensures { answered result ≡ utf8_check text.now }
{
    let end = validate::utf8_end(text);
    if end == text.len() {
        return Ok(PASSED);
    }
    Err(Refusal::NotUtf8(end as u64))
}

// Refusals 1 and 5: what every call asks of its text.
pub fn check_text(text: &[u8]) -> Answer
    ensures { answered result ≡ text_check text.now }
{
    check_length(text)?;
    check_utf8(text)
}

// Refusal 1, then what the call's other arguments give, then 5.
pub fn check_arguments(text: &[u8], others: Answer) -> Answer
    ensures { answered result ≡ argument_check text.now (answered others) }
{
    check_length(text)?;
    others?;
    check_utf8(text)
}
