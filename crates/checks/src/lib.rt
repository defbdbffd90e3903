// The checks of a call's arguments in document 01's order, what the calls answer that write no buffer, and the answer as C sees it.
#![tactic(auto)]

ghost use Rattle.std.specs.Prelude.{◌≡◌, true, List, [], ◌∷◌, ℕ, length};
ghost use Rattle.text.specs.Call.{answered, called, call_of, and_then, text_check, argument_check, version_check};
ghost use Rattle.text.specs.Simple.{Simple};
ghost use Rattle.text.specs.Answers.{Done};
ghost use Rattle.charref.specs.CharRef.{number_answer, char_number, any_character};
ghost use Rattle.escape.specs.Escape.{level_check};
ghost use Rattle.entity.specs.Table.{table_check};
ghost use Rattle.attribute.specs.Checks.{settings_check};
ghost use Rattle.checks.specs.Checked.{beside, cdata_answer};

use text::{Answer, PASSED, Success};
use utils::{Cursor, Part};

// ---- answers

// The text's length.
pub fn checked_text(text: &[u8]) -> Answer
    ensures { answered result ≡ and_then (text_check text.now) (Done (length text.now) 0) }
{
    text::check_text(text)?;
    Ok(Success {
        first: text.len() as u64,
        second: 0,
    })
}

// The number of a character. Digits are ASCII: only where there is no number may the text be no UTF-8.
pub fn checked_number(text: &[u8]) -> Answer
    ensures { answered result ≡ and_then (text_check text.now) (number_answer (char_number any_character text.now)) }
{
    text::check_length(text)?;
    match charref::parse_number(text, 0) {
        Ok(c) => Ok(Success {
            first: c as u64,
            second: 0,
        }),
        Err(e) => {
            text::check_utf8(text)?;
            Err(e.into())
        }
    }
}

// A part of the text, which a trim finds in any bytes.
pub fn checked_part(text: &[u8], part: Part) -> Answer
    ensures { answered result ≡ and_then (text_check text.now) (Done part.start part.length) }
{
    text::check_text(text)?;
    Ok(Success {
        first: part.start as u64,
        second: part.length as u64,
    })
}

// An answer, and the cursor that it leaves.
#[derive(Drop)]
pub struct Answered {
    pub answer: Answer,
    pub next: Cursor,
}

// The next piece of the text for a CDATA section.
pub fn checked_piece(text: &[u8], cursor: Cursor) -> Answered
    ensures { beside (answered result.answer) result.next ≡ cdata_answer text.now cursor }
{
    if let Err(refusal) = text::check_text(text) {
        return Answered {
            answer: Err(refusal),
            next: cursor,
        };
    }
    let step = utils::cdata_step(text, cursor);
    let piece = step.piece;
    let next = step.next;
    Answered {
        answer: utils::piece_answer(piece),
        next,
    }
}

// ---- checks before a buffer is written

// Of a text and a level: 1, 4, 5.
pub fn check_escape(text: &[u8], level: u8) -> Answer
    ensures { answered result ≡ argument_check text.now (level_check level) }
{
    text::check_arguments(text, escape::check_level(level))
}

// Of a text and a version: 1, 4, 5.
pub fn check_eols(text: &[u8], version: u8) -> Answer
    ensures { answered result ≡ argument_check text.now (version_check version) }
{
    text::check_arguments(text, text::check_version(version))
}

// Of a table, 6 to 9, after checks that were made before. Unescaping calls it itself: one function more between them, with three slices,
// took 12 instructions more.
pub fn check_with_table(checked: Answer, list: &[u8], pool: &[u8]) -> Answer
    ensures { answered result ≡ and_then (answered checked) (table_check list.now pool.now) }
{
    checked?;
    tables::check_lent(list, pool)
}

// Of a call that walks an attribute value: 1 to 9. A text that is known to be simple is UTF-8.
pub fn check_walk(
    text: &[u8],
    simple: bool,
    version: u8,
    depth: u64,
    limit: u64,
    list: &[u8],
    pool: &[u8],
) -> Answer
    requires { simple ≡ true → Simple text.now }
    ensures { answered result ≡ and_then (argument_check text.now (settings_check version depth limit)) (table_check list.now pool.now) }
{
    text::check_length(text)?;
    attribute::check_settings(version, depth, limit)?;
    if !simple {
        text::check_utf8(text)?;
    }
    tables::check_lent(list, pool)
}

// ---- an answer as C sees it

// The words of an answer, and its number; whatever buffers are lent besides are the caller's to state.
pub fn put(res: Answer, answer: &mut [u64; 2]) -> u32
    ensures { (buffers : List (List ℕ)) → called result answer.new buffers ≡ call_of (answered res) buffers }
{
    match res {
        Ok(words) => {
            *answer = [words.first, words.second];
            0
        }
        Err(refusal) => {
            *answer = refusal.words();
            refusal.number()
        }
    }
}
