// The calls that are replayed: from a stored line to what came of it.
use crate::answers::{Answer, Failure, replay_output};
use crate::arguments::{byte, bytes, expect_fields, number, numbers, room};
use crate::cdata::replay_cdata;
use crate::declared::replay_declarations;
use crate::fields::field;
use crate::nmtoken::replay_nmtoken;
use crate::register_calls::{replay_change, replay_count};
use crate::table_calls::{
    replay_check_table, replay_form, replay_least_depth, replay_normalize, replay_unescape,
};
use govlezna::{
    govlezna_c14n_attribute, govlezna_c14n_text, govlezna_canonical_form,
    govlezna_canonical_form_strict, govlezna_check_utf8, govlezna_escape,
    govlezna_normalize_attribute_value, govlezna_normalize_attribute_value_strict,
    govlezna_normalize_eols, govlezna_normalize_nmtokens, govlezna_parse_number,
    govlezna_register_add, govlezna_register_withdraw, govlezna_trim_xml_end,
    govlezna_trim_xml_spaces, govlezna_trim_xml_start,
};

// Field 0 names the call.
pub fn replay_line(line: &[u8]) -> Result<(), Failure> {
    match field(line, 0) {
        b"check_utf8" => replay_text(line, govlezna_check_utf8),
        b"parse_number" => replay_text(line, govlezna_parse_number),
        b"trim_xml_start" => replay_text(line, govlezna_trim_xml_start),
        b"trim_xml_end" => replay_text(line, govlezna_trim_xml_end),
        b"trim_xml_spaces" => replay_text(line, govlezna_trim_xml_spaces),
        b"escape" => replay_choice(line, govlezna_escape),
        b"normalize_eols" => replay_choice(line, govlezna_normalize_eols),
        b"c14n_attribute" => replay_writer(line, govlezna_c14n_attribute),
        b"c14n_text" => replay_writer(line, govlezna_c14n_text),
        b"cdata_next" => replay_cdata(line),
        b"next_nmtoken" => replay_nmtoken(line),
        b"register_add" => replay_change(line, govlezna_register_add),
        b"register_withdraw" => replay_change(line, govlezna_register_withdraw),
        b"register_count" => replay_count(line),
        b"read_declarations" => replay_declarations(line),
        b"check_table" => replay_check_table(line),
        b"unescape" => replay_unescape(line),
        b"least_depth" => replay_least_depth(line),
        b"normalize_attribute_value" => replay_normalize(line, govlezna_normalize_attribute_value),
        b"normalize_attribute_value_strict" => {
            replay_normalize(line, govlezna_normalize_attribute_value_strict)
        }
        b"canonical_form" => replay_form(line, govlezna_canonical_form),
        b"canonical_form_strict" => replay_form(line, govlezna_canonical_form_strict),
        b"normalize_nmtokens" => replay_form(line, govlezna_normalize_nmtokens),
        _ => Err(Failure::Malformed),
    }
}

// CALL TEXT = NUMBER FIRST SECOND
fn replay_text<F: Fn(&[u8], &mut [u64; 2]) -> u32>(line: &[u8], call: F) -> Result<(), Failure>
    requires { F.IsAlwaysCallable call }
{
    expect_fields(line, 6)?;
    let mut text = [0; 2048];
    let text = bytes(line, 1, &mut text)?;
    Answer::of(|words| call(text, words)).compare(line, 2)
}

// CALL TEXT CHOICE ROOM = NUMBER FIRST SECOND OUTPUT, with a level or a version as the choice, and
// the length of the output lent as the room.
fn replay_choice<F: Fn(&[u8], u8, &mut [u8], &mut [u64; 2]) -> u32>(
    line: &[u8],
    call: F,
) -> Result<(), Failure>
    requires { F.IsAlwaysCallable call }
{
    expect_fields(line, 9)?;
    let mut text = [0; 2048];
    let text = bytes(line, 1, &mut text)?;
    let [choice, length] = numbers::<2>(line, 2)?;
    let choice = byte(choice)?;
    replay_output(
        line,
        4,
        room(length)?,
        |out, words| call(text, choice, out, words),
    )
}

// CALL TEXT ROOM = NUMBER FIRST SECOND OUTPUT
fn replay_writer<F: Fn(&[u8], &mut [u8], &mut [u64; 2]) -> u32>(
    line: &[u8],
    call: F,
) -> Result<(), Failure>
    requires { F.IsAlwaysCallable call }
{
    expect_fields(line, 8)?;
    let mut text = [0; 2048];
    let text = bytes(line, 1, &mut text)?;
    let length = number(line, 2)?;
    replay_output(line, 3, room(length)?, |out, words| call(text, out, words))
}
