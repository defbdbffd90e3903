// The calls that C sees: integers, byte slices and references to numbers, no `requires`. Each makes the call of the same name of the
// library `govlezna`, and promises what that call promises.
#![tactic(auto)]

ghost use Rattle.std.specs.Prelude.{◌≡◌, [], ◌∷◌};
ghost use Rattle.text.specs.Call.{called};
ghost use Rattle.govlezna.specs.Calls.{check_utf8_call, parse_number_call, escape_call, normalize_eols_call, trim_call, cdata_next_call, check_table_call, unescape_call, normalize_attribute_value_call, canonical_form_call, normalize_attribute_value_strict_call, canonical_form_strict_call, register_add_call, register_withdraw_call, register_count_call, normalize_nmtokens_call, next_nmtoken_call, c14n_attribute_call, c14n_text_call, least_depth_call, rehearse_call, read_declarations_call};
ghost use Rattle.utils.specs.Trim.{trim_start, trim_end, trim_spaces};
ghost use Rattle.register.specs.RegisterCalls.{lent};

use utils::Cursor;
use walk_rehearsal::Span;

// Is the text UTF-8? Success: its length.
#[unsafe(no_mangle)]
pub extern "C" fn govlezna_check_utf8(text: &[u8], answer: &mut [u64; 2]) -> u32
    ensures { called result answer.new [] ≡ check_utf8_call text.now }
{
    govlezna::govlezna_check_utf8(text, answer)
}

// The text after `#` of a character reference. Success: the character's number.
#[unsafe(no_mangle)]
pub extern "C" fn govlezna_parse_number(text: &[u8], answer: &mut [u64; 2]) -> u32
    ensures { called result answer.new [] ≡ parse_number_call text.now }
{
    govlezna::govlezna_parse_number(text, answer)
}

// The text at one of the four levels. Success: the length written.
#[unsafe(no_mangle)]
pub extern "C" fn govlezna_escape(
    text: &[u8],
    level: u8,
    out: &mut [u8],
    answer: &mut [u64; 2],
) -> u32
    ensures { called result answer.new (out.new ∷ []) ≡ escape_call text.now level out.old }
{
    govlezna::govlezna_escape(text, level, out, answer)
}

// An attribute value as Canonical XML writes it. Success: the length written.
#[unsafe(no_mangle)]
pub extern "C" fn govlezna_c14n_attribute(text: &[u8], out: &mut [u8], answer: &mut [u64; 2]) -> u32
    ensures { called result answer.new (out.new ∷ []) ≡ c14n_attribute_call text.now out.old }
{
    govlezna::govlezna_c14n_attribute(text, out, answer)
}

// Text as Canonical XML writes it. Success: the length written.
#[unsafe(no_mangle)]
pub extern "C" fn govlezna_c14n_text(text: &[u8], out: &mut [u8], answer: &mut [u64; 2]) -> u32
    ensures { called result answer.new (out.new ∷ []) ≡ c14n_text_call text.now out.old }
{
    govlezna::govlezna_c14n_text(text, out, answer)
}

// Every line end of the version becomes LF. Success: the length written.
#[unsafe(no_mangle)]
pub extern "C" fn govlezna_normalize_eols(
    text: &[u8],
    version: u8,
    out: &mut [u8],
    answer: &mut [u64; 2],
) -> u32
    ensures { called result answer.new (out.new ∷ []) ≡ normalize_eols_call text.now version out.old }
{
    govlezna::govlezna_normalize_eols(text, version, out, answer)
}

// Is the table valid? Success: the number of its declarations.
#[unsafe(no_mangle)]
pub extern "C" fn govlezna_check_table(list: &[u8], pool: &[u8], answer: &mut [u64; 2]) -> u32
    ensures { called result answer.new [] ≡ check_table_call list.now pool.now }
{
    govlezna::govlezna_check_table(list, pool, answer)
}

// References become what they stand for; a replacement text is copied and not opened. Success: the length written.
#[unsafe(no_mangle)]
pub extern "C" fn govlezna_unescape(
    text: &[u8],
    list: &[u8],
    pool: &[u8],
    out: &mut [u8],
    answer: &mut [u64; 2],
) -> u32
    ensures { called result answer.new (out.new ∷ []) ≡ unescape_call text.now list.now pool.now out.old }
{
    govlezna::govlezna_unescape(text, list, pool, out, answer)
}

// The attribute value normalized. Success: the length written, the openings.
#[unsafe(no_mangle)]
pub extern "C" fn govlezna_normalize_attribute_value(
    text: &[u8],
    version: u8,
    depth: u64,
    limit: u64,
    list: &[u8],
    pool: &[u8],
    out: &mut [u8],
    answer: &mut [u64; 2],
) -> u32
    ensures { called result answer.new (out.new ∷ []) ≡ normalize_attribute_value_call text.now version depth limit list.now pool.now out.old }
{
    govlezna::govlezna_normalize_attribute_value(
        text, version, depth, limit, list, pool, out, answer,
    )
}

// The same, and every character has to be one of the version (K8). Success: the length written, the openings.
#[unsafe(no_mangle)]
pub extern "C" fn govlezna_normalize_attribute_value_strict(
    text: &[u8],
    version: u8,
    depth: u64,
    limit: u64,
    list: &[u8],
    pool: &[u8],
    out: &mut [u8],
    answer: &mut [u64; 2],
) -> u32
    ensures { called result answer.new (out.new ∷ []) ≡ normalize_attribute_value_strict_call text.now version depth limit list.now pool.now out.old }
{
    govlezna::govlezna_normalize_attribute_value_strict(
        text, version, depth, limit, list, pool, out, answer,
    )
}

// The canonical form of the normalized value, whose last character the scratch takes. Success: the length written, the openings.
#[unsafe(no_mangle)]
pub extern "C" fn govlezna_canonical_form(
    text: &[u8],
    version: u8,
    depth: u64,
    limit: u64,
    list: &[u8],
    pool: &[u8],
    scratch: &mut [u8],
    out: &mut [u8],
    answer: &mut [u64; 2],
) -> u32
    ensures { called result answer.new (scratch.new ∷ out.new ∷ []) ≡ canonical_form_call text.now version depth limit list.now pool.now scratch.old out.old }
{
    govlezna::govlezna_canonical_form(
        text, version, depth, limit, list, pool, scratch, out, answer,
    )
}

// The canonical form of the value that is normalized so, whose last character the scratch takes. Success: the length written, the openings.
#[unsafe(no_mangle)]
pub extern "C" fn govlezna_canonical_form_strict(
    text: &[u8],
    version: u8,
    depth: u64,
    limit: u64,
    list: &[u8],
    pool: &[u8],
    scratch: &mut [u8],
    out: &mut [u8],
    answer: &mut [u64; 2],
) -> u32
    ensures { called result answer.new (scratch.new ∷ out.new ∷ []) ≡ canonical_form_strict_call text.now version depth limit list.now pool.now scratch.old out.old }
{
    govlezna::govlezna_canonical_form_strict(
        text, version, depth, limit, list, pool, scratch, out, answer,
    )
}

// The value normalized as a list of tokens (K5): the scratch takes it, its second stage goes to `out`. Success: the length written, the
// openings.
#[unsafe(no_mangle)]
pub extern "C" fn govlezna_normalize_nmtokens(
    text: &[u8],
    version: u8,
    depth: u64,
    limit: u64,
    list: &[u8],
    pool: &[u8],
    scratch: &mut [u8],
    out: &mut [u8],
    answer: &mut [u64; 2],
) -> u32
    ensures { called result answer.new (scratch.new ∷ out.new ∷ []) ≡ normalize_nmtokens_call text.now version depth limit list.now pool.now scratch.old out.old }
{
    govlezna::govlezna_normalize_nmtokens(
        text, version, depth, limit, list, pool, scratch, out, answer,
    )
}

// The next token of such a result; the offset is lent, and moves on. Success: start, length.
#[unsafe(no_mangle)]
pub extern "C" fn govlezna_next_nmtoken(text: &[u8], offset: &mut u64, answer: &mut [u64; 2]) -> u32
    ensures { called result answer.new ((offset.new ∷ []) ∷ []) ≡ next_nmtoken_call text.now offset.old }
{
    govlezna::govlezna_next_nmtoken(text, offset, answer)
}

// The text without the white space at its start. Success: start, length.
#[unsafe(no_mangle)]
pub extern "C" fn govlezna_trim_xml_start(text: &[u8], answer: &mut [u64; 2]) -> u32
    ensures { called result answer.new [] ≡ trim_call trim_start text.now }
{
    govlezna::govlezna_trim_xml_start(text, answer)
}

// The text without the white space at its end. Success: start, length.
#[unsafe(no_mangle)]
pub extern "C" fn govlezna_trim_xml_end(text: &[u8], answer: &mut [u64; 2]) -> u32
    ensures { called result answer.new [] ≡ trim_call trim_end text.now }
{
    govlezna::govlezna_trim_xml_end(text, answer)
}

// The text without the white space at both ends. Success: start, length.
#[unsafe(no_mangle)]
pub extern "C" fn govlezna_trim_xml_spaces(text: &[u8], answer: &mut [u64; 2]) -> u32
    ensures { called result answer.new [] ≡ trim_call trim_spaces text.now }
{
    govlezna::govlezna_trim_xml_spaces(text, answer)
}

// The next piece of the text for a CDATA section; the cursor is lent, and moves on. Success: start, length.
#[unsafe(no_mangle)]
pub extern "C" fn govlezna_cdata_next(
    text: &[u8],
    cursor: &mut Cursor,
    answer: &mut [u64; 2],
) -> u32
    ensures { record { number = result; words = answer.new; next = cursor.new } ≡ cdata_next_call text.now cursor.old }
{
    govlezna::govlezna_cdata_next(text, cursor, answer)
}

// One more of a form in a register (K10), whose used length is lent. Success: the form's count, the used length.
#[unsafe(no_mangle)]
pub extern "C" fn govlezna_register_add(
    form: &[u8],
    buffer: &mut [u8],
    used: &mut u64,
    answer: &mut [u64; 2],
) -> u32
    ensures { called result answer.new (lent buffer.new used.new) ≡ register_add_call form.now buffer.old used.old }
{
    govlezna::govlezna_register_add(form, buffer, used, answer)
}

// One less (K10). Success: the form's count, the used length.
#[unsafe(no_mangle)]
pub extern "C" fn govlezna_register_withdraw(
    form: &[u8],
    buffer: &mut [u8],
    used: &mut u64,
    answer: &mut [u64; 2],
) -> u32
    ensures { called result answer.new (lent buffer.new used.new) ≡ register_withdraw_call form.now buffer.old used.old }
{
    govlezna::govlezna_register_withdraw(form, buffer, used, answer)
}

// The count of a form in a register (K10). Success: the count.
#[unsafe(no_mangle)]
pub extern "C" fn govlezna_register_count(
    form: &[u8],
    buffer: &[u8],
    used: u64,
    answer: &mut [u64; 2],
) -> u32
    ensures { called result answer.new [] ≡ register_count_call form.now buffer.now used }
{
    govlezna::govlezna_register_count(form, buffer, used, answer)
}

// The least depth at which the value is accepted (K14). Success: that depth.
#[unsafe(no_mangle)]
pub extern "C" fn govlezna_least_depth(
    text: &[u8],
    version: u8,
    limit: u64,
    list: &[u8],
    pool: &[u8],
    answer: &mut [u64; 2],
) -> u32
    ensures { called result answer.new [] ≡ least_depth_call text.now version limit list.now pool.now }
{
    govlezna::govlezna_least_depth(text, version, limit, list, pool, answer)
}

// A text of entity declarations as a table. Success: the length of the list, of the pool.
#[unsafe(no_mangle)]
pub extern "C" fn govlezna_read_declarations(
    text: &[u8],
    version: u8,
    list: &mut [u8],
    pool: &mut [u8],
    answer: &mut [u64; 2],
) -> u32
    ensures { called result answer.new (list.new ∷ pool.new ∷ []) ≡ read_declarations_call text.now version list.old pool.old }
{
    govlezna::govlezna_read_declarations(text, version, list, pool, answer)
}

// How the values of a job fare (K11): a thin function over the lent spans, the turns of which are `walk_rehearsal::count_value`. Success:
// nothing but the report.
#[unsafe(no_mangle)]
pub extern "C" fn govlezna_rehearse(
    text: &[u8],
    spans: &[Span],
    version: u8,
    depth: u64,
    limit: u64,
    list: &[u8],
    pool: &[u8],
    report: &mut [u64; 29],
    answer: &mut [u64; 2],
) -> u32
    ensures { called result answer.new (report.new ∷ []) ≡ rehearse_call text.now spans.now version depth limit list.now pool.now report.old }
{
    govlezna::govlezna_rehearse(
        text, spans, version, depth, limit, list, pool, report, answer,
    )
}
