// The calls: integers, byte slices and references to numbers, no `requires`. Each promise is one equation. C sees them by way of the
// static library `govlezna_c`.
#![tactic(auto)]

ghost use Rattle.std.specs.Prelude.{◌≡◌, [], ◌∷◌};
ghost use Rattle.text.specs.Call.{answered, called, call_of, guarded};
ghost use Rattle.text.specs.Version.{rule_of};
ghost use Rattle.govlezna.specs.Calls.{check_utf8_call, parse_number_call, escape_call, normalize_eols_call, trim_call, cursor_left, cdata_next_call, check_table_call, unescape_call, normalize_attribute_value_call, canonical_form_call, normalize_attribute_value_strict_call, canonical_form_strict_call, register_add_call, register_withdraw_call, register_count_call, normalize_nmtokens_call, next_nmtoken_call, c14n_attribute_call, c14n_text_call};
ghost use Rattle.govlezna.specs.Calls.{least_depth_call, rehearse_call};
ghost use Rattle.govlezna.specs.declared.CDataNext.{CDataNext};
ghost use Rattle.utils.specs.Trim.{trim_start, trim_end, trim_spaces};
ghost use Rattle.register.specs.RegisterCalls.{lent};
ghost use Rattle.govlezna.specs.Calls.{read_declarations_call, walk_check};
ghost use Rattle.tokens.specs.Outcome.{finished};
ghost use Rattle.attribute.specs.Form.{formed};
ghost use Rattle.attribute.specs.Strict.{reading_by};
ghost use Rattle.attribute.specs.Walk.{normalize};
ghost use Rattle.normalize.specs.Calls.{outcome_for};
ghost use Rattle.nmtokens.specs.Nmtokens.{collapsed};

use checks::put;
use normalize::Wanted;
use text::{Answer, simple};
use utils::Cursor;
use walk_rehearsal::Span;

// All that `govlezna_cdata_next` leaves behind: its number, the answer words and the cursor.
#[derive(Drop)]
pub struct CDataNext {
    pub number: u32,
    pub words: [u64; 2],
    pub next: Cursor,
}

// Is the text UTF-8? Success: its length.
pub fn govlezna_check_utf8(text: &[u8], answer: &mut [u64; 2]) -> u32
    ensures { called result answer.new [] ≡ check_utf8_call text.now }
{
    put(checks::checked_text(text), answer)
}

// The text after `#` of a character reference. Success: the character's number.
pub fn govlezna_parse_number(text: &[u8], answer: &mut [u64; 2]) -> u32
    ensures { called result answer.new [] ≡ parse_number_call text.now }
{
    put(checks::checked_number(text), answer)
}

// The call after the checks of its arguments, as each `checked_` below: what they refuse leaves every buffer.
fn checked_escape(text: &[u8], level: u8, out: &mut [u8]) -> Answer
    ensures { call_of (answered result) (out.new ∷ []) ≡ escape_call text.now level out.old }
{
    checks::check_escape(text, level)?;
    escape::escape(text, level, out)
}

// The text at one of the four levels. Success: the length written.
pub fn govlezna_escape(text: &[u8], level: u8, out: &mut [u8], answer: &mut [u64; 2]) -> u32
    ensures { called result answer.new (out.new ∷ []) ≡ escape_call text.now level out.old }
{
    put(checked_escape(text, level, out), answer)
}

// An attribute value as Canonical XML writes it. Success: the length written.
pub fn govlezna_c14n_attribute(text: &[u8], out: &mut [u8], answer: &mut [u64; 2]) -> u32
    ensures { called result answer.new (out.new ∷ []) ≡ c14n_attribute_call text.now out.old }
{
    put(c14n::c14n(text, true, out), answer)
}

// Text as Canonical XML writes it. Success: the length written.
pub fn govlezna_c14n_text(text: &[u8], out: &mut [u8], answer: &mut [u64; 2]) -> u32
    ensures { called result answer.new (out.new ∷ []) ≡ c14n_text_call text.now out.old }
{
    put(c14n::c14n(text, false, out), answer)
}

fn checked_eols(text: &[u8], version: u8, out: &mut [u8]) -> Answer
    ensures { call_of (answered result) (out.new ∷ []) ≡ normalize_eols_call text.now version out.old }
{
    checks::check_eols(text, version)?;
    eols::normalize_eols(text, version, out)
}

// Every line end of the version becomes LF. Success: the length written.
pub fn govlezna_normalize_eols(
    text: &[u8],
    version: u8,
    out: &mut [u8],
    answer: &mut [u64; 2],
) -> u32
    ensures { called result answer.new (out.new ∷ []) ≡ normalize_eols_call text.now version out.old }
{
    put(checked_eols(text, version, out), answer)
}

// Is the table valid? Success: the number of its declarations.
pub fn govlezna_check_table(list: &[u8], pool: &[u8], answer: &mut [u64; 2]) -> u32
    ensures { called result answer.new [] ≡ check_table_call list.now pool.now }
{
    put(tables::check_table(list, pool), answer)
}

fn checked_unescape(text: &[u8], list: &[u8], pool: &[u8], out: &mut [u8]) -> Answer
    ensures { call_of (answered result) (out.new ∷ []) ≡ unescape_call text.now list.now pool.now out.old }
{
    checks::check_with_table(text::check_text(text), list, pool)?;
    unescape::unescape_with(text, list, pool, out)
}

// References become what they stand for; a replacement text is copied and not opened. Success: the length written.
pub fn govlezna_unescape(
    text: &[u8],
    list: &[u8],
    pool: &[u8],
    out: &mut [u8],
    answer: &mut [u64; 2],
) -> u32
    ensures { called result answer.new (out.new ∷ []) ≡ unescape_call text.now list.now pool.now out.old }
{
    put(checked_unescape(text, list, pool, out), answer)
}

// The constant makes a function of each for the compiler: one that both exported functions call took up to a sixth more instructions.
fn checked_value<const STRICT: bool>(
    text: &[u8],
    version: u8,
    depth: u64,
    limit: u64,
    list: &[u8],
    pool: &[u8],
    out: &mut [u8],
) -> Answer
    ensures { call_of (answered result) (out.new ∷ []) ≡ guarded (walk_check text.now version depth limit list.now pool.now) (out.old ∷ []) (finished (normalize (reading_by STRICT (rule_of version) list.now pool.now limit) depth text.now) out.old) }
{
    let simple = simple::is_simple(text);
    checks::check_walk(text, simple, version, depth, limit, list, pool)?;
    let wanted = Wanted {
        version,
        strict: STRICT,
        depth,
        limit,
    };
    normalize::normalize_attribute_value(text, simple, wanted, list, pool, out)
}

// The attribute value normalized. Success: the length written, the openings.
pub fn govlezna_normalize_attribute_value(
    text: &[u8],
    version: u8,
    depth: u64,
    limit: u64,
    list: &[u8],
    pool: &[u8],
    out: &mut [u8],
    answer: &mut [u64; 2],
) -> u32
    ensures { called result answer.new (out.new ∷ []) ≡ normalize_attribute_value_call text.now version depth limit list.now pool.now out.old }
{
    put(
        checked_value::<false>(text, version, depth, limit, list, pool, out),
        answer,
    )
}

// The same, and every character has to be one of the version (K8). Success: the length written, the openings.
pub fn govlezna_normalize_attribute_value_strict(
    text: &[u8],
    version: u8,
    depth: u64,
    limit: u64,
    list: &[u8],
    pool: &[u8],
    out: &mut [u8],
    answer: &mut [u64; 2],
) -> u32
    ensures { called result answer.new (out.new ∷ []) ≡ normalize_attribute_value_strict_call text.now version depth limit list.now pool.now out.old }
{
    put(
        checked_value::<true>(text, version, depth, limit, list, pool, out),
        answer,
    )
}

fn checked_form<const STRICT: bool>(
    text: &[u8],
    version: u8,
    depth: u64,
    limit: u64,
    list: &[u8],
    pool: &[u8],
    scratch: &mut [u8],
    out: &mut [u8],
) -> Answer
    ensures { call_of (answered result) (scratch.new ∷ out.new ∷ []) ≡ guarded (walk_check text.now version depth limit list.now pool.now) (scratch.old ∷ out.old ∷ []) (formed (rule_of version) (normalize (reading_by STRICT (rule_of version) list.now pool.now limit) depth text.now) scratch.old out.old) }
{
    checks::check_walk(text, false, version, depth, limit, list, pool)?;
    let wanted = Wanted {
        version,
        strict: STRICT,
        depth,
        limit,
    };
    normalize::canonical_form(text, wanted, list, pool, scratch, out)
}

// The canonical form of the normalized value, whose last character the scratch takes. Success: the length written, the openings.
pub fn govlezna_canonical_form(
    text: &[u8],
    version: u8,
    depth: u64,
    limit: u64,
    list: &[u8],
    pool: &[u8],
    scratch: &mut [u8],
    out: &mut [u8],
    answer: &mut [u64; 2],
) -> u32
    ensures { called result answer.new (scratch.new ∷ out.new ∷ []) ≡ canonical_form_call text.now version depth limit list.now pool.now scratch.old out.old }
{
    put(
        checked_form::<false>(text, version, depth, limit, list, pool, scratch, out),
        answer,
    )
}

// The canonical form of the value that is normalized so, whose last character the scratch takes. Success: the length written, the openings.
pub fn govlezna_canonical_form_strict(
    text: &[u8],
    version: u8,
    depth: u64,
    limit: u64,
    list: &[u8],
    pool: &[u8],
    scratch: &mut [u8],
    out: &mut [u8],
    answer: &mut [u64; 2],
) -> u32
    ensures { called result answer.new (scratch.new ∷ out.new ∷ []) ≡ canonical_form_strict_call text.now version depth limit list.now pool.now scratch.old out.old }
{
    put(
        checked_form::<true>(text, version, depth, limit, list, pool, scratch, out),
        answer,
    )
}

fn checked_nmtokens(
    text: &[u8],
    wanted: Wanted,
    list: &[u8],
    pool: &[u8],
    scratch: &mut [u8],
    out: &mut [u8],
) -> Answer
    ensures { call_of (answered result) (scratch.new ∷ out.new ∷ []) ≡ guarded (walk_check text.now wanted.version wanted.depth wanted.limit list.now pool.now) (scratch.old ∷ out.old ∷ []) (collapsed (outcome_for wanted list.now pool.now text.now) scratch.old out.old) }
{
    let Wanted {
        version,
        depth,
        limit,
        ..
    } = wanted;
    checks::check_walk(text, false, version, depth, limit, list, pool)?;
    nmtokens::normalize_nmtokens(text, wanted, list, pool, scratch, out)
}

// The value normalized as a list of tokens (K5): the scratch takes it, its second stage goes to `out`. Success: the length written, the
// openings.
pub fn govlezna_normalize_nmtokens(
    text: &[u8],
    version: u8,
    depth: u64,
    limit: u64,
    list: &[u8],
    pool: &[u8],
    scratch: &mut [u8],
    out: &mut [u8],
    answer: &mut [u64; 2],
) -> u32
    ensures { called result answer.new (scratch.new ∷ out.new ∷ []) ≡ normalize_nmtokens_call text.now version depth limit list.now pool.now scratch.old out.old }
{
    put(
        checked_nmtokens(
            text,
            Wanted {
                version,
                strict: false,
                depth,
                limit,
            },
            list,
            pool,
            scratch,
            out,
        ),
        answer,
    )
}

// The next token of such a result; the offset is lent, and moves on. Success: start, length.
pub fn govlezna_next_nmtoken(text: &[u8], offset: &mut u64, answer: &mut [u64; 2]) -> u32
    ensures { called result answer.new ((offset.new ∷ []) ∷ []) ≡ next_nmtoken_call text.now offset.old }
{
    let moved = collapse::checked_token(text, *offset);
    *offset = moved.offset;
    let token = moved.answer;
    put(token, answer)
}

// The text without the white space at its start. Success: start, length.
pub fn govlezna_trim_xml_start(text: &[u8], answer: &mut [u64; 2]) -> u32
    ensures { called result answer.new [] ≡ trim_call trim_start text.now }
{
    put(
        checks::checked_part(text, utils::trim_xml_start(text)),
        answer,
    )
}

// The text without the white space at its end. Success: start, length.
pub fn govlezna_trim_xml_end(text: &[u8], answer: &mut [u64; 2]) -> u32
    ensures { called result answer.new [] ≡ trim_call trim_end text.now }
{
    put(
        checks::checked_part(text, utils::trim_xml_end(text)),
        answer,
    )
}

// The text without the white space at both ends. Success: start, length.
pub fn govlezna_trim_xml_spaces(text: &[u8], answer: &mut [u64; 2]) -> u32
    ensures { called result answer.new [] ≡ trim_call trim_spaces text.now }
{
    put(
        checks::checked_part(text, utils::trim_xml_spaces(text)),
        answer,
    )
}

// An answer beside the cursor that it leaves.
fn leave(res: Answer, next: Cursor) -> CDataNext
    ensures { result ≡ cursor_left (answered res) next }
{
    match res {
        Ok(words) => CDataNext {
            number: 0,
            words: [words.first, words.second],
            next,
        },
        Err(refusal) => CDataNext {
            number: refusal.number(),
            words: refusal.words(),
            next,
        },
    }
}

// The by-value core, which other crates can call.
pub fn cdata_next(text: &[u8], cursor: Cursor) -> CDataNext
    ensures { result ≡ cdata_next_call text.now cursor }
{
    let answered = checks::checked_piece(text, cursor);
    let answer = answered.answer;
    let next = answered.next;
    leave(answer, next)
}

// The next piece of the text for a CDATA section; the cursor is lent, and moves on. Success: start, length.
pub fn govlezna_cdata_next(text: &[u8], cursor: &mut Cursor, answer: &mut [u64; 2]) -> u32
    ensures { record { number = result; words = answer.new; next = cursor.new } ≡ cdata_next_call text.now cursor.old }
{
    let s = cdata_next(text, *cursor);
    let words = s.words;
    *cursor = s.next;
    *answer = words;
    s.number
}

// One more of a form in a register (K10), whose used length is lent. Success: the form's count, the used length.
pub fn govlezna_register_add(
    form: &[u8],
    buffer: &mut [u8],
    used: &mut u64,
    answer: &mut [u64; 2],
) -> u32
    ensures { called result answer.new (lent buffer.new used.new) ≡ register_add_call form.now buffer.old used.old }
{
    let added = registers::add(form, buffer, *used);
    *used = changes::used_after(added, *used);
    put(added, answer)
}

// One less (K10). Success: the form's count, the used length.
pub fn govlezna_register_withdraw(
    form: &[u8],
    buffer: &mut [u8],
    used: &mut u64,
    answer: &mut [u64; 2],
) -> u32
    ensures { called result answer.new (lent buffer.new used.new) ≡ register_withdraw_call form.now buffer.old used.old }
{
    let withdrawn = registers::withdraw(form, buffer, *used);
    *used = changes::used_after(withdrawn, *used);
    put(withdrawn, answer)
}

// The count of a form in a register (K10). Success: the count.
pub fn govlezna_register_count(form: &[u8], buffer: &[u8], used: u64, answer: &mut [u64; 2]) -> u32
    ensures { called result answer.new [] ≡ register_count_call form.now buffer.now used }
{
    put(registers::count(form, buffer, used), answer)
}

fn checked_least(text: &[u8], version: u8, limit: u64, list: &[u8], pool: &[u8]) -> Answer
    ensures { call_of (answered result) [] ≡ least_depth_call text.now version limit list.now pool.now }
{
    let simple = simple::is_simple(text);
    checks::check_walk(text, simple, version, 128, limit, list, pool)?;
    walk_least_depth::least_of(text, simple, version, limit, list, pool)
}

// The least depth at which the value is accepted (K14). Success: that depth.
pub fn govlezna_least_depth(
    text: &[u8],
    version: u8,
    limit: u64,
    list: &[u8],
    pool: &[u8],
    answer: &mut [u64; 2],
) -> u32
    ensures { called result answer.new [] ≡ least_depth_call text.now version limit list.now pool.now }
{
    put(checked_least(text, version, limit, list, pool), answer)
}

fn checked_declarations(text: &[u8], version: u8, list: &mut [u8], pool: &mut [u8]) -> Answer
    ensures { call_of (answered result) (list.new ∷ pool.new ∷ []) ≡ read_declarations_call text.now version list.old pool.old }
{
    checks::check_eols(text, version)?;
    table_declarations::read_declarations(text, version, list, pool)
}

// A text of entity declarations as a table. Success: the length of the list, of the pool.
pub fn govlezna_read_declarations(
    text: &[u8],
    version: u8,
    list: &mut [u8],
    pool: &mut [u8],
    answer: &mut [u64; 2],
) -> u32
    ensures { called result answer.new (list.new ∷ pool.new ∷ []) ≡ read_declarations_call text.now version list.old pool.old }
{
    put(checked_declarations(text, version, list, pool), answer)
}

// How the values of a job fare (K11): a thin function over the lent spans, the turns of which are `walk_rehearsal::count_value`. Success:
// nothing but the report.
pub fn govlezna_rehearse(
    text: &[u8],
    spans: &[Span],
    version: u8,
    depth: u64,
    limit: u64,
    list: &[u8],
    pool: &[u8],
    report: &mut [u64; 29],
    answer: &mut [u64; 2],
) -> u32
    ensures { called result answer.new (report.new ∷ []) ≡ rehearse_call text.now spans.now version depth limit list.now pool.now report.old }
{
    let staying = walk_rehearsal::leaving(spans, text.len());
    let job = walk_rehearsal::begin(
        report,
        text,
        version,
        depth,
        limit,
        list,
        pool,
        spans.len(),
        staying,
    );
    for s in &spans[..job.count] {
        walk_rehearsal::count_value(report, text, *s, job, list, pool);
    }
    put(job.answer, answer)
}
