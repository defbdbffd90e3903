// The check of an entity table.
#![tactic(auto)]

ghost use Rattle.std.specs.Prelude.{◌≡◌, ◌+◌, ◌<◌, ◌≤◌, true, ◌||◌, not, eqb, length, get_or, drop};
ghost use Rattle.text.specs.Utf8.{well_formed};
ghost use Rattle.text.specs.Call.{answered, passed};
ghost use Rattle.text.specs.Blocks.{Ascii};
ghost use Rattle.entity.specs.Table.{little_endian, inside, declares, declaration_check, table_check};
ghost use Rattle.entity.specs.Steps.{command_check};
ghost use Rattle.tables.specs.Steps.{last_check, Standing};

use text::refusals::Refusal;
use text::{Answer, PASSED, Success, validate};

const LONGEST_LIST: usize = 49154;

const LONGEST_POOL: usize = 1048576;

// A part of the pool, as the operands of a command say it; it may lie outside.
#[derive(Clone, Copy)]
struct Part {
    start: usize,
    length: usize,
    ghost small: { (start < 0x100000000) × (length < 0x10000) },
}

fn is_utf8(text: &[u8]) -> bool
    ensures { result ≡ well_formed text.now }
{
    validate::utf8_end(text) == text.len()
}

// Refusal 9 of a declaration that has this name and this text.
fn ill_formed(name: &[u8], text: &[u8]) -> bool
    ensures { result ≡ (eqb (length name.now) 0 || not (well_formed name.now) || not (well_formed text.now)) }
{
    name.len() == 0 || !is_utf8(name) || !is_utf8(text)
}

// A pool that is long for its list is not searched: its parts are checked one by one.
fn ascii_of(list: &[u8], pool: &[u8]) -> usize
    requires { length list.now ≤ 49154 }
    ensures { Ascii pool.now result }
{
    if pool.len() <= 32 * list.len() {
        validate::ascii_end(pool)
    } else {
        0
    }
}

// Refusals 8 and 9 of the declaration with this name and this text, whose command is at `at`. ASCII parts need no check of UTF-8.
fn check_declaration(pool: &[u8], at: usize, name: Part, text: Part, ascii: usize) -> Answer
    requires { Ascii pool.now ascii }
    ensures { answered result ≡ declaration_check pool.now at (record { name_start = name.start; name_length = name.length; body = inside text.start text.length }) passed }
{
    let name_end = name.start + name.length;
    let text_end = text.start + text.length;
    if (pool.len() < name_end) | (pool.len() < text_end) {
        return Err(Refusal::OutsidePool(at as u64));
    }
    if (name_end <= ascii) & (text_end <= ascii) & (name.length != 0) {
        return Ok(PASSED);
    }
    if ill_formed(&pool[name.start..name_end], &pool[text.start..text_end]) {
        return Err(Refusal::InvalidDefinition(at as u64));
    }
    Ok(PASSED)
}

// The name of the command at `at`, at the same place in both kinds.
fn name_at(list: &[u8], at: usize) -> Part
    requires { at + 6 ≤ length list.now }
    ensures { (result.start ≡ little_endian list.now (at + 1) 4) × (result.length ≡ get_or list.now (at + 5) 0) }
{
    Part {
        start: entity::u32_at(list, at + 1),
        length: usize::from(list[at + 5]),
    }
}

// Refusals 7 to 9 of the command 1 at `at`.
fn check_text(list: &[u8], pool: &[u8], at: usize, ascii: usize) -> Answer
    requires at_in_bounds { (at < length list.now) × (get_or list.now at 0 ≡ 1) }
    requires ascii { Ascii pool.now ascii }
    ensures { answered result ≡ command_check list.now pool.now at }
{
    if list.len() - at < entity::TEXT_SIZE {
        return Err(Refusal::MalformedList(at as u64));
    }
    let name = name_at(list, at);
    let text = Part {
        start: entity::text_start(list, at),
        length: entity::text_length(list, at),
    };
    check_declaration(pool, at, name, text, ascii)
}

// Refusals 7 to 9 of the command 2 at `at`. An external entity has no text: an empty one is as good.
fn check_external(list: &[u8], pool: &[u8], at: usize, ascii: usize) -> Answer
    requires at_in_bounds { (at < length list.now) × (get_or list.now at 0 ≡ 2) }
    requires ascii { Ascii pool.now ascii }
    ensures { answered result ≡ command_check list.now pool.now at }
{
    if list.len() - at < entity::EXTERNAL_SIZE {
        return Err(Refusal::MalformedList(at as u64));
    }
    let text = Part {
        start: 0,
        length: 0,
    };
    check_declaration(pool, at, name_at(list, at), text, ascii)
}

fn check_command(list: &[u8], pool: &[u8], at: usize, ascii: usize) -> Answer
    requires at_in_bounds { (at < length list.now) × (declares (get_or list.now at 0) ≡ true) }
    requires ascii { Ascii pool.now ascii }
    ensures { answered result ≡ command_check list.now pool.now at }
{
    if list[at] == entity::TEXT {
        return check_text(list, pool, at, ascii);
    }
    check_external(list, pool, at, ascii)
}

// What the list answers where no declaration is at `at`, after so many of them.
fn check_end(list: &[u8], at: usize, count: u64) -> Answer
    requires { at ≤ length list.now }
    ensures { answered result ≡ last_check (drop at list.now) at count }
{
    if at == list.len() {
        return Err(Refusal::MalformedList(at as u64));
    }
    if list[at] != entity::END {
        return Err(Refusal::MalformedList(at as u64));
    }
    if at + 1 != list.len() {
        return Err(Refusal::MalformedList((at + 1) as u64));
    }
    Ok(Success {
        first: count,
        second: 0,
    })
}

// The check of a table from `from` on, where commands of both kinds stand, after `before` of them.
fn check_later(list: &[u8], pool: &[u8], ascii: usize, from: usize, before: u64) -> Answer
    requires standing { Standing list.now pool.now from before }
    requires ascii { Ascii pool.now ascii }
    ensures { answered result ≡ table_check list.now pool.now }
{
    let mut at = from;
    let mut count = before;
    while at < list.len() && (list[at] == entity::TEXT) | (list[at] == entity::EXTERNAL) {
        check_command(list, pool, at, ascii)?;
        at += entity::command_size(list[at]);
        count += 1;
    }
    check_end(list, at, count)
}

// Refusals 7 to 9, else the number of declarations. Commands 1 are checked in a loop of their own, as most lists have no others.
fn check_commands(list: &[u8], pool: &[u8]) -> Answer
    requires { (length list.now ≤ 49154) × (length pool.now ≤ 1048576) }
    ensures { answered result ≡ table_check list.now pool.now }
{
    let ascii = ascii_of(list, pool);
    let mut at = entity::mark_size(list);
    let mut count: u64 = 0;
    while at < list.len() && list[at] == entity::TEXT {
        check_text(list, pool, at, ascii)?;
        at += entity::TEXT_SIZE;
        count += 1;
    }
    check_later(list, pool, ascii, at, count)
}

// Refusals 6 to 9, else the number of declarations.
pub fn check_table(list: &[u8], pool: &[u8]) -> Answer
    ensures { answered result ≡ table_check list.now pool.now }
{
    if LONGEST_LIST < list.len() {
        return Err(Refusal::TableTooLong);
    }
    if LONGEST_POOL < pool.len() {
        return Err(Refusal::TableTooLong);
    }
    check_commands(list, pool)
}

// `check_table` for the calls that walk. Most texts are lent no table: a list without commands is answered here, in a few
// instructions that become part of the call.
pub fn check_lent(list: &[u8], pool: &[u8]) -> Answer
    ensures { answered result ≡ table_check list.now pool.now }
{
    if (list.len() == 1) & (pool.len() <= LONGEST_POOL) {
        return check_end(list, entity::mark_size(list), 0);
    }
    check_table(list, pool)
}
