// Declarations of general entities, `<!ENTITY name "value">`, read into a table (document 02, K3). Places are those of the text as it is handed
// over; only the answer counts them after line ends. Every reader writes as far as there is room, so that one that is lent nothing counts.
#![tactic(auto)]

ghost use Rattle.std.specs.Prelude.{◌≡◌, List, [], ◌∷◌, ℕ, ◌+◌, ◌*◌, ◌-◌, ◌≤◌, ◌<◌, length, get_or, drop, Bool};
ghost use Rattle.text.specs.Call.{answered, call_of, laid, longest_text};
ghost use Rattle.text.specs.Version.{rule_of};
ghost use Rattle.table_grammar.specs.EntityValue.{read};
ghost use Rattle.table_grammar.specs.EntityDecl.{opening, declared_name, definition, Entity, entity, no_more, entities};
ghost use Rattle.table_grammar.specs.TableWritten.{most, list_of, pool_of, tabled, read_declarations};
ghost use Rattle.table_names.specs.NameTerms.{left};
ghost use Rattle.table_declarations.specs.DeclarationSteps.{PlainWord, Literally, MeetsEntity, MeetsAll, Inside, Counted};
ghost use Rattle.table_values.specs.ValueSteps.{Meets, fault, KeptFault};

use table_values::{Fault, Next, space};
use text::refusals::Refusal;
use text::{Answer, Success, pattern};

pub mod commands;

// A declaration: where it ends, and the lengths of its name and of its value in the pool.
#[derive(Drop)]
pub struct Declared {
    pub at: usize,
    pub name: usize,
    pub value: usize,
}

// How many declarations a text has, and the length of their names and values.
#[derive(Drop)]
pub struct Totals {
    pub count: usize,
    pub pool: usize,
}

// The longest pool, and the most declarations.
pub const LONGEST_POOL: usize = 1048576;

pub const MOST: usize = 4096;

// Where the text from i on departs from the word, or the place after it. (`starts_with` would not tell the place.)
fn literal_end(text: &[u8], i: usize, word: &[u8], newer: bool) -> usize
    requires i_in_bounds { (i ≤ length text.now) × (length text.now ≤ longest_text) }
    requires word_len_bound { (length word.now ≤ 8) × PlainWord word.now }
    ensures { Literally newer text.now i word.now result }
{
    for (k, &c) in word.iter().enumerate() {
        if !pattern::byte_at(text, i + k, c) {
            return i + k;
        }
    }
    i + word.len()
}

// [71] GEDecl, up to its name: where that starts.
fn opening_step(text: &[u8], i: usize, newer: bool) -> Result<Next, Fault>
    requires { (i ≤ length text.now) × (length text.now ≤ longest_text) }
    ensures { (old : List ℕ) → Meets newer text.now i (opening (left newer text.now i)) old old result }
{
    let word = [b'<', b'!', b'E', b'N', b'T', b'I', b'T', b'Y'];
    let key = literal_end(text, i, &word, newer);
    if key < i + 8 {
        return Err(Fault::Misplaced { at: key });
    }
    let at = space::space_end(text, key, newer);
    if at == key {
        return Err(Fault::Misplaced { at });
    }
    Ok(Next { at, len: 0 })
}

// [71] GEDecl, its name at `from`, and the white space after it.
fn name_step(text: &[u8], from: usize, newer: bool, out: &mut [u8]) -> Result<Next, Fault>
    requires { (from ≤ length text.now) × (length text.now ≤ longest_text) }
    ensures { Meets newer text.now from (declared_name (left newer text.now from)) out.old out.new result }
{
    let end = table_names::name_end(text, from);
    if end == from {
        return Err(Fault::Misplaced { at: end });
    }
    let at = space::space_end(text, end, newer);
    if at == end {
        return Err(Fault::Misplaced { at: end });
    }
    let len = end - from;
    if 255 < len {
        return Err(Fault::Excessive { at: end });
    }
    output::put_over(&text[from..end], out);
    Ok(Next { at, len })
}

// [73] EntityDef, the value whose quote is at `from`, and the end of [71] GEDecl.
fn definition_step(text: &[u8], from: usize, newer: bool, out: &mut [u8]) -> Result<Next, Fault>
    requires { (from ≤ length text.now) × (length text.now ≤ longest_text) }
    ensures { Meets newer text.now from (definition (left newer text.now from)) out.old out.new result }
{
    if from == text.len() {
        return Err(Fault::Misplaced { at: from });
    }
    let quote = text[from];
    if (quote != b'"') & (quote != b'\'') {
        return Err(Fault::Misplaced { at: from });
    }
    let value = table_values::value_step(text, from + 1, quote, newer, out)?;
    let end = space::space_end(text, value.at, newer);
    if !pattern::byte_at(text, end, b'>') {
        return Err(Fault::Misplaced { at: end });
    }
    Ok(Next {
        at: end + 1,
        len: value.len,
    })
}

// [71] GEDecl: the declaration at i. Its name and then its value go to the start of `out`.
fn declaration(text: &[u8], i: usize, newer: bool, out: &mut [u8]) -> Result<Declared, Fault>
    requires { (i ≤ length text.now) × (length text.now ≤ longest_text) }
    ensures { MeetsEntity newer text.now i (entity (left newer text.now i)) out.old out.new result }
{
    let start = opening_step(text, i, newer)?;
    let name = name_step(text, start.at, newer, out)?;
    let room = name.len.min(out.len());
    let value = definition_step(text, name.at, newer, &mut out[room..])?;
    Ok(Declared {
        at: value.at,
        name: name.len,
        value: value.len,
    })
}

// What stands at i after the most declarations: a `<` is one too many.
fn beyond(text: &[u8], i: usize) -> Fault
    requires { i < length text.now }
    ensures { ((newer : Bool) → no_more (left newer text.now i) ≡ fault newer text.now result) × ((old : List ℕ) → KeptFault text.now old old result) }
{
    if text[i] == b'<' {
        return Fault::Excessive { at: i };
    }
    Fault::Misplaced { at: i }
}

// All declarations of the text: their commands to `list`, names and values to `pool`, as far as there is room.
fn read_all(text: &[u8], newer: bool, list: &mut [u8], pool: &mut [u8]) -> Result<Totals, Fault>
    requires { length text.now ≤ longest_text }
    ensures { MeetsAll newer text.now list.old pool.old list.new pool.new result }
{
    let mut i = space::space_end(text, 0, newer);
    let mut count: usize = 0;
    let mut used: usize = 0;
    // By hand: a declaration begins where the one before it ended.
    while i < text.len() {
        if count == MOST {
            return Err(beyond(text, i));
        }
        let room = used.min(pool.len());
        let read = declaration(text, i, newer, &mut pool[room..])?;
        let place = (12 * count).min(list.len());
        commands::put_command(used, read.name, read.value, &mut list[place..]);
        used += read.name + read.value;
        count += 1;
        i = space::space_end(text, read.at, newer);
    }
    Ok(Totals { count, pool: used })
}

// The place as it is counted after line ends: what is left from there on is taken off the whole.
fn offset_of(text: &[u8], at: usize, newer: bool) -> u64
    requires { at ≤ length text.now }
    ensures { result ≡ length (left newer text.now 0) - length (left newer text.now at) }
{
    let whole = eols::eols_length(text, newer);
    let rest = eols::eols_length(&text[at..], newer);
    whole.saturating_sub(rest) as u64
}

// What stops a reader, as an answer: a place is counted after line ends.
fn fault_answer(stop: Fault, text: &[u8], newer: bool) -> Answer
    requires { Inside text.now stop }
    ensures { (list pool : List ℕ) → call_of (answered result) (list ∷ pool ∷ []) ≡ tabled (left newer text.now 0) (fault newer text.now stop) list pool }
{
    match stop {
        Fault::Misplaced { at } => {
            Err(Refusal::MalformedDeclaration(offset_of(text, at, newer)))
        }
        Fault::Excessive { at } => Err(Refusal::DeclarationTooLarge(offset_of(text, at, newer))),
        Fault::Refused(refusal) => Err(refusal),
    }
}

// Writes what was counted, names and values to the pool, K4's mark, the commands and the end to the list.
fn write_all(text: &[u8], newer: bool, size: usize, list: &mut [u8], pool: &mut [u8])
    requires text_len_bound { length text.now ≤ longest_text }
    requires counted { Counted newer text.now size list.old pool.old }
    ensures { (es : List Entity) → entities most (left newer text.now 0) ≡ read es [] → (list.new ≡ laid (list_of es) list.old) × (pool.new ≡ laid (pool_of es) pool.old) }
{
    // The count has shown that nothing refuses the text.
    let _ = read_all(text, newer, &mut list[1..], pool);
    list[0] = 3;
    list[size - 1] = 0;
}

// Counts and judges first: a refusal leaves list and pool, 23 too.
pub fn read_declarations(text: &[u8], version: u8, list: &mut [u8], pool: &mut [u8]) -> Answer
    requires { length text.now ≤ longest_text }
    ensures { call_of (answered result) (list.new ∷ pool.new ∷ []) ≡ read_declarations (rule_of version) text.now list.old pool.old }
{
    let newer = 1 < version;
    let counted = match read_all(text, newer, &mut list[..0], &mut pool[..0]) {
        Ok(counted) => counted,
        Err(stop) => return fault_answer(stop, text, newer),
    };
    let length = 12 * counted.count + 2;
    let size = counted.pool;
    if (list.len() < length) | (pool.len() < size) | (LONGEST_POOL < size) {
        return Err(Refusal::NoTableRoom(length as u64, size as u64));
    }
    write_all(text, newer, length, list, pool);
    Ok(Success {
        first: length as u64,
        second: size as u64,
    })
}
