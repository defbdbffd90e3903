// Unescaping of a long text with a table: names are looked up by an index of the table (table_index), which is made here, for the count and for
// the writing alike, and as wide as the list asks. No reference is kept: the index finds one as fast, whichever it is.
ghost use Rattle.std.specs.Prelude.{◌≡◌, List, [], ◌∷◌, ℕ, ◌+◌, ◌-◌, ◌≤◌, ◌<◌, length, get_or};
ghost use Rattle.text.specs.Call.{answered, call_of, longest_text};
ghost use Rattle.entity.specs.Table.{ValidTable};
ghost use Rattle.entity.specs.Binding.{binding};
ghost use Rattle.tokens.specs.Outcome.{finished};
ghost use Rattle.tokens.specs.Walking.{stepped, Walked};
ghost use Rattle.unescape.specs.Unescape.{unescape};
ghost use Rattle.unescape.specs.Steps.{Named, Referred, Lent};

use entity::Binding;
use text::refusals::Refusal;
use text::{Answer, Success};
use tokens::Step;

// The name whose `&` is at i is looked up by the index.
fn found_step(
    name: &[u8],
    i: usize,
    next: usize,
    list: &[u8],
    pool: &[u8],
    index: &mut [u64],
    out: &mut [u8],
) -> Step
    requires name_bound { i + 1 + length name.now ≤ longest_text }
    requires valid_table { ValidTable list.now pool.now × Lent list.now pool.now index.old }
    ensures named { Named (binding list.now pool.now name.now) name.now i next out.old out.new (stepped result) }
    ensures lent { Lent list.now pool.now index.new }
{
    let bound = Binding::from(table_index::find(list, pool, name, index));
    crate::bound_step(bound, name.len(), i, next, pool, out)
}

// The reference whose `&` is at i. `out` is the rest of the output.
fn indexed_step(
    text: &[u8],
    i: usize,
    list: &[u8],
    pool: &[u8],
    index: &mut [u64],
    out: &mut [u8],
) -> Step
    requires text_len_bound { length text.now ≤ longest_text }
    requires i_in_bounds { (i < length text.now) × (get_or text.now i 0 ≡ 38) }
    requires valid_table { ValidTable list.now pool.now × Lent list.now pool.now index.old }
    ensures referred { Referred (binding list.now pool.now) text.now i out.old out.new (stepped result) }
    ensures lent { Lent list.now pool.now index.new }
{
    let start = i + 1;
    // Digits end at the `;` by themselves, so that most numbers need no search for it.
    if let Some(quick) = tokens::quick_reference(text, start) {
        return tokens::char_step(quick.c, quick.end + 1, 0, out);
    }
    let end = name_ends::inner_end(text, start);
    if end == text.len() {
        return Err(Refusal::UnterminatedEntity(i as u64, end as u64));
    }
    if text[start] == b'#' {
        return tokens::number_step(&text[start + 1..end], end + 1, 0, out);
    }
    found_step(&text[start..end], i, end + 1, list, pool, index, out)
}

// Runs and references in turn. Writes as much of the value as there is room for.
fn indexed_runs(text: &[u8], list: &[u8], pool: &[u8], index: &mut [u64], out: &mut [u8]) -> Answer
    requires text_len_bound { length text.now ≤ longest_text }
    requires valid_table { ValidTable list.now pool.now × Lent list.now pool.now index.old }
    ensures walked { Walked (unescape (binding list.now pool.now) text.now) out.old out.new (answered result) }
    ensures lent { Lent list.now pool.now index.new }
{
    let mut i: usize = 0;
    let mut len: usize = 0;
    // By hand: a turn begins where the reference before it ended.
    loop {
        let e = name_ends::next_byte(text, i, b'&');
        let at = len.min(out.len());
        output::put_over(&text[i..e], &mut out[at..]);
        len += e - i;
        if e == text.len() {
            return Ok(Success {
                first: len as u64,
                second: 0,
            });
        }
        let rest = len.min(out.len());
        let next = indexed_step(text, e, list, pool, index, &mut out[rest..])?;
        i = next.at;
        len += next.len;
    }
}

// Counts first: a refusal leaves the output, 19 too.
fn indexed_twice(text: &[u8], list: &[u8], pool: &[u8], index: &mut [u64], out: &mut [u8]) -> Answer
    requires text_len_bound { length text.now ≤ longest_text }
    requires valid_table { ValidTable list.now pool.now × Lent list.now pool.now index.old }
    ensures { call_of (answered result) (out.new ∷ []) ≡ finished (unescape (binding list.now pool.now) text.now) out.old }
{
    let counted = indexed_runs(text, list, pool, index, &mut out[..0])?;
    let needed = counted.first;
    if (out.len() as u64) < needed {
        return Err(Refusal::NoRoom(needed));
    }
    indexed_runs(text, list, pool, index, out)
}

// By an index of so many words: its state, and four slots in each of the others.
fn unescape_sized<const WORDS: usize>(
    text: &[u8],
    list: &[u8],
    pool: &[u8],
    out: &mut [u8],
) -> Answer
    requires words { (5 ≤ WORDS) × (WORDS ≤ 0x10000) }
    requires text_len_bound { length text.now ≤ longest_text }
    requires valid_table { ValidTable list.now pool.now }
    ensures { call_of (answered result) (out.new ∷ []) ≡ finished (unescape (binding list.now pool.now) text.now) out.old }
{
    let mut index = [0u64; WORDS];
    indexed_twice(text, list, pool, &mut index, out)
}

// An index as wide as the list asks: four slots for each text of the table. It has two users, so that its frame is not part of theirs: short texts
// have no use for 32 KB of slots.
pub fn unescape_listed(text: &[u8], list: &[u8], pool: &[u8], out: &mut [u8]) -> Answer
    requires text_len_bound { length text.now ≤ longest_text }
    requires valid_table { ValidTable list.now pool.now }
    ensures { call_of (answered result) (out.new ∷ []) ≡ finished (unescape (binding list.now pool.now) text.now) out.old }
{
    if list.len() <= 770 {
        return unescape_sized::<65>(text, list, pool, out);
    }
    if list.len() <= 3074 {
        return unescape_sized::<257>(text, list, pool, out);
    }
    if list.len() <= 12290 {
        return unescape_sized::<1025>(text, list, pool, out);
    }
    unescape_sized::<4097>(text, list, pool, out)
}
