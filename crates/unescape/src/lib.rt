// Unescaping: references become the characters and the texts that they stand for.
#![tactic(auto)]

ghost use Rattle.std.specs.Prelude.{◌≡◌, List, [], ◌∷◌, ℕ, ◌+◌, ◌-◌, ◌≤◌, ◌<◌, length, get_or};
ghost use Rattle.text.specs.Call.{answered, call_of, longest_text};
ghost use Rattle.entity.specs.Table.{ValidTable};
ghost use Rattle.entity.specs.Binding.{binding, bound_to, Lies};
ghost use Rattle.tokens.specs.Outcome.{finished};
ghost use Rattle.tokens.specs.Walking.{stepped, Walked};
ghost use Rattle.unescape.specs.Unescape.{unescape};
ghost use Rattle.tokens.specs.Seen.{Kept, next_place};
ghost use Rattle.tokens.specs.Memory.{Memory, Advanced};
ghost use Rattle.output.specs.Over.{over};
ghost use Rattle.unescape.specs.Steps.{Near, Named, Referred, unescaping};

use entity::Binding;
use text::refusals::Refusal;
use text::{Answer, Success};
use tokens::{Buffer, Next, Step};

mod indexed;

// What a bound name of `size` bytes stands for, its `&` at i: a text of the table is copied as a part of the pool.
fn bound_step(
    bound: Binding,
    size: usize,
    i: usize,
    next: usize,
    pool: &[u8],
    out: &mut [u8],
) -> Step
    requires size_bound { i + 1 + size ≤ longest_text }
    requires lies { Lies pool.now bound }
    ensures { (name : List ℕ) → length name ≡ size → Named (bound_to pool.now bound) name i next out.old out.new (stepped result) }
{
    match bound {
        Binding::Text { start, end } => {
            output::put_over(&pool[start..end], out);
            Ok(Next {
                at: next,
                len: end - start,
                openings: 0,
            })
        }
        Binding::External => Err(Refusal::ExternalEntity(i as u64)),
        Binding::Predefined(b) => {
            output::put_byte(b, 0, out);
            Ok(Next {
                at: next,
                len: 1,
                openings: 0,
            })
        }
        Binding::Unknown => Err(Refusal::UnrecognizedEntity((i + 1) as u64, (i + 1 + size) as u64)),
    }
}

// The name whose `&` is at i is looked up. Most names are short, and their lookup is compiled into the walk.
fn name_step(name: &[u8], i: usize, next: usize, list: &[u8], pool: &[u8], out: &mut [u8]) -> Step
    requires name_bound { i + 1 + length name.now ≤ longest_text }
    requires valid_table { ValidTable list.now pool.now }
    ensures { Named (binding list.now pool.now name.now) name.now i next out.old out.new (stepped result) }
{
    if name.len() < 8 {
        return bound_step(
            entity::resolve_short(list, pool, name),
            name.len(),
            i,
            next,
            pool,
            out,
        );
    }
    bound_step(
        entity::resolve_entity(list, pool, name),
        name.len(),
        i,
        next,
        pool,
        out,
    )
}

// The reference whose `&` is at i. `out` is the rest of the output.
fn unescape_step(text: &[u8], i: usize, list: &[u8], pool: &[u8], out: &mut [u8]) -> Step
    requires text_len_bound { length text.now ≤ longest_text }
    requires i_in_bounds { (i < length text.now) × (get_or text.now i 0 ≡ 38) }
    requires valid_table { ValidTable list.now pool.now }
    ensures { Referred (binding list.now pool.now) text.now i out.old out.new (stepped result) }
{
    let start = i + 1;
    // Digits end at the `;` by themselves, so that most numbers need no search for it.
    if let Some(quick) = tokens::quick_reference(text, start) {
        return tokens::char_step(quick.c, quick.end + 1, 0, out);
    }
    let end = tokens::name_end(text, start, true);
    if end == text.len() {
        return Err(Refusal::UnterminatedEntity(i as u64, end as u64));
    }
    if text[start] == b'#' {
        return tokens::number_step(&text[start + 1..end], end + 1, 0, out);
    }
    name_step(&text[start..end], i, end + 1, list, pool, out)
}

// The reference whose `&` is at i, after a value of `len` bytes: one that was met before, or a new one, which is then kept.
fn known_step(
    text: &[u8],
    i: usize,
    list: &[u8],
    pool: &[u8],
    len: usize,
    seen: &mut [u64],
    out: &mut [u8],
) -> Step
    requires text_len_bound { length text.now ≤ longest_text }
    requires i_in_bounds { (i < length text.now) × (get_or text.now i 0 ≡ 38) }
    requires valid_table { ValidTable list.now pool.now }
    requires len_bound { (len ≤ 0x1000000000000) × Kept seen.old len 0 × (next_place seen.old < 4) }
    ensures { (value whole : List ℕ) → Memory (unescaping (binding list.now pool.now)) text.now seen.old value → out.old ≡ over value whole → length value ≡ len → Advanced (unescaping (binding list.now pool.now)) text.now i 0 value whole seen.new out.new (stepped result) × Near text.now i (stepped result) }
{
    if let Some(known) = tokens::seen_step(text, i, len, 0, 0, seen, out) {
        return Ok(known);
    }
    let rest = len.min(out.len());
    let step = unescape_step(text, i, list, pool, &mut out[rest..])?;
    tokens::remember(text, i, step.at - i, len, step.len, 0, seen);
    Ok(step)
}

// Runs and references in turn. Writes as much of the value as there is room for.
fn unescape_runs(text: &[u8], list: &[u8], pool: &[u8], out: &mut [u8]) -> Answer
    requires text_len_bound { length text.now ≤ longest_text }
    requires valid_table { ValidTable list.now pool.now }
    ensures { Walked (unescape (binding list.now pool.now) text.now) out.old out.new (answered result) }
{
    let mut seen = [0u64; tokens::SEEN_SIZE];
    let mut i: usize = 0;
    let mut len: usize = 0;
    let mut last: usize = 16;
    // By hand: a turn begins where the reference before it ended.
    loop {
        let at = len.min(out.len());
        let e = runs::amp::run_to_amp(text, i, last, &mut out[at..]);
        last = e - i;
        len += last;
        if e == text.len() {
            return Ok(Success {
                first: len as u64,
                second: 0,
            });
        }
        let next = known_step(text, e, list, pool, len, &mut seen, out)?;
        i = next.at;
        len += next.len;
    }
}

// Counts first: a refusal leaves the output, 19 too.
fn unescape_long(text: &[u8], list: &[u8], pool: &[u8], out: &mut [u8]) -> Answer
    requires text_len_bound { length text.now ≤ longest_text }
    requires valid_table { ValidTable list.now pool.now }
    ensures { call_of (answered result) (out.new ∷ []) ≡ finished (unescape (binding list.now pool.now) text.now) out.old }
{
    let counted = unescape_runs(text, list, pool, &mut out[..0])?;
    let needed = counted.first;
    if (out.len() as u64) < needed {
        return Err(Refusal::NoRoom(needed));
    }
    unescape_runs(text, list, pool, out)
}

// By an index where its making may pay: the longer the list, the fewer references it takes.
fn unescape_by_length(text: &[u8], list: &[u8], pool: &[u8], out: &mut [u8]) -> Answer
    requires text_len_bound { length text.now ≤ longest_text }
    requires valid_table { ValidTable list.now pool.now }
    ensures { call_of (answered result) (out.new ∷ []) ≡ finished (unescape (binding list.now pool.now) text.now) out.old }
{
    if 1024 <= text.len() {
        if 32 <= list.len() {
            return indexed::unescape_listed(text, list, pool, out);
        }
    } else if 3074 < list.len() {
        return indexed::unescape_listed(text, list, pool, out);
    }
    unescape_long(text, list, pool, out)
}

// A text without references is copied at once. A short one's value is held while it is counted: a refusal leaves the output, 19 too.
pub fn unescape_with(text: &[u8], list: &[u8], pool: &[u8], out: &mut [u8]) -> Answer
    requires text_len_bound { length text.now ≤ longest_text }
    requires valid_table { ValidTable list.now pool.now }
    ensures { call_of (answered result) (out.new ∷ []) ≡ finished (unescape (binding list.now pool.now) text.now) out.old }
{
    if runs::amp::is_whole(text) {
        return tokens::copied_whole(text, Buffer::Output, out);
    }
    if 128 < text.len() {
        return unescape_by_length(text, list, pool, out);
    }
    let mut held = [0u8; 128];
    let counted = unescape_runs(text, list, pool, &mut held)?;
    let len = counted.first;
    if (out.len() as u64) < len {
        return Err(Refusal::NoRoom(len));
    }
    if len <= 128 {
        output::put_run(&held[..len as usize], out);
        return Ok(counted);
    }
    unescape_runs(text, list, pool, out)
}
