// The calls over attribute values, above the cycle of walker and step (crate cycle). Normalization and the canonical form have one code
// path for both versions.
#![tactic(auto)]

ghost use Rattle.std.specs.Prelude.{◌≡◌, ◌≢◌, true, false, List, [], ◌∷◌, ℕ, ◌≤◌, eqb, ltb, length};
ghost use Rattle.text.specs.Bytes.{pick};
ghost use Rattle.text.specs.Call.{answered, call_of, laid};
ghost use Rattle.text.specs.Version.{Rule, rule_of};
ghost use Rattle.text.specs.Simple.{Simple};
ghost use Rattle.text.specs.Utf8.{WellFormed};
ghost use Rattle.eols.specs.Stops.{rule_for};
ghost use Rattle.canonical.specs.Canonical.{canonical};
ghost use Rattle.canonical.specs.FormEnds.{FormOf};
ghost use Rattle.halts.specs.Halts.{HaltAt, blanks_spaced};
ghost use Rattle.entity.specs.Table.{marked, ValidTable};
ghost use Rattle.tokens.specs.Outcome.{done, finished};
ghost use Rattle.tokens.specs.Walking.{short_of, Ended};
ghost use Rattle.attribute.specs.Walk.{Settings, walk};
ghost use Rattle.attribute.specs.Steps.{read_by};
ghost use Rattle.attribute.specs.Form.{formed, handed};
ghost use Rattle.memory.specs.Slots.{Trusts, Forgot};
ghost use Rattle.memory.specs.Levels.{level_of, Lent};
ghost use Rattle.cycle.specs.Cycle.{Walkable};
ghost use Rattle.normalize.specs.Calls.{reading_for, outcome_for, walk_of, form_of, plainly, written_in, Walks, WalksOn, Lasts};

use memory::{Place, Reached, Reading};
use text::refusals::Refusal;
use text::{Answer, Success};
use tokens::Buffer;

// What a call is asked: its version byte, whether its characters have to be the version's, depth and opening limit.
#[derive(Clone, Copy)]
pub struct Wanted {
    pub version: u8,
    pub strict: bool,
    pub depth: u64,
    pub limit: u64,
}

// A scratch that is wanted is shorter than the 4 bytes for a character.
const NO_SCRATCH: Refusal = Refusal::NoScratch(4);

// ---- the walk over the text of a call

// From a place on, with a new memory.
fn normalize_opened(
    text: &[u8],
    begun: Place,
    reading: Reading,
    list: &[u8],
    pool: &[u8],
    out: &mut [u8],
) -> Answer
    requires valid_table { ValidTable list.now pool.now }
    requires base_value { (reading.base ≡ 0) × Walkable reading text.now }
    requires lent { Lent (level_of reading list.now pool.now text.now) 0 out.old [] begun }
    ensures { WalksOn (level_of reading list.now pool.now text.now) begun [] out.old out.new (answered result) }
{
    let mut seen = [0u64; 84];
    cycle::normalize_attr_steps(text, begun, reading, list, pool, &mut seen, out)
}

// The walk over the text of a call, whose first halt is at `first`. Most texts open nothing, so that the memory is made late.
fn normalize_text(
    text: &[u8],
    first: usize,
    reading: Reading,
    list: &[u8],
    pool: &[u8],
    out: &mut [u8],
) -> Answer
    requires valid_table { ValidTable list.now pool.now }
    requires base_value { (reading.base ≡ 0) × Walkable reading text.now }
    requires halt_at { HaltAt (eqb reading.how 1) text.now 0 first }
    requires well_formed { WellFormed text.now }
    ensures { Walks (form_of reading list.now pool.now text.now) out.old out.new (answered result) }
{
    let mut none = [0u64; 1];
    let start = Place {
        at: 0,
        len: 0,
        openings: 0,
    };
    match flat::normalize_flat(text, start, first, reading, list, pool, &mut none[..0], out)? {
        Reached::End { len, openings } => Ok(Success {
            first: len as u64,
            second: openings,
        }),
        Reached::Opening {
            at,
            next: _,
            command: _,
            slot: _,
            len,
            openings,
        } => normalize_opened(text, Place { at, len, openings }, reading, list, pool, out),
        Reached::Paused(here) => normalize_opened(text, here, reading, list, pool, out),
    }
}

// Copies a value that is held to the start of `out`: by blocks of 16, the last of which may overlap with the one before it.
fn put_held(src: &[u8], out: &mut [u8])
    requires { length src.now ≤ length out.old }
    ensures { out.new ≡ laid src.now out.old }
{
    let n = src.len();
    if n < 16 {
        output::put_over(src, out);
        return;
    }
    let last = n - 16;
    let mut i: usize = 0;
    while i < last {
        output::put_block(&src[i..i + 16], &mut out[i..]);
        i += 16;
    }
    output::put_block(&src[last..], &mut out[last..]);
}

// ---- long texts with a table: the memory has an index of the table's names behind it

// Nothing is kept of the texts of a walk that is over: their values are in another output.
fn forget(room: &mut [u64])
    requires { 84 ≤ length room.old }
    ensures { Forgot room.old room.new }
{
    let mut k: usize = 0;
    while k < 16 {
        room[k] = 0;
        k += 1;
    }
}

// The walk over the text of a call, by a memory that another walk may have used.
fn walk_lent(
    text: &[u8],
    reading: Reading,
    list: &[u8],
    pool: &[u8],
    room: &mut [u64],
    out: &mut [u8],
) -> Answer
    requires valid_table { ValidTable list.now pool.now }
    requires base_value { (reading.base ≡ 0) × Walkable reading text.now }
    requires well_formed { WellFormed text.now }
    requires in_bounds { (84 ≤ length room.old) × Trusts list.now pool.now room.old }
    ensures walks { Walks (form_of reading list.now pool.now text.now) out.old out.new (answered result) }
    ensures lasts { Lasts list.now pool.now room.old room.new (answered result) }
{
    forget(room);
    let start = Place {
        at: 0,
        len: 0,
        openings: 0,
    };
    cycle::normalize_attr_steps(text, start, reading, list, pool, room, out)
}

// What is written, after a count of it. Both walks have one index.
fn walk_into(
    text: &[u8],
    reading: Reading,
    list: &[u8],
    pool: &[u8],
    lacks: bool,
    buffer: Buffer,
    room: &mut [u64],
    out: &mut [u8],
) -> Answer
    requires valid_table { ValidTable list.now pool.now }
    requires base_value { (reading.base ≡ 0) × Walkable reading text.now }
    requires well_formed { WellFormed text.now }
    requires in_bounds { (84 ≤ length room.old) × Trusts list.now pool.now room.old }
    ensures { Ended (short_of buffer) (written_in reading.form lacks (walk_of reading list.now pool.now text.now)) out.old out.new (answered result) }
{
    let mut none = [0u8; 1];
    let counted = walk_lent(text, reading, list, pool, room, &mut none[..0])?;
    let len = counted.first;
    if lacks {
        return Err(NO_SCRATCH);
    }
    if (out.len() as u64) < len {
        return Err(buffer.too_short(len));
    }
    walk_lent(text, reading, list, pool, room, out)
}

// With 84 words of memory, a state and 2,048 words of slots. It has two users, so that it is called: its array is in no frame of a short text.
fn walk_long(
    text: &[u8],
    reading: Reading,
    list: &[u8],
    pool: &[u8],
    lacks: bool,
    buffer: Buffer,
    out: &mut [u8],
) -> Answer
    requires valid_table { ValidTable list.now pool.now }
    requires base_value { (reading.base ≡ 0) × Walkable reading text.now }
    requires well_formed { WellFormed text.now }
    ensures { Ended (short_of buffer) (written_in reading.form lacks (walk_of reading list.now pool.now text.now)) out.old out.new (answered result) }
{
    let mut room = [0u64; 2133];
    walk_into(text, reading, list, pool, lacks, buffer, &mut room, out)
}

// What is written of the value goes to the start of `out`; a buffer that is too short is refused by the number given. Counts first, and
// holds what is short meanwhile, so that a refusal leaves the buffer.
fn normalize_into(
    text: &[u8],
    first: usize,
    reading: Reading,
    list: &[u8],
    pool: &[u8],
    lacks: bool,
    buffer: Buffer,
    out: &mut [u8],
) -> Answer
    requires valid_table { ValidTable list.now pool.now }
    requires base_value { (reading.base ≡ 0) × Walkable reading text.now }
    requires halt_at { HaltAt (eqb reading.how 1) text.now 0 first }
    requires well_formed { WellFormed text.now }
    ensures { Ended (short_of buffer) (written_in reading.form lacks (walk_of reading list.now pool.now text.now)) out.old out.new (answered result) }
{
    if (1024 <= text.len()) & (192 <= list.len()) {
        return walk_long(text, reading, list, pool, lacks, buffer, out);
    }
    let mut held = [0u8; 128];
    let counted = normalize_text(text, first, reading, list, pool, &mut held)?;
    let len = counted.first;
    if lacks {
        return Err(NO_SCRATCH);
    }
    if (out.len() as u64) < len {
        return Err(buffer.too_short(len));
    }
    if len <= 128 {
        put_held(&held[..len as usize], out);
        return Ok(counted);
    }
    normalize_text(text, first, reading, list, pool, out)
}

// The same walk over the value itself.
fn as_value(reading: Reading) -> Reading
    ensures { result ≡ plainly reading }
{
    Reading {
        how: reading.how,
        inner: reading.inner,
        guard: reading.guard,
        inguard: reading.inguard,
        form: 0,
        depth: reading.depth,
        limit: reading.limit,
        base: reading.base,
    }
}

// What is written, after a count of it. By itself, as `normalize_into` with a second user would no longer be compiled into the calls.
fn form_counted(
    text: &[u8],
    first: usize,
    reading: Reading,
    list: &[u8],
    pool: &[u8],
    lacks: bool,
    buffer: Buffer,
    out: &mut [u8],
) -> Answer
    requires valid_table { ValidTable list.now pool.now }
    requires base_value { (reading.base ≡ 0) × Walkable reading text.now }
    requires halt_at { HaltAt (eqb reading.how 1) text.now 0 first }
    requires well_formed { WellFormed text.now }
    ensures { Ended (short_of buffer) (written_in reading.form lacks (walk_of reading list.now pool.now text.now)) out.old out.new (answered result) }
{
    let mut none = [0u8; 1];
    let counted = normalize_text(text, first, reading, list, pool, &mut none[..0])?;
    let len = counted.first;
    if lacks {
        return Err(NO_SCRATCH);
    }
    if (out.len() as u64) < len {
        return Err(buffer.too_short(len));
    }
    normalize_text(text, first, reading, list, pool, out)
}

// The form of the value of a long text. Where the output has six times the text's length, the value is counted first, which is quicker: has
// the output six times its length too, there is room, and the form needs no count. A shorter output may be just as long as the form, so that
// the form is counted at once.
fn form_into(
    text: &[u8],
    first: usize,
    reading: Reading,
    list: &[u8],
    pool: &[u8],
    lacks: bool,
    buffer: Buffer,
    out: &mut [u8],
) -> Answer
    requires valid_table { ValidTable list.now pool.now }
    requires base_value { (reading.base ≡ 0) × Walkable reading text.now }
    requires halt_at { HaltAt (eqb reading.how 1) text.now 0 first }
    requires well_formed { WellFormed text.now }
    ensures { Ended (short_of buffer) (written_in reading.form lacks (walk_of reading list.now pool.now text.now)) out.old out.new (answered result) }
{
    if (1024 <= text.len()) & (192 <= list.len()) {
        return walk_long(text, reading, list, pool, lacks, buffer, out);
    }
    if out.len() / 6 < text.len() {
        return form_counted(text, first, reading, list, pool, lacks, buffer, out);
    }
    let mut none = [0u8; 1];
    let plain = as_value(reading);
    let counted = normalize_text(text, first, plain, list, pool, &mut none[..0])?;
    let len = counted.first;
    if lacks {
        return Err(NO_SCRATCH);
    }
    if out.len() as u64 / 6 < len {
        return form_counted(text, first, reading, list, pool, lacks, buffer, out);
    }
    normalize_text(text, first, reading, list, pool, out)
}

// ---- the calls

// The canonical form of a text as it is. Where the output has six times its length there is room: no count is needed.
fn form_copied(text: &[u8], newer: bool, buffer: Buffer, out: &mut [u8]) -> Answer
    requires { length text.now ≤ 16777216 }
    ensures { Ended (short_of buffer) (done (canonical (rule_for newer) text.now) 0) out.old out.new (answered result) }
{
    if out.len() < 6 * text.len() {
        let length = canonical::canonical_length(text, newer);
        if out.len() < length {
            return Err(buffer.too_short(length as u64));
        }
    }
    let written = canonical::write_canonical(text, newer, out);
    Ok(Success {
        first: written as u64,
        second: 0,
    })
}

// The bytes of a text, TAB and LF as spaces.
fn spaced_plain(text: &[u8], buffer: Buffer, out: &mut [u8]) -> Answer
    requires { length text.now ≤ 16777216 }
    ensures { Ended (short_of buffer) (done (blanks_spaced text.now) 0) out.old out.new (answered result) }
{
    let n = text.len();
    if out.len() < n {
        return Err(buffer.too_short(n as u64));
    }
    halts::put_spaced(text, out);
    Ok(Success {
        first: n as u64,
        second: 0,
    })
}

// Their canonical form.
fn form_spaced(text: &[u8], newer: bool, buffer: Buffer, out: &mut [u8]) -> Answer
    requires { length text.now ≤ 16777216 }
    ensures { Ended (short_of buffer) (done (canonical (rule_for newer) (blanks_spaced text.now)) 0) out.old out.new (answered result) }
{
    let length = flat::write_form(text, 0, newer, out);
    if out.len() < length {
        return Err(buffer.too_short(length as u64));
    }
    Ok(Success {
        first: length as u64,
        second: 0,
    })
}

// The text of a call at depth 0: refused where there is a fault or a stop, else its own value.
fn normalize_bottom(
    text: &[u8],
    how: u8,
    guard: u8,
    form: u8,
    lacks: bool,
    buffer: Buffer,
    out: &mut [u8],
) -> Answer
    requires { length text.now ≤ 16777216 }
    ensures { (s : Settings) → Ended (short_of buffer) (written_in form lacks (walk s (read_by how guard) 0 text.now 0)) out.old out.new (answered result) }
{
    let fault = cycle::bottom_fault(text, how, guard);
    if fault != text.len() {
        return Err(Refusal::ForbiddenCharacter(fault as u64));
    }
    if halts::has_stop(text, how == 1) {
        return Err(Refusal::TooDeep);
    }
    if lacks {
        return Err(NO_SCRATCH);
    }
    if form != 0 {
        return form_copied(text, form == 2, buffer, out);
    }
    tokens::copied_whole(text, buffer, out)
}

// What is written of the text of a call without halts.
fn spaced_whole(text: &[u8], form: u8, lacks: bool, buffer: Buffer, out: &mut [u8]) -> Answer
    requires { length text.now ≤ 16777216 }
    ensures { Ended (short_of buffer) (written_in form lacks (done (blanks_spaced text.now) 0)) out.old out.new (answered result) }
{
    if lacks {
        return Err(NO_SCRATCH);
    }
    if form != 0 {
        return form_spaced(text, form == 2, buffer, out);
    }
    spaced_plain(text, buffer, out)
}

// What may stand in the value itself, and in a text of the table: all, or what the version lets stand there.
fn outer_guard(strict: bool, newer: bool) -> u8
    ensures { result ≡ pick strict (pick newer 2 1) 0 }
{
    if !strict {
        return 0;
    }
    if newer { 2 } else { 1 }
}

fn inner_guard(strict: bool, newer: bool) -> u8
    ensures { result ≡ pick strict (pick newer 3 1) 0 }
{
    if !strict {
        return 0;
    }
    if newer { 3 } else { 1 }
}

// What the walk over the text of a call is set to: the texts of a marked list are past line ends.
fn reading_for(list: &[u8], wanted: Wanted, form: u8) -> Reading
    ensures { result ≡ reading_for wanted (marked list.now) form }
{
    let newer = 1 < wanted.version;
    let how = if newer { 1 } else { 0 };
    let inner = if entity::is_marked(list) { 2 } else { how };
    Reading {
        how,
        inner,
        guard: outer_guard(wanted.strict, newer),
        inguard: inner_guard(wanted.strict, newer),
        form,
        depth: wanted.depth,
        limit: wanted.limit,
        base: 0,
    }
}

// What is written of the value of the text of a call. Where the walk has success it is refused for want of a scratch, or by the number given
// for want of room. What the walk is set to is made only where it walks: most values have no halt.
pub fn normalized(
    text: &[u8],
    wanted: Wanted,
    form: u8,
    lacks: bool,
    list: &[u8],
    pool: &[u8],
    buffer: Buffer,
    out: &mut [u8],
) -> Answer
    requires valid_table { ValidTable list.now pool.now }
    requires text_len_bound { length text.now ≤ 16777216 }
    requires limit_bound { wanted.limit ≤ 1000000 }
    requires well_formed { WellFormed text.now }
    ensures { Ended (short_of buffer) (written_in form lacks (outcome_for wanted list.now pool.now text.now)) out.old out.new (answered result) }
{
    if wanted.depth == 0 {
        let used_up = reading_for(list, wanted, form);
        return normalize_bottom(text, used_up.how, used_up.guard, form, lacks, buffer, out);
    }
    let newer = 1 < wanted.version;
    let first = halts::first_halt(text, newer);
    if first != text.len() {
        let reading = reading_for(list, wanted, form);
        if (form != 0) & (128 < text.len()) {
            return form_into(text, first, reading, list, pool, lacks, buffer, out);
        }
        return normalize_into(text, first, reading, list, pool, lacks, buffer, out);
    }
    let fault = flat::run_fault(text, 0, first, outer_guard(wanted.strict, newer));
    if fault != first {
        return Err(Refusal::ForbiddenCharacter(fault as u64));
    }
    spaced_whole(text, form, lacks, buffer, out)
}

// The attribute value normalized. Success: the length written, the openings. A text of which it is known that it is simple is its own
// value.
pub fn normalize_attribute_value(
    text: &[u8],
    simple: bool,
    wanted: Wanted,
    list: &[u8],
    pool: &[u8],
    out: &mut [u8],
) -> Answer
    requires simple { simple ≡ true → Simple text.now }
    requires valid_table { ValidTable list.now pool.now }
    requires text_len_bound { length text.now ≤ 16777216 }
    requires limit_bound { wanted.limit ≤ 1000000 }
    requires well_formed { WellFormed text.now }
    ensures { call_of (answered result) (out.new ∷ []) ≡ finished (outcome_for wanted list.now pool.now text.now) out.old }
{
    if simple {
        return tokens::copied_whole(text, Buffer::Output, out);
    }
    normalized(text, wanted, 0, false, list, pool, Buffer::Output, out)
}

// The last character of the value, read off the end of its form, in the scratch's first 4 bytes; an empty one leaves them.
fn put_last(form: &[u8], scratch: &mut [u8])
    requires in_bounds { 4 ≤ length scratch.old }
    requires form_of { length form.now ≢ 0 → FormOf form.now }
    ensures { (rule : Rule) (value : List ℕ) → WellFormed value → form.now ≡ canonical rule value → scratch.new ≡ handed value scratch.old }
{
    if form.len() == 0 {
        return;
    }
    canonical::put_hand(form, scratch);
}

// The form that the version asks for.
fn form_for(version: u8) -> u8
    ensures { result ≡ pick (ltb 1 version) 2 1 }
{
    if 1 < version { 2 } else { 1 }
}

// The canonical form of the value; its last character goes to the scratch. Success: the length written, the openings.
pub fn canonical_form(
    text: &[u8],
    wanted: Wanted,
    list: &[u8],
    pool: &[u8],
    scratch: &mut [u8],
    out: &mut [u8],
) -> Answer
    requires valid_table { ValidTable list.now pool.now }
    requires text_len_bound { length text.now ≤ 16777216 }
    requires limit_bound { wanted.limit ≤ 1000000 }
    requires well_formed { WellFormed text.now }
    ensures { call_of (answered result) (scratch.new ∷ out.new ∷ []) ≡ formed (rule_of wanted.version) (outcome_for wanted list.now pool.now text.now) scratch.old out.old }
{
    let lacks = scratch.len() < 4;
    let form = form_for(wanted.version);
    let written = normalized(text, wanted, form, lacks, list, pool, Buffer::Output, out)?;
    put_last(&out[..written.first as usize], scratch);
    Ok(written)
}
