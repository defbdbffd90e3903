// The least depth of a value (K14), and with it what is known of a text at every depth: the least depth that is enough for it, its length and
// its openings. `least_depth` calls itself on a replacement text, a part of the pool, the allowance falling. Between two openings it is the
// walk's own code (`normalize_flat`), which passes by itself what the depth so far is enough for.
#![tactic(auto)]

ghost use Rattle.std.specs.Prelude.{◌≡◌, true, List, ℕ, ◌+◌, ◌≤◌, ◌<◌, max, eqb, length};
ghost use Rattle.text.specs.Call.{answered};
ghost use Rattle.text.specs.Version.{rule_of};
ghost use Rattle.text.specs.Simple.{Simple};
ghost use Rattle.text.specs.Utf8.{WellFormed};
ghost use Rattle.halts.specs.Halts.{Smooth};
ghost use Rattle.entity.specs.Table.{marked, ValidTable};
ghost use Rattle.attribute.specs.Walk.{Settings, walk, reading_of};
ghost use Rattle.attribute.specs.Steps.{read_by};
ghost use Rattle.walk_least_depth.specs.Allowance.{plain_at, inner_at, settings_for, outcomes, known_in, IsKnown, Asks, Remembers};
ghost use Rattle.walk_least_depth.specs.Allowance.{needed, Begins, Small, NeedOf, Says, how_for, allowed_for, least_answer};
ghost use Rattle.walk_depths.specs.LeastDepth.{least_depth};

use memory::{Place, Reached, Reading};
use text::refusals::Refusal;
use text::{Answer, PASSED, Success};

// The least depth, the openings of the whole walk so far, and the length.
#[derive(Clone, Copy)]
pub struct Least {
    pub depth: u64,
    pub openings: u64,
    pub len: usize,
}

// That, or the refusal at the allowance.
pub type Need = Result<Least, Refusal>;

// A text without halts: its length, at depth 0 where it has no stop, else at depth 1.
fn smooth_need(text: &[u8], openings: u64, newer: bool, allowance: u64) -> Need
    requires { Smooth newer text.now 0 (length text.now) }
    ensures { (s : Settings) (how : ℕ) → eqb how 1 ≡ newer → Says allowance (λ d. walk s (read_by how 0) d text.now openings) (needed result) }
{
    if !halts::has_stop(text, newer) {
        return Ok(Least {
            depth: 0,
            openings,
            len: text.len(),
        });
    }
    if allowance == 0 {
        return Err(Refusal::TooDeep);
    }
    Ok(Least {
        depth: 1,
        openings,
        len: text.len(),
    })
}

// What the walk between two openings is set to: the same reading at the depth that was enough so far.
pub fn at_depth(allowed: Reading, depth: u64) -> Reading
    ensures { result ≡ plain_at allowed depth }
{
    Reading {
        how: allowed.how,
        inner: allowed.inner,
        guard: 0,
        inguard: 0,
        form: 0,
        depth,
        limit: allowed.limit,
        base: allowed.base,
    }
}

// And the walk of a text inside, after `before` bytes of this one's value.
pub fn one_less(allowed: Reading, before: usize) -> Reading
    requires { (1 ≤ allowed.depth) × (allowed.base + before ≤ 0x1000000000000) }
    ensures { result ≡ inner_at allowed before }
{
    Reading {
        how: allowed.inner,
        inner: allowed.inner,
        guard: 0,
        inguard: 0,
        form: 0,
        depth: allowed.depth - 1,
        limit: allowed.limit,
        base: allowed.base + before,
    }
}

// ---- what is known of a text: 64 words after the walk's own 84, in one room. For each slot the command plus 1, the least depth of a text that refers to
// it, its length, its openings with its own. The walk's words do not tell the least: it keeps a short text with depth 2 where 1 is enough.

// Is the text of the command known, with a depth up to the allowance and openings that the limit allows?
fn is_known(command: usize, slot: usize, openings: u64, allowed: Reading, room: &[u64]) -> bool
    requires { Asks command slot openings allowed room.now }
    ensures { result ≡ true → IsKnown command slot openings allowed room.now }
{
    if (room[slot + 84] != command as u64 + 1) | (allowed.depth < room[slot + 100]) {
        return false;
    }
    openings + room[slot + 132] <= allowed.limit
}

fn know(command: usize, slot: usize, least: u64, len: usize, opened: u64, room: &mut [u64])
    requires { (command < 49153) × (slot < 16) × (length room.old ≡ 148) }
    ensures { room.new ≡ known_in room.old slot command least len opened }
{
    room[slot + 84] = command as u64 + 1;
    room[slot + 100] = least;
    room[slot + 116] = len as u64;
    room[slot + 132] = opened;
}

// Keeps what the text of a command gave, for the walk and as known.
fn keep_text(
    command: usize,
    slot: usize,
    least: u64,
    place: usize,
    len: usize,
    opened: u64,
    room: &mut [u64],
)
    requires { (command < 49153) × (slot < 16) × (length room.old ≡ 148) }
    ensures { Remembers room.old slot command least place len opened room.new }
{
    memory::keep(command, slot, least, place, len, opened, &mut room[..84]);
    know(command, slot, least, len, opened, room);
}

// The least depth of a text, after so many openings; the depth of the reading is the allowance.
pub fn least_depth(
    text: &[u8],
    openings: u64,
    allowed: Reading,
    list: &[u8],
    pool: &[u8],
    room: &mut [u64],
) -> Need
    requires valid_table { ValidTable list.now pool.now }
    requires small { Small allowed text.now }
    requires begins { Begins (settings_for allowed list.now pool.now) list.now pool.now text.now room.old allowed.base openings }
    ensures { NeedOf allowed list.now pool.now text.now openings room.old room.new (needed result) }
{
    let newer = allowed.how == 1;
    let mut first = halts::next_halt(text, 0, newer);
    if first == text.len() {
        return smooth_need(text, openings, newer, allowed.depth);
    }
    if allowed.depth == 0 {
        return Err(Refusal::TooDeep);
    }
    let mut at: usize = 0;
    let mut len: usize = 0;
    let mut made = openings;
    let mut most: u64 = 1;
    let mut none = [0u8; 1];
    // By hand: a turn begins where the one before it came to a text to open.
    loop {
        match flat::normalize_flat(
            text,
            Place {
                at,
                len,
                openings: made,
            },
            first,
            at_depth(allowed, most),
            list,
            pool,
            &mut room[..84],
            &mut none[..0],
        )? {
            Reached::End { len: all, openings } => {
                return Ok(Least {
                    depth: most,
                    openings,
                    len: all,
                });
            }
            Reached::Paused(here) => {
                at = here.at;
                len = here.len;
                made = here.openings;
                first = halts::next_halt(text, at, newer);
            }
            Reached::Opening {
                at: _,
                next,
                command,
                slot,
                len: before,
                openings,
            } => {
                if is_known(command, slot, openings, allowed, room) {
                    most = most.max(room[slot + 100]);
                    made = openings + room[slot + 132];
                    len = before + room[slot + 116] as usize;
                    at = next;
                    first = halts::next_halt(text, at, newer);
                } else {
                    let start = entity::text_start(list, command);
                    let end = start + entity::text_length(list, command);
                    let found = least_depth(
                        &pool[start..end],
                        openings + 1,
                        one_less(allowed, before),
                        list,
                        pool,
                        room,
                    )?;
                    keep_text(
                        command,
                        slot,
                        found.depth + 1,
                        allowed.base + before,
                        found.len,
                        found.openings - openings,
                        room,
                    );
                    most = most.max(found.depth + 1);
                    made = found.openings;
                    len = before + found.len;
                    at = next;
                    first = halts::next_halt(text, at, newer);
                }
            }
        }
    }
}

// With a new memory, at the start of what a call would write.
pub fn need_of(text: &[u8], openings: u64, allowed: Reading, list: &[u8], pool: &[u8]) -> Need
    requires valid_table { ValidTable list.now pool.now }
    requires base_value { (allowed.base ≡ 0) × (openings ≤ allowed.limit) × Small allowed text.now }
    requires well_formed { WellFormed text.now }
    ensures { Says allowed.depth (outcomes allowed list.now pool.now text.now openings) (needed result) }
{
    let mut room = [0u64; 148];
    least_depth(text, openings, allowed, list, pool, &mut room)
}

// ---- the call

// 32 in place of the 16 of depth 128.
fn answer_of(need: Need) -> Answer
    ensures { answered result ≡ least_answer (needed need) }
{
    match need {
        Ok(enough) => Ok(Success {
            first: enough.depth,
            second: 0,
        }),
        Err(Refusal::TooDeep | Refusal::Numbered(16, _, _)) => Err(Refusal::NoDepth),
        Err(refusal) => Err(refusal),
    }
}

// How the value itself is read, by the version.
fn how_of(version: u8) -> u8
    ensures { result ≡ how_for version }
{
    if 1 < version { 1 } else { 0 }
}

// What a call's text is read with: the texts of a marked list are past line ends.
pub fn allowed_for(list: &[u8], version: u8, depth: u64, limit: u64) -> Reading
    ensures { result ≡ allowed_for version (marked list.now) depth limit }
{
    let how = how_of(version);
    let inner = if entity::is_marked(list) { 2 } else { how };
    Reading {
        how,
        inner,
        guard: 0,
        inguard: 0,
        form: 0,
        depth,
        limit,
        base: 0,
    }
}

// The least depth of the text of a call. Most have no halt. Success: that depth.
pub fn least_of(
    text: &[u8],
    simple: bool,
    version: u8,
    limit: u64,
    list: &[u8],
    pool: &[u8],
) -> Answer
    requires simple { simple ≡ true → Simple text.now }
    requires valid_table { ValidTable list.now pool.now }
    requires text_len_bound { length text.now ≤ 16777216 }
    requires limit_bound { limit ≤ 1000000 }
    requires well_formed { WellFormed text.now }
    ensures { answered result ≡ least_depth (reading_of (rule_of version) list.now pool.now limit) text.now }
{
    if simple {
        return Ok(PASSED);
    }
    let newer = 1 < version;
    if halts::next_halt(text, 0, newer) == text.len() {
        return answer_of(smooth_need(text, 0, newer, 128));
    }
    answer_of(need_of(text, 0, allowed_for(list, version, 128, limit), list, pool))
}
