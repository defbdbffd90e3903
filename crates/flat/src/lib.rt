// The walk between two openings: runs, line ends, characters, predefined names, texts that are kept, and short texts without halts.
// Nothing here calls itself. A run is written byte by byte, TAB and LF as spaces; it ends at a halt (crate halts), and `halt_step` says
// what becomes of that. Where the canonical form is wanted, that of each piece is written: pieces are whole characters. What fits in the
// output is written, else nothing: a walk that counts lends a short one.
#![tactic(auto)]

ghost use Rattle.std.specs.Prelude.{IfSome, ◌≡◌, ◌≢◌, true, List, [], ◌∷◌, ℕ, ◌+◌, ◌-◌, ◌≤◌, ◌<◌, eqb, length, get_or, take, drop};
ghost use Rattle.charref.specs.CharRef.{encode};
ghost use Rattle.eols.specs.Stops.{rule_for};
ghost use Rattle.canonical.specs.Canonical.{canonical};
ghost use Rattle.legal.specs.FirstFault.{FirstFault};
ghost use Rattle.halts.specs.Halts.{halts, Smooth, HaltAt, blanks_spaced};
ghost use Rattle.entity.specs.Table.{ValidTable};
ghost use Rattle.attribute.specs.Steps.{heads_by, fault_by, Blank};
ghost use Rattle.memory.specs.Slots.{shaped, Trusts};
ghost use Rattle.memory.specs.Levels.{Bounds, Lent, FlatKeeps, level_of};
ghost use Rattle.flat.specs.Between.{Writes, Leaf, Means, ForName, ForPlain, NumberMeans, HaltKeeps, Referred};

use entity::Referent;
use memory::{Place, Reached, Reading, Stop};
use text::refusals::Refusal;

// What a reference means besides a text: a character; or its name ends at `end`, and the table is asked.
#[derive(Clone, Copy)]
enum Meaning {
    Char { c: u32, next: usize },
    Name { end: usize },
}

// What became of a halt: the offset after it with the bytes added and the openings so far; a text to open; or a pause for want of a memory.
#[derive(Clone, Copy)]
enum Halted {
    Next {
        at: usize,
        len: usize,
        openings: u64,
    },
    Opening {
        next: usize,
        command: usize,
        slot: usize,
    },
    Paused,
}

// ---- writing after the `len` bytes that this level has written

// The canonical form of a value.
pub fn write_value(value: &[u8], len: usize, newer: bool, out: &mut [u8]) -> usize
    requires { (length value.now ≤ 16777216) × (len ≤ 0x1000000000000) }
    ensures { Writes (canonical (rule_for newer) value.now) len out.old out.new result }
{
    let n = canonical::canonical_length(value, newer);
    if len + n <= out.len() {
        canonical::write_canonical(value, newer, &mut out[len..]);
    }
    n
}

// A run, its blanks as spaces. One that does not fit leaves the output.
fn write_spaced(run: &[u8], len: usize, out: &mut [u8]) -> usize
    requires { (length run.now ≤ 16777216) × (len ≤ 0x1000000000000) }
    ensures writes { Writes (blanks_spaced run.now) len out.old out.new result }
    ensures out_unchanged { length out.old < len + result → out.new ≡ out.old }
{
    let n = run.len();
    if len + n <= out.len() {
        halts::put_spaced(run, &mut out[len..]);
    }
    n
}

// Its canonical form. Most short runs are their own: a test and a copy; a long one is tested as it is copied. Where there are six bytes for
// each there is room: no count is needed.
pub fn write_form(run: &[u8], len: usize, newer: bool, out: &mut [u8]) -> usize
    requires { (length run.now ≤ 16777216) × (len ≤ 0x1000000000000) }
    ensures writes { Writes (canonical (rule_for newer) (blanks_spaced run.now)) len out.old out.new result }
    ensures out_unchanged { length out.old < len + result → out.new ≡ out.old }
{
    if run.len() < 128 {
        if canonical::is_own_form(run, newer) {
            return write_spaced(run, len, out);
        }
    }
    if len + 6 * run.len() <= out.len() {
        return canonical::write_spaced(run, newer, &mut out[len..]);
    }
    let n = canonical::spaced_length(run, newer);
    if len + n <= out.len() {
        canonical::write_spaced(run, newer, &mut out[len..]);
    }
    n
}

// A part of a text as a run, in the form that is wanted.
fn write_run(text: &[u8], from: usize, to: usize, len: usize, form: u8, out: &mut [u8]) -> usize
    requires { (from ≤ to) × (to ≤ length text.now) × (length text.now ≤ 16777216) × (len ≤ 0x1000000000000) }
    ensures { Writes (shaped form (blanks_spaced (take (to - from) (drop from text.now)))) len out.old out.new result }
{
    let n = to - from;
    if n == 0 {
        return 0;
    }
    if form != 0 {
        return write_form(&text[from..to], len, form == 2, out);
    }
    write_spaced(&text[from..to], len, out)
}

// The canonical form of a character.
fn write_char_form(c: u32, len: usize, newer: bool, out: &mut [u8]) -> usize
    requires { (c ≤ 1114111) × (len ≤ 0x1000000000000) }
    ensures { Writes (canonical (rule_for newer) (encode c)) len out.old out.new result }
{
    let n = canonical::char_length(c, newer);
    if len + n <= out.len() {
        canonical::write_char(c, newer, &mut out[len..]);
    }
    n
}

// A character above ASCII.
fn write_wide(c: u32, len: usize, out: &mut [u8]) -> usize
    requires { (c ≤ 1114111) × (len ≤ 0x1000000000000) }
    ensures { Writes (encode c) len out.old out.new result }
{
    let size = charref::utf8_length(c);
    if len + size <= out.len() {
        charref::encode_utf8(c, &mut out[len..]);
    }
    size
}

// A character. Most are ASCII.
fn write_char(c: u32, len: usize, form: u8, out: &mut [u8]) -> usize
    requires { (c ≤ 1114111) × (len ≤ 0x1000000000000) }
    ensures { Writes (shaped form (encode c)) len out.old out.new result }
{
    if form != 0 {
        return write_char_form(c, len, form == 2, out);
    }
    if c < 0x80 {
        output::put_byte(c as u8, len, out);
        return 1;
    }
    write_wide(c, len, out)
}

// A byte that a predefined name stands for.
fn write_byte(b: u8, len: usize, form: u8, out: &mut [u8]) -> usize
    requires { (b < 128) × (len ≤ 0x1000000000000) }
    ensures { Writes (shaped form (b ∷ [])) len out.old out.new result }
{
    if form != 0 {
        return write_char_form(b as u32, len, form == 2, out);
    }
    output::put_byte(b, len, out);
    1
}

// ---- references

// A character reference with the text after `#`; what comes after it starts at `next`.
fn number_meaning(digits: &[u8], next: usize, rule: u8) -> Result<Meaning, Refusal>
    ensures { NumberMeans rule digits.now next result }
{
    let n = charref::parse_number(digits, rule);
    // Not `?`: the caller takes the number's answer apart, as the scope asks.
    let Ok(c) = n else {
        return Err(Refusal::from(n.unwrap_err()));
    };
    Ok(Meaning::Char { c, next })
}

// The reference whose `&` is at `at`. Digits end at the `;` by themselves, so that most numbers that the rule allows need no search for it.
fn read_reference(text: &[u8], at: usize, rule: u8) -> Result<Meaning, Refusal>
    requires { (at < length text.now) × (length text.now ≤ 16777216) × (get_or text.now at 0 ≡ 38) }
    ensures { Means rule text.now at result }
{
    let from = at + 1;
    if let Some(quick) = tokens::quick_reference(text, from) {
        if charref::is_allowed(quick.c, rule) {
            return Ok(Meaning::Char {
                c: quick.c,
                next: quick.end + 1,
            });
        }
    }
    let end = name_ends::outer_end(text, from);
    if end == text.len() {
        return Err(Refusal::UnterminatedEntity(at as u64, end as u64));
    }
    if text[from] == b'#' {
        return number_meaning(&text[from + 1..end], end + 1, rule);
    }
    if entity::is_three(&text[from..end], b'a', b'm', b'p') {
        return Ok(Meaning::Char {
            c: 38,
            next: end + 1,
        });
    }
    Ok(Meaning::Name { end })
}

// ---- halts

// The first character of a run that may not stand there, or the run's end.
pub fn run_fault(text: &[u8], from: usize, to: usize, guard: u8) -> usize
    requires { (from ≤ to) × (to ≤ length text.now) }
    ensures { FirstFault (fault_by guard) text.now from to result }
{
    if guard == 0 {
        return to;
    }
    legal::first_fault(text, from, to, guard - 1)
}

// Is there no halt in a text? Many texts of a table have 8 to 15 bytes, of which two words tell.
fn is_smooth(text: &[u8], newer: bool) -> bool
    ensures { result ≡ true → Smooth newer text.now 0 (length text.now) }
{
    let n = text.len();
    if (8 <= n) & (n < 16) & !newer {
        return halts::clear_short(text);
    }
    halts::next_halt(text, 0, newer) == n
}

// Is it a short text without halts, in which every character may stand? It is copied where it is referred to, and needs no opening of
// its own.
fn is_leaf(text: &[u8], newer: bool, guard: u8) -> bool
    ensures { result ≡ true → Leaf newer guard text.now }
{
    let n = text.len();
    if 64 < n {
        return false;
    }
    if !is_smooth(text, newer) {
        return false;
    }
    run_fault(text, 0, n, guard) == n
}

// A reference to the text of a command: kept, short and without halts, or one to open.
fn text_step(
    command: usize,
    slot: usize,
    value: &[u8],
    next: usize,
    place: Place,
    reading: Reading,
    seen: &mut [u64],
    out: &mut [u8],
) -> Result<Halted, Refusal>
    requires command_bound { (command < 49153) × (slot < 16) × (length value.now ≤ 65535) }
    requires openings_le_limit { (place.openings ≤ reading.limit) × (reading.limit ≤ 1000000) × (reading.base + place.len ≤ 0x1000000000000) }
    requires bounds { Bounds command slot reading.limit (reading.base + place.len) seen.old }
    ensures { (text list pool : List ℕ) → Referred reading text list pool place command next value.now → HaltKeeps (level_of reading list pool text) reading.base place out.old seen.old out.new seen.new result }
{
    if place.openings == reading.limit {
        return Err(Refusal::TooManyOpenings(place.at as u64));
    }
    if let Some(had) = memory::again(command, slot, reading, place, seen, out) {
        return Ok(Halted::Next {
            at: next,
            len: had.len,
            openings: had.openings,
        });
    }
    if reading.depth != 1 {
        if is_leaf(value, reading.inner == 1, reading.inguard) {
            let n = write_run(value, 0, value.len(), place.len, reading.form, out);
            memory::keep(command, slot, 2, reading.base + place.len, n, 1, seen);
            return Ok(Halted::Next {
                at: next,
                len: n,
                openings: place.openings + 1,
            });
        }
    }
    Ok(Halted::Opening {
        next,
        command,
        slot,
    })
}

// A reference to a name, which ends at `end`: a text of the table, external, predefined, or unknown.
fn named_step(
    text: &[u8],
    end: usize,
    place: Place,
    reading: Reading,
    list: &[u8],
    pool: &[u8],
    seen: &mut [u64],
    out: &mut [u8],
) -> Result<Halted, Refusal>
    requires valid_table { ValidTable list.now pool.now }
    requires depth_nonzero { (reading.depth ≢ 0) × (reading.limit ≤ 1000000) × (length text.now ≤ 16777216) }
    requires for_name { ForName text.now place.at end }
    requires lent { Lent (level_of reading list.now pool.now text.now) reading.base out.old seen.old place }
    ensures { HaltKeeps (level_of reading list.now pool.now text.now) reading.base place out.old seen.old out.new seen.new result }
{
    let from = place.at + 1;
    let made = place.openings;
    let slot = memory::slot_of(&text[from..end]);
    match memory::refers_to(&text[from..end], slot, seen, list, pool) {
        Referent::Text {
            command,
            start,
            end: last,
        } => text_step(
            command,
            slot,
            &pool[start..last],
            end + 1,
            place,
            reading,
            seen,
            out,
        ),
        Referent::External => Err(Refusal::ExternalEntity(place.at as u64)),
        Referent::Predefined(b) => {
            memory::keep_plain(b, seen);
            let more = write_byte(b, place.len, reading.form, out);
            Ok(Halted::Next {
                at: end + 1,
                len: more,
                openings: made,
            })
        }
        Referent::Unknown => Err(Refusal::UnrecognizedEntity(from as u64, end as u64)),
    }
}

// The byte that `&lt;` or `&gt;` stands for, told by its bytes where the table is known not to define it.
fn quick_plain(text: &[u8], at: usize, seen: &[u64], list: &[u8]) -> Option<u8>
    requires at_in_bounds { (at < length text.now) × (length text.now ≤ 16777216) × (get_or text.now at 0 ≡ 38) }
    requires in_bounds { length seen.now ≢ 0 → 84 ≤ length seen.now }
    ensures { IfSome result (λ b. (pool : List ℕ) → ValidTable list.now pool → Trusts list.now pool seen.now → ForPlain text.now list.now pool at b) }
{
    if text.len() - at < 4 {
        return None;
    }
    if text[at + 3] != b';' {
        return None;
    }
    if text[at + 2] != b't' {
        return None;
    }
    if text[at + 1] == b'l' {
        if memory::is_plain(b'<', seen, list) {
            return Some(b'<');
        }
        return None;
    }
    if text[at + 1] != b'g' {
        return None;
    }
    if memory::is_plain(b'>', seen, list) {
        return Some(b'>');
    }
    None
}

// How many bytes the one space stands for that is written at a halt other than `&`: a line end, or past line ends a CR alone.
fn blank_width(text: &[u8], at: usize, how: u8) -> usize
    requires at_in_bounds { (at < length text.now) × (length text.now ≤ 16777216) }
    requires text_value { (halts (eqb how 1) (drop at text.now) ≡ true) × (get_or text.now at 0 ≢ 38) }
    ensures { Blank (heads_by how) text.now at (record { byte = 32; width = result }) }
{
    if how == 2 {
        return 1;
    }
    eols::eol_width(text, at, how == 1)
}

// The halt at a place. Without a memory the table is asked a few times, and a big one never.
fn halt_step(
    text: &[u8],
    place: Place,
    met: u64,
    reading: Reading,
    list: &[u8],
    pool: &[u8],
    seen: &mut [u64],
    out: &mut [u8],
) -> Result<Halted, Refusal>
    requires valid_table { ValidTable list.now pool.now }
    requires depth_nonzero { (reading.depth ≢ 0) × (reading.limit ≤ 1000000) × (length text.now ≤ 16777216) }
    requires at_in_bounds { (place.at < length text.now) × (halts (eqb reading.how 1) (drop place.at text.now) ≡ true) }
    requires lent { Lent (level_of reading list.now pool.now text.now) reading.base out.old seen.old place }
    ensures { HaltKeeps (level_of reading list.now pool.now text.now) reading.base place out.old seen.old out.new seen.new result }
{
    let at = place.at;
    let len = place.len;
    if text[at] != b'&' {
        let width = blank_width(text, at, reading.how);
        output::put_byte(32, len, out);
        return Ok(Halted::Next {
            at: at + width,
            len: 1,
            openings: place.openings,
        });
    }
    if let Some(plain) = quick_plain(text, at, seen, list) {
        let written = write_byte(plain, len, reading.form, out);
        return Ok(Halted::Next {
            at: at + 4,
            len: written,
            openings: place.openings,
        });
    }
    match read_reference(text, at, reading.inguard)? {
        Meaning::Char { c, next } => {
            let more = write_char(c, len, reading.form, out);
            Ok(Halted::Next {
                at: next,
                len: more,
                openings: place.openings,
            })
        }
        Meaning::Name { end } => {
            if seen.len() == 0 {
                if (16 <= met) | (128 <= list.len()) {
                    return Ok(Halted::Paused);
                }
            }
            named_step(text, end, place, reading, list, pool, seen, out)
        }
    }
}

// The next halt, after so many. Where these were less than 24 bytes apart, it is looked for byte by byte first.
fn halt_after(text: &[u8], at: usize, met: u64, newer: bool) -> usize
    requires { (at ≤ length text.now) × (length text.now ≤ 16777216) × (met ≤ 16777217) }
    ensures { HaltAt newer text.now at result }
{
    if at as u64 + 24 < met * 24 {
        return halts::near_halt(text, at, newer);
    }
    halts::next_halt(text, at, newer)
}

// From a place on, whose next halt is at `first`, up to a text that has to be opened. The depth is not used up.
pub fn normalize_flat(
    text: &[u8],
    place: Place,
    first: usize,
    reading: Reading,
    list: &[u8],
    pool: &[u8],
    seen: &mut [u64],
    out: &mut [u8],
) -> Result<Reached, Stop>
    requires valid_table { ValidTable list.now pool.now }
    requires depth_nonzero { (reading.depth ≢ 0) × (reading.limit ≤ 1000000) × (length text.now ≤ 16777216) }
    requires halt_at { HaltAt (eqb reading.how 1) text.now place.at first }
    requires lent { Lent (level_of reading list.now pool.now text.now) reading.base out.old seen.old place }
    ensures { FlatKeeps (level_of reading list.now pool.now text.now) reading.base place out.old seen.old out.new seen.new result }
{
    let mut at = place.at;
    let mut end = first;
    let mut len = place.len;
    let mut made = place.openings;
    let mut met: u64 = 0;
    loop {
        let fault = run_fault(text, at, end, reading.guard);
        if fault != end {
            return Err(Stop {
                refusal: Refusal::ForbiddenCharacter(fault as u64),
                openings: made,
            });
        }
        let written = write_run(text, at, end, len, reading.form, out);
        len += written;
        if end == text.len() {
            return Ok(Reached::End {
                len,
                openings: made,
            });
        }
        let here = Place {
            at: end,
            len,
            openings: made,
        };
        match halt_step(text, here, met, reading, list, pool, seen, out) {
            Ok(
                Halted::Next {
                    at: next,
                    len: more,
                    openings,
                },
            ) => {
                at = next;
                len += more;
                made = openings;
            }
            Ok(
                Halted::Opening {
                    next,
                    command,
                    slot,
                },
            ) => {
                return Ok(Reached::Opening {
                    at: end,
                    next,
                    command,
                    slot,
                    len,
                    openings: made,
                });
            }
            Ok(Halted::Paused) => return Ok(Reached::Paused(here)),
            Err(refusal) => {
                return Err(Stop {
                    refusal,
                    openings: made,
                });
            }
        }
        met += 1;
        end = halt_after(text, at, met, reading.how == 1);
    }
}
