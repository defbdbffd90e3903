// What a walk over attribute values keeps of the texts that it opened, for all its levels: a reference that comes again is one
// comparison and one copy. Also the types in which walks speak of their settings and places.
//
// The memory is 84 words, or none where nothing is kept yet. A name has one of 16 slots, and five words side by side for each: the
// offset of the command and 1, a depth that is enough for its text, where its value starts in the whole call's value, the value's
// length, its openings. After these 80, four words: the table is known not to define lt, gt, apos, quot. An index of the table's names
// (crate table_index) may lie behind them. What the words say is `Memory` (specs/Slots.antt); no definition of a call knows of it.
#![tactic(auto)]

ghost use Rattle.std.specs.Prelude.{◌≡◌, ◌≢◌, true, false, List, [], ◌∷◌, ℕ, ◌+◌, ◌≤◌, ◌<◌, length};
ghost use Rattle.text.specs.Bytes.{same_bytes};
ghost use Rattle.entity.specs.Table.{ValidTable};
ghost use Rattle.entity.specs.Commands.{Refers, Unhidden};
ghost use Rattle.memory.specs.Slots.{slot_of, plain_word, Noted, Trusts, Kept, Indexed};
ghost use Rattle.memory.specs.Levels.{Bounds, HadKeeps};

use entity::{Binding, Referent};
use text::refusals::Refusal;

// What a level of a walk is set to: how its text is read and how the texts inside it are (0 as XML 1.0, 1 as XML 1.1, 2 past line ends),
// which characters may stand in it and in these (0 all, else the rule of that number less one of crate legal), what is written of its value
// (0 the value itself, 1 its canonical form under XML 1.0, 2 under XML 1.1), its depth, the opening limit, and where what is written starts
// in all that the call writes. The bytes stand together: every level has copies of it on the stack.
#[derive(Clone, Copy)]
pub struct Reading {
    pub how: u8,
    pub inner: u8,
    pub guard: u8,
    pub inguard: u8,
    pub form: u8,
    pub depth: u64,
    pub limit: u64,
    pub base: usize,
}

// Where a level stands: the offset in its text, the length of its value so far, and the openings that the whole walk has made.
#[derive(Clone, Copy)]
pub struct Place {
    pub at: usize,
    pub len: usize,
    pub openings: u64,
}

// Where a walk came to: its end, a text to open at the reference `at`, or a pause for want of a memory.
#[derive(Clone, Copy)]
pub enum Reached {
    End {
        len: usize,
        openings: u64,
    },
    Opening {
        at: usize,
        next: usize,
        command: usize,
        slot: usize,
        len: usize,
        openings: u64,
    },
    Paused(Place),
}

// What refuses a walk, and the openings that it had made.
#[derive(Clone, Copy)]
pub struct Stop {
    pub refusal: Refusal,
    pub openings: u64,
}

impl From<Stop> for Refusal {
    ghost from_gives = { λ stop r. r ≡ stop.refusal };

    fn from(stop: Stop) -> Refusal {
        stop.refusal
    }
}

// The value of a text that is kept, as it was had before.
#[derive(Clone, Copy)]
pub struct Had {
    pub len: usize,
    pub openings: u64,
}

// The slot of a name: by its length and three of its bytes, so that names of one office that begin alike differ.
pub fn slot_of(name: &[u8]) -> usize
    requires { length name.now ≤ 16777216 }
    ensures { result < 16 }
{
    let n = name.len();
    if n == 0 {
        return 0;
    }
    (usize::from(name[0]) + 3 * usize::from(name[n / 2]) + 5 * usize::from(name[n - 1]) + n) % 16
}

// The word that says that the table does not define this predefined name.
fn plain_word(b: u8) -> usize
    ensures { result ≡ plain_word b }
{
    if b == b'<' {
        return 80;
    }
    if b == b'>' {
        return 81;
    }
    if b == b'\'' {
        return 82;
    }
    83
}

// Keeps that the table does not define the name of the byte.
pub fn keep_plain(b: u8, seen: &mut [u64])
    requires { length seen.old ≢ 0 → 84 ≤ length seen.old }
    ensures { Noted seen.old b seen.new }
{
    if seen.len() == 0 {
        return;
    }
    seen[plain_word(b)] = 1;
}

// Is the table known not to define the predefined name of the byte? Where it has no commands it defines none.
pub fn is_plain(b: u8, seen: &[u64], list: &[u8]) -> bool
    requires { length seen.now ≢ 0 → 84 ≤ length seen.now }
    ensures { (pool : List ℕ) → ValidTable list.now pool → Trusts list.now pool seen.now → b ≢ 38 → result ≡ true → Unhidden list.now pool b }
{
    if list.len() <= 2 {
        return true;
    }
    if seen.len() == 0 {
        return false;
    }
    seen[plain_word(b)] != 0
}

// Is there an index of the table's names behind the memory, whole?
pub fn is_indexed(seen: &[u64]) -> bool
    ensures { result ≡ true → 84 < length seen.now }
{
    if seen.len() <= 84 {
        return false;
    }
    table_index::is_built(&seen[84..])
}

// What a name other than `amp` refers to: by the index where it is whole, else by the memory, else by the table. The table is lent as parts,
// which are made where it is asked: few names come that far.
pub fn refers_to(name: &[u8], slot: usize, seen: &mut [u64], list: &[u8], pool: &[u8]) -> Referent
    requires valid_table { ValidTable list.now pool.now }
    requires slot_bound { (slot < 16) × (same_bytes name.now (97 ∷ 109 ∷ 112 ∷ []) ≡ false) }
    requires trusts { Trusts list.now pool.now seen.old }
    ensures refers { Refers list.now pool.now name.now result }
    ensures indexed { Indexed list.now pool.now seen.old seen.new }
{
    if is_indexed(seen) {
        return table_index::find(
            &list[..list.len()],
            &pool[..pool.len()],
            &name[..name.len()],
            &mut seen[84..],
        );
    }
    if seen.len() != 0 {
        let known = seen[slot];
        if known != 0 {
            let at = (known - 1) as usize;
            if entity::is_named(list, pool, at, name) {
                let start = entity::text_start(list, at);
                return Referent::Text {
                    command: at,
                    start,
                    end: start + entity::text_length(list, at),
                };
            }
        }
        if let Binding::Predefined(b) = entity::resolve_xml_entity(name) {
            if seen[plain_word(b)] != 0 {
                return Referent::Predefined(b);
            }
        }
    }
    if seen.len() <= 84 {
        return entity::find_entity(
            &list[..list.len()],
            &pool[..pool.len()],
            &name[..name.len()],
        );
    }
    table_index::find(
        &list[..list.len()],
        &pool[..pool.len()],
        &name[..name.len()],
        &mut seen[84..],
    )
}

// Keeps what the text of the command gave.
pub fn keep(
    command: usize,
    slot: usize,
    depth: u64,
    place: usize,
    count: usize,
    opened: u64,
    seen: &mut [u64],
)
    requires command_bound { (command < 49153) × (slot < 16) }
    requires in_bounds { length seen.old ≢ 0 → 84 ≤ length seen.old }
    ensures { Kept seen.old slot command (slot_of depth place count opened) seen.new }
{
    if seen.len() == 0 {
        return;
    }
    seen[slot] = command as u64 + 1;
    seen[slot + 16] = depth;
    seen[slot + 32] = place as u64;
    seen[slot + 48] = count as u64;
    seen[slot + 64] = opened;
}

// The text of the command, where it is kept and can be had again: written after the value so far of this level.
pub fn again(
    command: usize,
    slot: usize,
    reading: Reading,
    place: Place,
    seen: &[u64],
    out: &mut [u8],
) -> Option<Had>
    requires command_bound { (command < 49153) × (slot < 16) }
    requires openings_le_limit { (place.openings ≤ reading.limit) × (reading.limit ≤ 1000000) × (reading.base + place.len ≤ 0x1000000000000) }
    requires bounds { Bounds command slot reading.limit (reading.base + place.len) seen.now }
    ensures { HadKeeps command slot reading place seen.now out.old out.new result }
{
    if seen.len() == 0 {
        return None;
    }
    if (seen[slot] != command as u64 + 1) | (reading.depth < seen[slot + 16]) {
        return None;
    }
    let count = seen[slot + 48] as usize;
    let made = place.openings + seen[slot + 64];
    if reading.limit < made {
        return None;
    }
    let len = place.len;
    if len < out.len() {
        let base = reading.base;
        let from = seen[slot + 32] as usize;
        if (from < base) | (out.len() - len < count) {
            return None;
        }
        tokens::put_again(from - base, count, len, out);
    }
    Some(Had {
        len: count,
        openings: made,
    })
}
