// An index of a table's names: each command has a slot by the hash of its name, and a lookup compares with the table's own bytes.
//
// The words: first the state (the bytes of the list that plain lookups have passed, or BUILT, or GIVEN_UP), then the slots, four to a word,
// 16 bits each: the offset of a command and 1, or 0. A name's slots are the 16 from its home on; its commands stand there in the list's
// order, so that the first that has the name binds. Where all 16 are taken and none has it, the plain lookup answers.
#![tactic(auto)]

ghost use Rattle.std.specs.Prelude.{◌≡◌, ℕ, ◌+◌, ◌-◌, ◌*◌, ◌<◌, ◌≤◌, true, false, ◌≢◌, List, length, slice_index, MatchOption};
ghost use Rattle.text.specs.Bytes.{same_bytes};
ghost use Rattle.entity.specs.Table.{little_endian, part, ValidTable};
ghost use Rattle.entity.specs.Commands.{command_name, Refers};
ghost use Rattle.table_index.specs.NameHash.{mixed, joined_from, turned_words, hash_of};
ghost use Rattle.table_index.specs.Index.{slot_of, home_at, built_state, state_of, Vacant, Sized, FilledAt, FirstEmpty, Inserted, Ready, Built};

use entity::Referent;
use text::load;

// The states above any number of bytes passed. Numbers, as the caller lends the word.
const BUILT: u64 = 0x100000000;

const GIVEN_UP: u64 = 0x100000001;

// The slots of a name.
const REACH: usize = 16;

// So many times the list's length is passed by plain lookups before the index is built.
const PATIENCE: u64 = 4;

// ---- the hash: any function of the name's bytes would do

// A word more. Both numbers stay below 2^32.
fn mixed(h: u64, word: u64) -> u64
    requires { h < 0x100000000 }
    ensures { (result ≡ mixed h word) × (result < 0x100000000) }
{
    let x = (h + word % 0x100000000 + word / 0x100000000 * 0x27d4eb2f) % 0x100000000;
    x * 0x9e3779b1 % 0x100000000
}

// Fewer than eight bytes as one number.
fn short_word(name: &[u8]) -> u64
    ensures { result ≡ joined_from 0 name.now }
{
    let mut word: u64 = 0;
    for &b in name {
        word = (word << 8) + u64::from(b);
    }
    word
}

// The eights of a name longer than eight bytes, the last of which ends with it: each is added to the sum so far, turned by seven bits.
// By `step_by` lookups of long names took 1 % more.
fn turned_words(name: &[u8]) -> u64
    requires { 8 < length name.now }
    ensures { result ≡ turned_words name.now }
{
    let n = name.len();
    let mut sum = load::word(name, n - 8);
    let mut i: usize = 0;
    while 8 < n - i {
        sum = std::num::wrapping_add_u64((sum << 7) | (sum >> 57), load::word(name, i));
        i += 8;
    }
    sum
}

fn hash(name: &[u8]) -> u64
    requires { length name.now < 0x100 }
    ensures { (result ≡ hash_of name.now) × (result < 0x100000000) }
{
    let n = name.len();
    if n < 8 {
        return mixed(n as u64, short_word(name));
    }
    if n == 8 {
        return mixed(8, load::word(name, 0));
    }
    mixed(n as u64, turned_words(name))
}

// ---- slots

// Where the slots of a name begin, among so many words of slots. The last 16 are no home.
fn home(h: u64, words: usize) -> usize
    requires { (h < 0x100000000) × (4 ≤ words) × (words < 0x10000) }
    ensures { (result ≡ home_at h words) × (result + 16 ≤ 4 * words) }
{
    (h * (4 * words as u64 - 16) / 0x100000000) as usize
}

fn slot_at(index: &[u64], s: usize) -> usize
    requires { (s < 4 * (length index.now - 1)) × (length index.now ≤ 0x10000) }
    ensures { (result ≡ slot_of index.now s) × (result < 0x10000) }
{
    ((index[1 + s / 4] >> (16 * (s % 4) as u64)) % 0x10000) as usize
}

// Fills an empty slot.
fn fill(s: usize, at: usize, index: &mut [u64])
    requires s_bound { (s < 4 * (length index.old - 1)) × (length index.old ≤ 0x10000) }
    requires at_bound { (at < 0xffff) × Vacant index.old s }
    ensures filled_at { FilledAt (slot_of index.old) (slot_of index.new) s at }
    ensures index_len_unchanged { length index.new ≡ length index.old }
{
    index[1 + s / 4] = index[1 + s / 4] + ((at as u64 + 1) << (16 * (s % 4) as u64));
}

// The first empty slot of a name, counted from its home.
fn empty_slot(index: &[u64], from: usize) -> Option<usize>
    requires { (from + 16 ≤ 4 * (length index.now - 1)) × (length index.now ≤ 0x10000) }
    ensures { MatchOption result (FirstEmpty index.now from 16) (λ k. (k < 16) × FirstEmpty index.now from k) }
{
    for k in 0..REACH {
        if slot_at(index, from + k) == 0 {
            return Some(k);
        }
    }
    None
}

// The command at `at` takes the first empty slot of its name. Is there one?
fn insert(list: &[u8], pool: &[u8], at: usize, index: &mut [u64]) -> bool
    requires at_bound { (at < 0xffff) × Sized index.old }
    requires at_in_bounds { at + 6 ≤ length list.now }
    requires at_in_bounds_2 { little_endian list.now (at + 1) 4 + slice_index list.now (at + 5) ≤ length pool.now }
    ensures { Inserted list.now pool.now at index.old index.new }
{
    let start = entity::u32_at(list, at + 1);
    let end = start + usize::from(list[at + 5]);
    let from = home(hash(&pool[start..end]), index.len() - 1);
    let Some(k) = empty_slot(index, from) else {
        return false;
    };
    fill(from + k, at, index);
    true
}

// Every command in turn. Where more than one slot in 16 were wanted in vain, the index is given up.
fn build(list: &[u8], pool: &[u8], index: &mut [u64])
    requires valid_table { ValidTable list.now pool.now }
    requires sized { Sized index.old × ((s : ℕ) → slot_of index.old s ≡ 0) }
    ensures { Built list.now pool.now index.old index.new }
{
    let most = (index.len() - 1) / 4;
    let mut vain: usize = 0;
    let mut at = entity::mark_size(list);
    while list[at] != entity::END {
        if !insert(list, pool, at, index) {
            vain += 1;
            if most < vain {
                index[0] = GIVEN_UP;
                return;
            }
        }
        at += entity::command_size(list[at]);
    }
    index[0] = BUILT;
}

// ---- names

// Do 16 bytes differ?
fn differ_16(pool: &[u8], start: usize, name: &[u8], i: usize) -> bool
    requires { (start + 16 ≤ length pool.now) × (i + 16 ≤ length name.now) }
    ensures k_value { result ≡ false → (k : ℕ) → k < 16 → slice_index pool.now (start + k) ≡ slice_index name.now (i + k) }
    ensures fact { result ≡ true → ((k : ℕ) → k < 16 → slice_index pool.now (start + k) ≡ slice_index name.now (i + k)) → ⊥ }
{
    let mut differ = false;
    for k in 0..16usize {
        differ = differ | (pool[start + k] != name[i + k]);
    }
    differ
}

// A name of more than 16 bytes: by blocks, the last of which ends with it. With `==` of slices here lookups took up to 7 % more.
fn same_long(pool: &[u8], start: usize, name: &[u8]) -> bool
    requires { (start + length name.now ≤ length pool.now) × (16 < length name.now) }
    ensures { result ≡ same_bytes (part pool.now start (length name.now)) name.now }
{
    let last = name.len() - 16;
    if differ_16(pool, start + last, name, last) {
        return false;
    }
    let mut i: usize = 0;
    while i < last {
        if differ_16(pool, start + i, name, i) {
            return false;
        }
        i += 16;
    }
    true
}

// Is this the name of the command at `at`? A word at each end tells of most. Lookups by `entity::is_named` took up to 2 % more, by `==` of
// slices up to 5 %.
fn is_name(list: &[u8], pool: &[u8], at: usize, name: &[u8]) -> bool
    requires at_in_bounds { at + 6 ≤ length list.now }
    requires at_in_bounds_2 { little_endian list.now (at + 1) 4 + slice_index list.now (at + 5) ≤ length pool.now }
    ensures { result ≡ same_bytes (command_name list.now pool.now at) name.now }
{
    let n = name.len();
    if usize::from(list[at + 5]) != n {
        return false;
    }
    let start = entity::u32_at(list, at + 1);
    if n < 8 {
        return entity::same_short(pool, start, name);
    }
    if load::word(pool, start + n - 8) != load::word(name, n - 8) {
        return false;
    }
    if n <= 16 {
        return load::word(pool, start) == load::word(name, 0);
    }
    same_long(pool, start, name)
}

// ---- lookups

// Is there an index, and is it built?
pub fn is_built(index: &[u64]) -> bool
    ensures { result ≡ true → (state_of index.now ≡ built_state) × (length index.now ≢ 0) }
{
    index.len() != 0 && index[0] == BUILT
}

// What a name refers to, by an index that is built.
pub fn look_up(list: &[u8], pool: &[u8], name: &[u8], index: &[u64]) -> Referent
    requires valid_table { ValidTable list.now pool.now }
    requires ready { Ready list.now pool.now index.now × (state_of index.now ≡ built_state) }
    ensures { Refers list.now pool.now name.now result }
{
    if 255 < name.len() {
        return entity::plain_referent(name);
    }
    let from = home(hash(name), index.len() - 1);
    for k in 0..REACH {
        let s = slot_at(index, from + k);
        if s == 0 {
            return entity::plain_referent(name);
        }
        if is_name(list, pool, s - 1, name) {
            return entity::referent_at(list, s - 1);
        }
    }
    entity::find_entity(list, pool, name)
}

// How many bytes of the list a lookup passed. An external or unknown name ends a value, but not a job.
fn passed_by(found: Referent, all: usize) -> usize
    ensures { (list pool name : List ℕ) → Refers list pool name found → length list ≤ all → result ≤ all }
{
    match found {
        Referent::Text { command, .. } => command,
        _ => all,
    }
}

// By the table; what it passed is added up, and the index is built where that is enough.
fn first_look_up(list: &[u8], pool: &[u8], name: &[u8], index: &mut [u64]) -> Referent
    requires valid_table { ValidTable list.now pool.now }
    requires index_nonzero { (length index.old ≢ 0) × Ready list.now pool.now index.old × (state_of index.old ≢ built_state) }
    ensures refers { Refers list.now pool.now name.now result }
    ensures built { Built list.now pool.now index.old index.new }
{
    let found = entity::find_entity(list, pool, name);
    if index[0] == GIVEN_UP {
        return found;
    }
    index[0] = index[0] + passed_by(found, list.len()) as u64;
    if PATIENCE * list.len() as u64 <= index[0] {
        build(list, pool, index);
    }
    found
}

// What a name refers to: by the index where it is built, else by the table.
pub fn find(list: &[u8], pool: &[u8], name: &[u8], index: &mut [u64]) -> Referent
    requires valid_table { ValidTable list.now pool.now }
    requires index_nonzero { (length index.old ≢ 0) × Ready list.now pool.now index.old }
    ensures refers { Refers list.now pool.now name.now result }
    ensures ready { Ready list.now pool.now index.new × (length index.new ≡ length index.old) }
{
    if index[0] == BUILT {
        // As parts: slices that are handed on whole are copied at entry, by loads that wait for the caller's stores.
        return look_up(
            &list[..list.len()],
            &pool[..pool.len()],
            &name[..name.len()],
            &index[..index.len()],
        );
    }
    first_look_up(list, pool, name, index)
}
