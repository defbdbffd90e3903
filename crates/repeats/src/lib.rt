// Does a form of a register repeat? A table of fingerprints is asked for each form, and takes it up. Where it has a form's fingerprint, or no
// place for it, the bytes before the form are looked through: so a full table, a crowded place and equal hashes cost time and nothing else.
// Big registers are looked through once for each class of hashes, so that the table has room for the forms of a class.
#![tactic(auto)]

ghost use Rattle.std.specs.Prelude.{◌≡◌, ◌+◌, ◌-◌, ◌/◌, ◌<◌, ◌≤◌, not, length, take};
ghost use Rattle.register.specs.Entries.{absent, distinct};
ghost use Rattle.register.specs.Stored.{u32_at};
ghost use Rattle.register.specs.Places.{Whole, Filled, entries_in};
ghost use Rattle.repeats.specs.Hash.{mix, hash_short, hash_long, hash_of, share};
ghost use Rattle.repeats.specs.Filter.{Seen, Suspected, form_at, Sifted, Passes};

use text::load;

// Both halves of the sum with the word, each times a number of its own. With `hash.wrapping_add(word)` a call takes 1 to 2 % more instructions.
fn mix(hash: u64, word: u64) -> u64
    ensures { result ≡ mix hash word }
{
    let x = std::num::wrapping_add_u64(hash, word);
    std::num::wrapping_add_u64(x % 0x100000000 * 0xfd7046c5, x / 0x100000000 * 0xb55a4f09)
}

// Up to 7 bytes as one word; the remainder drops none of them.
fn hash_short(form: &[u8]) -> u64
    ensures { result ≡ hash_short form.now }
{
    let mut word: u64 = 0;
    for &b in form {
        word = word % 0x1000000000000 * 0x100 + u64::from(b);
    }
    mix(mix(form.len() as u64, word), 0x9e3779b97f4a7c15)
}

// By words of 8 bytes; the last one may overlap. `step_by(8)` is slower, as in `register::same_long`.
fn hash_long(form: &[u8]) -> u64
    requires { 8 ≤ length form.now }
    ensures { result ≡ hash_long form.now }
{
    let last = form.len() - 8;
    let mut hash = form.len() as u64;
    let mut i: usize = 0;
    while i < last {
        hash = mix(hash, load::word(form, i));
        i += 8;
    }
    mix(mix(hash, load::word(form, last)), 0x9e3779b97f4a7c15)
}

fn hash_of(form: &[u8]) -> u64
    ensures { result ≡ hash_of form.now }
{
    if form.len() < 8 {
        return hash_short(form);
    }
    hash_long(form)
}

// Which of so many equal parts of 0 to 2^32 the number is in.
fn share_of(x: u64, parts: u64) -> u64
    requires { (x < 0x100000000) × (parts ≤ 65536) }
    ensures { (result ≡ share x parts) × (result ≤ parts) }
{
    x * parts / 0x100000000
}

// Is the fingerprint among those from `home` on, before the first free place? If not, it is put there. With no free place: true.
fn seen(table: &mut [u16], home: usize, fingerprint: u16) -> bool
    requires { (home + 128 ≤ length table.old) × (length table.old ≤ 65536) × (0 < fingerprint) }
    ensures { Seen table.old home fingerprint table.new result }
{
    for held in &mut table[home..home + 128] {
        if *held == 0 {
            *held = fingerprint;
            return false;
        }
        if *held == fingerprint {
            return true;
        }
    }
    true
}

// Was a form with this hash perhaps put into the table before? False: surely not, and it is now.
fn suspect(table: &mut [u16], hash: u64) -> bool
    requires { (128 ≤ length table.old) × (length table.old ≤ 65536) }
    ensures { Suspected table.old hash table.new result }
{
    let home = share_of(hash % 0x100000000, (table.len() - 128) as u64) as usize;
    seen(table, home, (hash / 0x100000000 % 0xffff + 1) as u16)
}

// Does the form of the entry at `at` stand before it too?
fn stands_before(register: &[u8], at: usize) -> bool
    requires whole { Whole register.now at }
    requires filled { Filled (take at register.now) }
    ensures { result ≡ not (absent (form_at register.now at) (entries_in (take at register.now))) }
{
    let end = register::end_at(register, at);
    register::find(&register[at + 8..end], &register[..at]).is_some()
}

// Is the form of the entry from `at` up to `end` of this class, and does it stand before it too? The table takes up a form of the class.
fn sift_entry(
    register: &[u8],
    at: usize,
    end: usize,
    table: &mut [u16],
    class: u64,
    classes: u64,
) -> bool
    requires whole { Whole register.now at }
    requires filled { Filled (take at register.now) }
    requires end_value { end ≡ at + 8 + u32_at register.now at }
    requires in_bounds { (128 ≤ length table.old) × (length table.old ≤ 65536) × (classes ≤ 65536) }
    ensures { Sifted register.now at class classes table.old table.new result }
{
    let hash = hash_of(&register[at + 8..end]);
    if share_of(hash / 0x100000000, classes) != class {
        return false;
    }
    suspect(table, hash) && stands_before(register, at)
}

// Does a form of this class of hashes repeat?
fn repeats_in_class(register: &[u8], table: &mut [u16], class: u64, classes: u64) -> bool
    requires filled { Filled register.now }
    requires in_bounds { (128 ≤ length table.old) × (length table.old ≤ 65536) × (classes ≤ 65536) }
    ensures { Passes register.now class classes result }
{
    let mut at: usize = 0;
    while at < register.len() {
        let end = register::end_at(register, at);
        if sift_entry(register, at, end, table, class, classes) {
            return true;
        }
        at = end;
    }
    false
}

// By comparison with each entry before.
fn repeats_few(register: &[u8]) -> bool
    requires { Filled register.now }
    ensures { result ≡ not (distinct (entries_in register.now)) }
{
    let mut at: usize = 0;
    while at < register.len() {
        if stands_before(register, at) {
            return true;
        }
        at = register::end_at(register, at);
    }
    false
}

// With a table of its own, so large.
fn class_repeats<const N: usize>(register: &[u8], class: u64, classes: u64) -> bool
    requires filled { Filled register.now }
    requires in_bounds { (128 ≤ N) × (N ≤ 65536) × (classes ≤ 65536) }
    ensures { Passes register.now class classes result }
{
    let mut table = [0u16; N];
    repeats_in_class(register, &mut table, class, classes)
}

// Class by class, with the largest local memory: 30,720 bytes.
fn repeats_many(register: &[u8], classes: u64) -> bool
    requires filled { Filled register.now }
    requires classes_nonzero { (0 < classes) × (classes ≤ 65536) }
    ensures { result ≡ not (distinct (entries_in register.now)) }
{
    for class in 0..classes {
        if class_repeats::<15360>(register, class, classes) {
            return true;
        }
    }
    false
}

// So many that a class has at most 11,264 of the forms on the average, up to 65,536 classes.
fn classes_of(number: u64) -> u64
    ensures { (0 < result) × (result ≤ 65536) }
{
    if number < 738197504 {
        return number / 11264 + 1;
    }
    65536
}

// Does a form repeat? The register has so many entries; the number decides only how the forms are looked through.
pub fn repeats(register: &[u8], number: u64) -> bool
    requires { Filled register.now }
    ensures { result ≡ not (distinct (entries_in register.now)) }
{
    if number <= 12 {
        return repeats_few(register);
    }
    if number <= 256 {
        // A table that takes little time to clear.
        return class_repeats::<1024>(register, 0, 1);
    }
    repeats_many(register, classes_of(number))
}
