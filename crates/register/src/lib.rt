// The register of canonical forms in a lent buffer: an entry is its form's length and its count, u32 little-endian, and then the form.
// Here it is read: its entries are checked one by one, and a form's entry is found.
#![tactic(auto)]

ghost use Rattle.std.specs.Prelude.{◌≡◌, ◌+◌, ◌<◌, ◌≤◌, length};
ghost use Rattle.text.specs.Bytes.{same_bytes};
ghost use Rattle.text.specs.Utf8.{well_formed};
ghost use Rattle.register.specs.Stored.{u32_at};
ghost use Rattle.register.specs.Places.{Whole, Filled, entries_in, Finds, Steps, Checks};

use text::{load, validate};

pub fn u32_at(bytes: &[u8], i: usize) -> usize
    requires { i + 4 ≤ length bytes.now }
    ensures { (result ≡ u32_at bytes.now i) × (result < 0x100000000) }
{
    u32::from_le_bytes([bytes[i], bytes[i + 1], bytes[i + 2], bytes[i + 3]]) as usize
}

// Where the entry at `at` ends: it has 8 bytes before its form.
pub fn end_at(register: &[u8], at: usize) -> usize
    requires { Whole register.now at }
    ensures { result ≡ at + 8 + u32_at register.now at }
{
    at + 8 + u32_at(register, at)
}

// ---- Forms that are the same

// `a == b` makes `find` too large to be compiled into its callers: a lookup among ten forms then takes a quarter more.
fn same_short(a: &[u8], b: &[u8]) -> bool
    requires { length a.now ≡ length b.now }
    ensures { result ≡ same_bytes a.now b.now }
{
    for i in 0..a.len() {
        if a[i] != b[i] {
            return false;
        }
    }
    true
}

// By words of 8 bytes; the last may overlap. Slower: `a == b`, up to two thirds more from 8 to 40 bytes; `step_by(8)`, an eighth more a word.
fn same_long(a: &[u8], b: &[u8]) -> bool
    requires { (length a.now ≡ length b.now) × (8 ≤ length a.now) }
    ensures { result ≡ same_bytes a.now b.now }
{
    let last = a.len() - 8;
    let mut i: usize = 0;
    while i < last {
        if load::word(a, i) != load::word(b, i) {
            return false;
        }
        i += 8;
    }
    load::word(a, last) == load::word(b, last)
}

fn same(a: &[u8], b: &[u8]) -> bool
    ensures { result ≡ same_bytes a.now b.now }
{
    if a.len() != b.len() {
        return false;
    }
    if a.len() < 8 {
        return same_short(a, b);
    }
    same_long(a, b)
}

// Where the first entry with this form starts.
pub fn find(form: &[u8], register: &[u8]) -> Option<usize>
    requires { Filled register.now }
    ensures { Finds form.now (entries_in register.now) result }
{
    let mut at: usize = 0;
    while at < register.len() {
        let end = end_at(register, at);
        if same(&register[at + 8..end], form) {
            return Some(at);
        }
        at = end;
    }
    None
}

// ---- Entries one by one

fn is_utf8(form: &[u8]) -> bool
    ensures { result ≡ well_formed form.now }
{
    validate::utf8_end(form) == form.len()
}

// Where the entry at `at` ends, if it has no fault.
fn check_entry(register: &[u8], at: usize) -> Option<usize>
    requires { at < length register.now }
    ensures { Steps register.now at result }
{
    let left = register.len() - at;
    if left < 8 {
        return None;
    }
    if left - 8 < u32_at(register, at) {
        return None;
    }
    if u32_at(register, at + 4) == 0 {
        return None;
    }
    let end = end_at(register, at);
    if is_utf8(&register[at + 8..end]) {
        return Some(end);
    }
    None
}

// All that makes a register, but that no form repeats: how many entries there are, if none has a fault.
pub fn check_entries(register: &[u8]) -> Option<u64>
    ensures { Checks register.now result }
{
    let mut at: usize = 0;
    let mut number: u64 = 0;
    while at < register.len() {
        at = check_entry(register, at)?;
        number += 1;
    }
    Some(number)
}
