// The entity table: its numbers, and the lookup of a name.
#![tactic(auto)]

ghost use Rattle.std.specs.Prelude.{◌≡◌, ℕ, ◌+◌, ◌<◌, ◌≤◌, true, false, List, [], ◌∷◌, length, get_or};
ghost use Rattle.text.specs.Bytes.{same_bytes};
ghost use Rattle.entity.specs.Table.{little_endian, part, marked, mark_size, ValidTable};
ghost use Rattle.entity.specs.Binding.{predefined_of, binding, bound_to, Lies};
ghost use Rattle.entity.specs.Commands.{command_name, Refers};
ghost use Rattle.entity.specs.Steps.{command_size, ReferentAt, TextAt, Agree, Here};

use text::load;

// What a name refers to: a command 1 of the table with its text's start and end in the pool, a predefined byte, an external entity,
// or nothing.
#[derive(Clone, Copy)]
pub enum Referent {
    Text {
        command: usize,
        start: usize,
        end: usize,
    },
    Predefined(u8),
    External,
    Unknown,
}

// What a name is bound to: a text of the table as start and end in the pool, a predefined byte, an external entity, or nothing.
#[derive(Drop)]
pub enum Binding {
    Text { start: usize, end: usize },
    Predefined(u8),
    External,
    Unknown,
}

// What the commands of a list begin with, and how wide the first two are.
pub const END: u8 = 0;

pub const TEXT: u8 = 1;

pub const EXTERNAL: u8 = 2;

pub const MARK: u8 = 3;

pub const TEXT_SIZE: usize = 12;

pub const EXTERNAL_SIZE: usize = 6;

pub fn u16_at(bytes: &[u8], i: usize) -> usize
    requires { i + 2 ≤ length bytes.now }
    ensures { (result ≡ little_endian bytes.now i 2) × (result < 0x10000) }
{
    usize::from(u16::from_le_bytes([bytes[i], bytes[i + 1]]))
}

pub fn u32_at(bytes: &[u8], i: usize) -> usize
    requires { i + 4 ≤ length bytes.now }
    ensures { (result ≡ little_endian bytes.now i 4) × (result < 0x100000000) }
{
    u32::from_le_bytes([bytes[i], bytes[i + 1], bytes[i + 2], bytes[i + 3]]) as usize
}

// Are the texts of the list past line ends?
pub fn is_marked(list: &[u8]) -> bool
    ensures { result ≡ marked list.now }
{
    list.len() != 0 && list[0] == MARK
}

// Where the list's commands begin.
pub fn mark_size(list: &[u8]) -> usize
    ensures { result ≡ mark_size list.now }
{
    if is_marked(list) {
        return 1;
    }
    0
}

pub fn command_size(command: u8) -> usize
    ensures { (result ≡ command_size command) × (result ≤ 12) }
{
    if command == TEXT {
        return TEXT_SIZE;
    }
    EXTERNAL_SIZE
}

pub fn is_three(name: &[u8], a: u8, b: u8, c: u8) -> bool
    ensures { result ≡ same_bytes name.now (a ∷ b ∷ c ∷ []) }
{
    name == [a, b, c].as_slice()
}

// One of the five, or nothing, whatever the pool. Two and four bytes are tested as one number, the first byte lowest: by `match name` each
// name took 4 instructions more.
pub fn resolve_xml_entity(name: &[u8]) -> Binding
    ensures by_index { (pool : List ℕ) → bound_to pool result ≡ predefined_of name.now }
    ensures by_index_2 { (pool : List ℕ) → Lies pool result }
{
    if name.len() == 2 {
        let two = u16_at(name, 0);
        if two == 0x746c {
            return Binding::Predefined(b'<');
        }
        if two == 0x7467 {
            return Binding::Predefined(b'>');
        }
        return Binding::Unknown;
    }
    if name.len() == 4 {
        let four = u32_at(name, 0);
        if four == 0x736f7061 {
            return Binding::Predefined(b'\'');
        }
        if four == 0x746f7571 {
            return Binding::Predefined(b'"');
        }
        return Binding::Unknown;
    }
    if is_three(name, b'a', b'm', b'p') {
        return Binding::Predefined(b'&');
    }
    Binding::Unknown
}

// The text of the command 1 at `at`.
fn text_at(list: &[u8], at: usize) -> Binding
    requires { at + 12 ≤ length list.now }
    ensures { TextAt list.now at result }
{
    let start = u32_at(list, at + 6);
    Binding::Text {
        start: start,
        end: start + u16_at(list, at + 10),
    }
}

// Do the last four bytes differ? So most names are told apart at once, the long ones too that begin alike.
fn ends_differ(pool: &[u8], start: usize, name: &[u8]) -> bool
    requires { start + length name.now ≤ length pool.now }
    ensures { result ≡ true → same_bytes (part pool.now start (length name.now)) name.now ≡ false }
{
    if name.len() < 4 {
        return false;
    }
    let last = name.len() - 4;
    u32_at(pool, start + last) != u32_at(name, last)
}

// How many bytes at the start are the same in both, by eights.
fn same_words(pool: &[u8], start: usize, name: &[u8]) -> usize
    requires { start + length name.now ≤ length pool.now }
    ensures { Agree pool.now start name.now result }
{
    let mut i: usize = 0;
    while 8 <= name.len() - i {
        if load::word(pool, start + i) != load::word(name, i) {
            return i;
        }
        i += 8;
    }
    i
}

// What a name refers to that the table does not define.
pub fn plain_referent(name: &[u8]) -> Referent
    ensures { (list pool : List ℕ) → predefined_of name.now ≡ binding list pool name.now → Refers list pool name.now result }
{
    match resolve_xml_entity(name) {
        Binding::Predefined(b) => Referent::Predefined(b),
        Binding::Text { start: _, end: _ } => Referent::Unknown,
        Binding::External => Referent::Unknown,
        Binding::Unknown => Referent::Unknown,
    }
}

// Where the text of the command 1 at `at` starts, and its length.
pub fn text_start(list: &[u8], at: usize) -> usize
    requires { at + 12 ≤ length list.now }
    ensures { (result ≡ little_endian list.now (at + 6) 4) × (result < 0x100000000) }
{
    u32_at(list, at + 6)
}

pub fn text_length(list: &[u8], at: usize) -> usize
    requires { at + 12 ≤ length list.now }
    ensures { (result ≡ little_endian list.now (at + 10) 2) × (result < 0x10000) }
{
    u16_at(list, at + 10)
}

// Is this the part of the pool from `start` on that is as long as the name? By eights.
fn same_part(pool: &[u8], start: usize, name: &[u8]) -> bool
    requires { start + length name.now ≤ length pool.now }
    ensures { result ≡ same_bytes (part pool.now start (length name.now)) name.now }
{
    for k in same_words(pool, start, name)..name.len() {
        if pool[start + k] != name[k] {
            return false;
        }
    }
    true
}

// The same for a short name, byte by byte.
pub fn same_short(pool: &[u8], start: usize, name: &[u8]) -> bool
    requires { start + length name.now ≤ length pool.now }
    ensures { result ≡ same_bytes (part pool.now start (length name.now)) name.now }
{
    for k in 0..name.len() {
        if pool[start + k] != name[k] {
            return false;
        }
    }
    true
}

// Is this the name of the command at `at`? Its start and length are at the same places in both kinds.
pub fn is_named(list: &[u8], pool: &[u8], at: usize, name: &[u8]) -> bool
    requires at_in_bounds { at + 6 ≤ length list.now }
    requires at_in_bounds_2 { little_endian list.now (at + 1) 4 + get_or list.now (at + 5) 0 ≤ length pool.now }
    ensures { result ≡ same_bytes (command_name list.now pool.now at) name.now }
{
    usize::from(list[at + 5]) == name.len() && same_part(pool, u32_at(list, at + 1), name)
}

// What the command at `at`, at which a lookup stops, gives its name.
pub fn referent_at(list: &[u8], at: usize) -> Referent
    requires { (at < length list.now) × (get_or list.now at 0 ≡ 1 → at + 12 ≤ length list.now) }
    ensures { ReferentAt list.now at result }
{
    if list[at] == TEXT {
        let start = text_start(list, at);
        return Referent::Text {
            command: at,
            start,
            end: start + text_length(list, at),
        };
    }
    Referent::External
}

// What a name refers to, from `from` on, where commands of both kinds stand: each is passed over by its own width. What it gives its name is
// decoded once, outside the loop over the bytes.
// By hand: document 01 asks for labelled loops over commands and bytes, and both are left at a full match.
fn find_later(list: &[u8], pool: &[u8], name: &[u8], from: usize) -> Referent
    requires { Here list.now pool.now name.now from }
    ensures { Refers list.now pool.now name.now result }
{
    let mut at = from;
    'commands: loop {
        if list[at] == END {
            break 'commands plain_referent(name);
        }
        let length = usize::from(list[at + 5]);
        if length != name.len() {
            at += command_size(list[at]);
            continue 'commands;
        }
        let first = u32_at(list, at + 1);
        if ends_differ(pool, first, name) {
            at += command_size(list[at]);
            continue 'commands;
        }
        let found = referent_at(list, at);
        let mut i = same_words(pool, first, name);
        'bytes: loop {
            if i == length {
                break 'commands found;
            }
            if pool[first + i] != name[i] {
                break 'bytes;
            }
            i += 1;
        }
        at += command_size(list[at]);
    }
}

// What a name refers to in a list without mark: the first command that has it, else one of the five, else nothing. Commands 1 have a loop of
// their own, as most lists have no others; that the list is over is seen by its length, so that the loop keeps no byte for a second test.
// Each test has its own step, and the text is decoded before the bytes are compared: else each name takes an instruction or two more, of 11.
// By hand: document 01 asks for labelled loops over commands and bytes, and both are left at a full match.
fn find_unmarked(list: &[u8], pool: &[u8], name: &[u8]) -> Referent
    requires { Here list.now pool.now name.now 0 }
    ensures { Refers list.now pool.now name.now result }
{
    let mut at: usize = 0;
    'commands: loop {
        if list[at] != TEXT {
            if at + 1 == list.len() {
                break 'commands plain_referent(name);
            }
            // As parts: slices that are handed on whole are copied at entry, by loads that wait for the caller's stores.
            break 'commands find_later(
                &list[..list.len()],
                &pool[..pool.len()],
                &name[..name.len()],
                at,
            );
        }
        let length = usize::from(list[at + 5]);
        if length != name.len() {
            at += TEXT_SIZE;
            continue 'commands;
        }
        let start = u32_at(list, at + 1);
        if ends_differ(pool, start, name) {
            at += TEXT_SIZE;
            continue 'commands;
        }
        let text = text_start(list, at);
        let end = text + text_length(list, at);
        let mut i = same_words(pool, start, name);
        'bytes: loop {
            if i == length {
                break 'commands Referent::Text {
                    command: at,
                    start: text,
                    end,
                };
            }
            if pool[start + i] != name[i] {
                break 'bytes;
            }
            i += 1;
        }
        at += TEXT_SIZE;
    }
}

// The same in a list that may be marked: the rest after the mark is searched as a list of its own. A loop that begins at 0 or 1 takes 13
// instructions for each name in place of 11, and 12 where the mark's size is kept beside it.
pub fn find_entity(list: &[u8], pool: &[u8], name: &[u8]) -> Referent
    requires { ValidTable list.now pool.now }
    ensures { Refers list.now pool.now name.now result }
{
    if !is_marked(list) {
        return find_unmarked(list, pool, name);
    }
    match find_unmarked(&list[1..], pool, name) {
        Referent::Text {
            command,
            start,
            end,
        } => Referent::Text {
            command: 1 + command,
            start,
            end,
        },
        Referent::Predefined(b) => Referent::Predefined(b),
        Referent::External => Referent::External,
        Referent::Unknown => Referent::Unknown,
    }
}

// What a name is bound to, by what it refers to.
impl From<Referent> for Binding {
    ghost from_gives = { λ referent bound. (list pool name : List ℕ) → Refers list pool name referent → (bound_to pool bound ≡ binding list pool name) × Lies pool bound };

    fn from(referent: Referent) -> Binding {
        match referent {
            Referent::Text { start, end, .. } => Binding::Text { start, end },
            Referent::Predefined(b) => Binding::Predefined(b),
            Referent::External => Binding::External,
            Referent::Unknown => Binding::Unknown,
        }
    }
}

// What the first command whose name is `name` gives it, else one of the five, else nothing.
pub fn resolve_entity(list: &[u8], pool: &[u8], name: &[u8]) -> Binding
    requires { ValidTable list.now pool.now }
    ensures result_value { bound_to pool.now result ≡ binding list.now pool.now name.now }
    ensures lies { Lies pool.now result }
{
    Binding::from(find_entity(list, pool, name))
}

// The same for a short name, whose end is not worth a test of its own: small enough to be compiled into each walk.
// By hand: document 01 asks for labelled loops over commands and bytes, and both are left at a full match.
pub fn resolve_short(list: &[u8], pool: &[u8], name: &[u8]) -> Binding
    requires { ValidTable list.now pool.now }
    ensures result_value { bound_to pool.now result ≡ binding list.now pool.now name.now }
    ensures lies { Lies pool.now result }
{
    let mut at = mark_size(list);
    'commands: loop {
        if list[at] != TEXT {
            if list[at] == EXTERNAL {
                break 'commands Binding::from(find_later(
                    &list[..list.len()],
                    &pool[..pool.len()],
                    &name[..name.len()],
                    at,
                ));
            }
            break 'commands resolve_xml_entity(name);
        }
        let length = usize::from(list[at + 5]);
        if length != name.len() {
            at += TEXT_SIZE;
            continue 'commands;
        }
        let from = u32_at(list, at + 1);
        let bound = text_at(list, at);
        let mut k: usize = 0;
        'bytes: loop {
            if k == length {
                break 'commands bound;
            }
            if pool[from + k] != name[k] {
                break 'bytes;
            }
            k += 1;
        }
        at += TEXT_SIZE;
    }
}
