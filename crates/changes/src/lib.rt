// The changes of a register that sits in its buffer (document 02, K10): one more of a form, one less. The answer's second word is the used
// length after an accepted change.
#![tactic(auto)]

ghost use Rattle.std.specs.Prelude.{◌≡◌, ◌+◌, ◌%◌, ◌<◌, ◌≤◌, length, drop, replicate};
ghost use Rattle.text.specs.Call.{answered, laid};
ghost use Rattle.register.specs.Entries.{entry, add, withdraw};
ghost use Rattle.register.specs.Stored.{u32_at, u32, entry_bytes};
ghost use Rattle.register.specs.Places.{Absent};
ghost use Rattle.changes.specs.Leaving.{used_after, present, Seated, Left, Recounts};

use text::refusals::Refusal;
use text::{Answer, Success};

// The used length after a call.
pub fn used_after(answer: Answer, used: u64) -> u64
    ensures { result ≡ used_after (answered answer) used }
{
    match answer {
        Ok(words) => words.second,
        Err(_) => used,
    }
}

// ---- Bytes that are written

fn put_u32(value: usize, out: &mut [u8])
    requires { 4 ≤ length out.old }
    ensures { out.new ≡ laid (u32 value) out.old }
{
    out[..4].copy_from_slice(&value.to_le_bytes()[..4]);
}

// An entry of one form.
fn put_entry(form: &[u8], out: &mut [u8])
    requires { 8 + length form.now ≤ length out.old }
    ensures { out.new ≡ laid (entry_bytes (entry form.now 1)) out.old }
{
    put_u32(form.len(), out);
    put_u32(1, &mut out[4..]);
    output::put_run(form, &mut out[8..]);
}

// ---- Changes

// A new form at the end.
fn append(form: &[u8], buffer: &mut [u8], used: usize) -> Answer
    requires seated { Seated buffer.old used }
    requires absent { Absent form.now (present buffer.old used) }
    ensures { Left (answered result) used buffer.old buffer.new (add (length buffer.old) form.now (present buffer.old used)) }
{
    if buffer.len() - used < 8 {
        return Err(Refusal::RegisterFull);
    }
    if buffer.len() - used - 8 < form.len() {
        return Err(Refusal::RegisterFull);
    }
    put_entry(form, &mut buffer[used..]);
    Ok(Success {
        first: 1,
        second: (used + 8 + form.len()) as u64,
    })
}

// Another count for the entry at `at`.
fn change_count(count: usize, buffer: &mut [u8], at: usize, used: usize) -> Answer
    requires { (0 < count) × (at + 8 ≤ length buffer.old) }
    ensures { Recounts (answered result) used at count buffer.old buffer.new }
{
    put_u32(count, &mut buffer[at + 4..]);
    Ok(Success {
        first: count as u64,
        second: used as u64,
    })
}

// The entry at `at` goes.
fn remove(buffer: &mut [u8], at: usize, used: usize) -> Answer
    requires { (used ≤ length buffer.old) × (at + 8 + u32_at buffer.old at ≤ used) }
    ensures { Recounts (answered result) used at 0 buffer.old buffer.new }
{
    let gap = register::end_at(buffer, at) - at;
    buffer[at..used].copy_within(gap.., 0);
    buffer[used - gap..used].fill(0);
    Ok(Success {
        first: 0,
        second: (used - gap) as u64,
    })
}

// One more of a form: its count, and the used length.
pub fn add(form: &[u8], buffer: &mut [u8], used: usize) -> Answer
    requires { Seated buffer.old used }
    ensures { Left (answered result) used buffer.old buffer.new (add (length buffer.old) form.now (present buffer.old used)) }
{
    let Some(at) = register::find(form, &buffer[..used]) else {
        return append(form, buffer, used);
    };
    let count = register::u32_at(buffer, at + 4);
    if count == 0xffffffff {
        return Err(Refusal::RegisterFull);
    }
    change_count(count + 1, buffer, at, used)
}

// One less.
pub fn withdraw(form: &[u8], buffer: &mut [u8], used: usize) -> Answer
    requires { Seated buffer.old used }
    ensures { Left (answered result) used buffer.old buffer.new (withdraw form.now (present buffer.old used)) }
{
    let Some(at) = register::find(form, &buffer[..used]) else {
        return Err(Refusal::AbsentForm);
    };
    let count = register::u32_at(buffer, at + 4);
    if count == 1 {
        return remove(buffer, at, used);
    }
    change_count(count - 1, buffer, at, used)
}
