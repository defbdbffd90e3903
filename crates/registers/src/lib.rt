// The three calls on a register of canonical forms (document 02, K10): add one, withdraw one, count one. Form, buffer and used length come
// by value, and `changes::used_after` gives the used length after a call.
#![tactic(auto)]

ghost use Rattle.std.specs.Prelude.{◌≡◌, []};
ghost use Rattle.text.specs.Call.{answered, call_of};
ghost use Rattle.register.specs.Entries.{count_in};
ghost use Rattle.register.specs.Stored.{entries, sound, intact};
ghost use Rattle.register.specs.RegisterCalls.{add_call, withdraw_call, count_call};
ghost use Rattle.register.specs.Places.{Filled, entries_in};
ghost use Rattle.changes.specs.Leaving.{leaving};
ghost use Rattle.registers.specs.Guarding.{register_check};

use text::refusals::Refusal;
use text::{Answer, PASSED, Success};

// Do the bytes hold entries, none of which has a fault or repeats a form?
fn is_register(register: &[u8]) -> bool
    ensures { result ≡ sound (entries register.now) }
{
    let Some(number) = register::check_entries(register) else {
        return false;
    };
    !repeats::repeats(register, number)
}

fn is_intact(buffer: &[u8], used: u64) -> bool
    ensures { result ≡ intact buffer.now used }
{
    if (buffer.len() as u64) < used {
        return false;
    }
    is_register(&buffer[..used as usize])
}

// Refusals 1 and 5 of the form, then 28.
fn check(form: &[u8], buffer: &[u8], used: u64) -> Answer
    ensures { answered result ≡ register_check form.now buffer.now used }
{
    text::check_text(form)?;
    if is_intact(buffer, used) {
        return Ok(PASSED);
    }
    Err(Refusal::DamagedRegister)
}

fn count_of(form: &[u8], register: &[u8]) -> u64
    requires { Filled register.now }
    ensures { result ≡ count_in form.now (entries_in register.now) }
{
    let Some(at) = register::find(form, register) else {
        return 0;
    };
    register::u32_at(register, at + 4) as u64
}

// The count of a form.
pub fn count(form: &[u8], buffer: &[u8], used: u64) -> Answer
    ensures { call_of (answered result) [] ≡ count_call form.now buffer.now used }
{
    check(form, buffer, used)?;
    Ok(Success {
        first: count_of(form, &buffer[..used as usize]),
        second: 0,
    })
}

// One more of a form: its count, and the used length.
pub fn add(form: &[u8], buffer: &mut [u8], used: u64) -> Answer
    ensures { leaving (answered result) used buffer.new ≡ add_call form.now buffer.old used }
{
    check(form, buffer, used)?;
    changes::add(form, buffer, used as usize)
}

// One less.
pub fn withdraw(form: &[u8], buffer: &mut [u8], used: u64) -> Answer
    ensures { leaving (answered result) used buffer.new ≡ withdraw_call form.now buffer.old used }
{
    check(form, buffer, used)?;
    changes::withdraw(form, buffer, used as usize)
}
