// The cycle of the walk over attribute values: a walker over a text, and the single step that opens a text of the table and has it
// walked. All else that stops a walk is answered between two openings (crate flat), by functions that call neither.
#![tactic(auto)]

ghost use Rattle.std.specs.Prelude.{◌≡◌, ◌≤◌, length};
ghost use Rattle.tokens.specs.Walking.{stepped};
ghost use Rattle.text.specs.Call.{answered};
ghost use Rattle.entity.specs.Table.{ValidTable};
ghost use Rattle.entity.specs.Commands.{Defines};
ghost use Rattle.attribute.specs.Walk.{Settings, walk};
ghost use Rattle.attribute.specs.Steps.{read_by};
ghost use Rattle.memory.specs.Slots.{shaped};
ghost use Rattle.memory.specs.Levels.{settings_of, level_of, Fitted, Lent, StepKeeps, StepsKeep};
ghost use Rattle.cycle.specs.Cycle.{Bottom, BottomFault, Openable, LentInner, Walkable};

use memory::{Place, Reached, Reading};
use text::refusals::Refusal;
use text::{Answer, Success};
use tokens::{Next, Step};

// The first character of a text at depth 0 that may not stand there, where no stop comes before it; else the text's end.
pub fn bottom_fault(text: &[u8], how: u8, guard: u8) -> usize
    ensures { BottomFault how guard text.now result }
{
    let n = text.len();
    if guard == 0 {
        return n;
    }
    let fault = legal::first_fault(text, 0, n, guard - 1);
    if fault == n {
        return n;
    }
    if halts::has_stop(&text[..fault], how == 1) {
        return n;
    }
    fault
}

// A text as it is, or its canonical form, at the start of the output.
fn write_text(text: &[u8], form: u8, out: &mut [u8]) -> usize
    requires { length text.now ≤ 16777216 }
    ensures { (result ≡ length (shaped form text.now)) × Fitted (shaped form text.now) out.old out.new }
{
    if form != 0 {
        return flat::write_value(text, 0, form == 2, out);
    }
    let n = text.len();
    if n <= out.len() {
        output::put_run(text, out);
    }
    n
}

// A text at depth 0: refused where there is a fault or a stop, else its own value. It is not inlined, so that what it keeps is no part of the
// walker's frame, which stands on the stack once a level.
#[inline(never)]
fn bottom_step(
    text: &[u8],
    how: u8,
    guard: u8,
    form: u8,
    next: usize,
    openings: u64,
    out: &mut [u8],
) -> Step
    requires { length text.now ≤ 16777216 }
    ensures { (s : Settings) → Bottom form (walk s (read_by how guard) 0 text.now openings) next out.old out.new (stepped result) }
{
    let fault = bottom_fault(text, how, guard);
    if fault != text.len() {
        return Err(Refusal::ForbiddenCharacter(fault as u64));
    }
    if halts::has_stop(text, how == 1) {
        return Err(Refusal::TooDeep);
    }
    let len = write_text(text, form, out);
    Ok(Next {
        at: next,
        len,
        openings,
    })
}

// The step that opens the text of a command, at the end of whose reference the place is: the text is walked with the depth one less.
#[cycle(normalize_attr_step_normalize_attr_steps)]
fn normalize_attr_step(
    command: usize,
    place: Place,
    reading: Reading,
    list: &[u8],
    pool: &[u8],
    seen: &mut [u64],
    out: &mut [u8],
) -> Step
    requires valid_table { ValidTable list.now pool.now }
    requires openable { Openable reading place seen.old }
    requires defines { Defines list.now pool.now command }
    requires lent_inner { LentInner reading place command list.now pool.now out.old seen.old }
    ensures { StepKeeps (settings_of reading list.now pool.now) reading.form list.now pool.now reading.depth command reading.base place out.old seen.old out.new seen.new (stepped result) }
{
    let start = entity::text_start(list, command);
    let end = start + entity::text_length(list, command);
    let depth = reading.depth;
    let next = place.at;
    let openings = place.openings + 1;
    if depth == 1 {
        return bottom_step(
            &pool[start..end],
            reading.inner,
            reading.inguard,
            reading.form,
            next,
            openings,
            out,
        );
    }
    let begun = Place {
        at: 0,
        len: 0,
        openings,
    };
    let below = Reading {
        how: reading.inner,
        inner: reading.inner,
        guard: reading.inguard,
        inguard: reading.inguard,
        form: reading.form,
        depth: depth - 1,
        limit: reading.limit,
        base: reading.base + place.len,
    };
    let walked = normalize_attr_steps(&pool[start..end], begun, below, list, pool, seen, out)?;
    Ok(Next {
        at: next,
        len: walked.first as usize,
        openings: walked.second,
    })
}

// The walker: a text, outer or of the table, from a place on. It is lent a memory, so that nothing pauses for want of one.
#[cycle(normalize_attr_step_normalize_attr_steps)]
pub fn normalize_attr_steps(
    text: &[u8],
    begun: Place,
    reading: Reading,
    list: &[u8],
    pool: &[u8],
    seen: &mut [u64],
    out: &mut [u8],
) -> Answer
    requires valid_table { ValidTable list.now pool.now }
    requires walkable { Walkable reading text.now }
    requires in_bounds { 84 ≤ length seen.old }
    requires lent { Lent (level_of reading list.now pool.now text.now) reading.base out.old seen.old begun }
    ensures { StepsKeep (level_of reading list.now pool.now text.now) reading.base begun out.old seen.old out.new seen.new (answered result) }
{
    let mut at = begun.at;
    let mut len = begun.len;
    let mut made = begun.openings;
    loop {
        let place = Place {
            at,
            len,
            openings: made,
        };
        let first = halts::next_halt(text, at, reading.how == 1);
        match flat::normalize_flat(text, place, first, reading, list, pool, seen, out)? {
            Reached::End { len: all, openings } => {
                return Ok(Success {
                    first: all as u64,
                    second: openings,
                });
            }
            Reached::Paused(here) => {
                at = here.at;
                len = here.len;
                made = here.openings;
            }
            Reached::Opening {
                at: _,
                next,
                command,
                slot,
                len: before,
                openings,
            } => {
                let rest = before.min(out.len());
                let opened = Place {
                    at: next,
                    len: before,
                    openings,
                };
                let step = normalize_attr_step(
                    command,
                    opened,
                    reading,
                    list,
                    pool,
                    seen,
                    &mut out[rest..],
                )?;
                memory::keep(
                    command,
                    slot,
                    reading.depth,
                    reading.base + before,
                    step.len,
                    step.openings - openings,
                    seen,
                );
                at = step.at;
                len = before + step.len;
                made = step.openings;
            }
        }
    }
}
