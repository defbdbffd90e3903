// The rehearsal of a job (document 02, K11): how the values that lent spans of one text name fare under some settings. The spans are read by
// two thin functions, `leaving` and the exported call (crate govlezna); all else is by value.
#![tactic(auto)]

ghost use Rattle.std.specs.Prelude.{◌≡◌, true, List, [], ◌∷◌, ℕ, suc, ◌+◌, ◌≤◌, ◌<◌, length, get_or, replicate};
ghost use Rattle.text.specs.Call.{answered};
ghost use Rattle.entity.specs.Table.{ValidTable};
ghost use Rattle.walk_rehearsal.specs.Rehearsal.{leaves_text, inside, spans_by, fared, counted};
ghost use Rattle.walk_rehearsal.specs.Turns.{further_by, verdict_by, job_check, Begins, Reads, Countable, Ready, Turn};

use normalize::Wanted;
use text::refusals::Refusal;
use text::{Answer, PASSED, simple, validate};
use tokens::Buffer;

// Where a value stands in the text of a job.
#[repr(C)]
#[derive(Clone, Copy)]
pub struct Span {
    pub start: u64,
    pub length: u64,
}

// What a job is set to, how many of its spans are to be read, and its answer: a refused job has none to read.
#[derive(Clone, Copy)]
pub struct Job {
    pub version: u8,
    pub depth: u64,
    pub limit: u64,
    pub count: usize,
    pub answer: Answer,
}

// How a value fares: the length of its normalized value, or its refusal.
pub type Verdict = Result<u64, Refusal>;

// ---- spans that leave the text

// The sum of start and length is not made: it might wrap.
fn leaves_text(size: usize, span: Span) -> bool
    ensures { result ≡ leaves_text size span }
{
    let end = size as u64;
    if end < span.start {
        return true;
    }
    end - span.start < span.length
}

// How many spans stay inside, after the one at index `at`, where `staying` did before it. All of them are looked at: most jobs have none
// that leaves.
fn further(size: usize, span: Span, at: usize, staying: usize) -> usize
    requires { at + 1 < 18446744073709551616 }
    ensures { result ≡ further_by size span at staying }
{
    if staying != at {
        return staying;
    }
    if leaves_text(size, span) {
        return staying;
    }
    staying + 1
}

// How many spans stand before the first that leaves a text of that size: the first of the two thin functions over the spans.
pub fn leaving(spans: &[Span], size: usize) -> usize
    ensures { result ≡ inside size spans.now }
{
    let mut staying: usize = 0;
    let mut i: usize = 0;
    // By hand: by a `for` each turn was compiled to read its span where the count before it says, and waited for that turn.
    while i < spans.len() {
        let s = spans[i];
        staying = further(size, s, i, staying);
        i += 1;
    }
    staying
}

// 31, by the number of spans and how many stand before the first that leaves.
fn check_spans(count: usize, staying: usize) -> Answer
    ensures { answered result ≡ spans_by count staying }
{
    if 65536 < count {
        return Err(Refusal::SpanOutside(65536));
    }
    if staying < count {
        return Err(Refusal::SpanOutside(staying as u64));
    }
    Ok(PASSED)
}

// ---- one value

// A reading without room refuses an accepted value by 19, with its length.
fn verdict_by(read: Answer) -> Verdict
    ensures { fared result ≡ verdict_by (answered read) }
{
    match read {
        Ok(words) => Ok(words.first),
        Err(Refusal::NoRoom(length) | Refusal::Numbered(19, length, _)) => Ok(length),
        Err(refusal) => Err(refusal),
    }
}

// The value by itself, as normalization reads it, with no room: only its length is asked for.
fn read_value(value: &[u8], job: Job, list: &[u8], pool: &[u8]) -> Verdict
    requires valid_table { ValidTable list.now pool.now }
    requires value_len_bound { length value.now ≤ 16777216 }
    requires limit_bound { job.limit ≤ 1000000 }
    ensures { Reads job list.now pool.now value.now (fared result) }
{
    if simple::is_simple(value) {
        return Ok(value.len() as u64);
    }
    let end = validate::utf8_end(value);
    if end != value.len() {
        return Err(Refusal::NotUtf8(end as u64));
    }
    let mut none = [0u8; 1];
    let wanted = Wanted {
        version: job.version,
        strict: false,
        depth: job.depth,
        limit: job.limit,
    };
    let room = &mut none[..0];
    verdict_by(normalize::normalized(value, wanted, 0, false, list, pool, Buffer::Output, room))
}

// ---- the report

// The report's change by a verdict.
fn count(verdict: Verdict, report: &mut [u64; 29])
    requires { Countable (fared verdict) report.old }
    ensures { report.new ≡ counted (fared verdict) report.old }
{
    match verdict {
        Ok(length) => {
            report[0] = report[0] + 1;
            report[28] = report[28] + length;
        }
        Err(refusal) => {
            let k = refusal.number() as usize;
            report[k] = report[k] + 1;
        }
    }
}

// One turn: the value of a span is read and counted.
pub fn count_value(
    report: &mut [u64; 29],
    text: &[u8],
    span: Span,
    job: Job,
    list: &[u8],
    pool: &[u8],
)
    requires { Ready text.now span job list.now pool.now report.old }
    ensures { Turn text.now span job list.now pool.now report.old report.new }
{
    let start = span.start as usize;
    let end = start + span.length as usize;
    let verdict = read_value(&text[start..end], job, list, pool);
    count(verdict, report);
}

// ---- the job

// The checks of a job: text, settings and table, then its spans.
fn check_job(
    text: &[u8],
    version: u8,
    depth: u64,
    limit: u64,
    list: &[u8],
    pool: &[u8],
    count: usize,
    staying: usize,
) -> Answer
    ensures { answered result ≡ job_check text.now version depth limit list.now pool.now count staying }
{
    checks::check_walk(text, false, version, depth, limit, list, pool)?;
    check_spans(count, staying)
}

// A job that passes its checks starts with a report of zeros; a refused one leaves it.
pub fn begin(
    report: &mut [u64; 29],
    text: &[u8],
    version: u8,
    depth: u64,
    limit: u64,
    list: &[u8],
    pool: &[u8],
    count: usize,
    staying: usize,
) -> Job
    ensures { Begins (job_check text.now version depth limit list.now pool.now count staying) version depth limit count report.old result report.new }
{
    match check_job(text, version, depth, limit, list, pool, count, staying) {
        Ok(_) => {
            let zeros: [u64; 29] = [0; 29];
            *report = zeros;
            Job {
                version,
                depth,
                limit,
                count,
                answer: Ok(PASSED),
            }
        }
        Err(refusal) => Job {
            version,
            depth,
            limit,
            count: 0,
            answer: Err(refusal),
        },
    }
}
