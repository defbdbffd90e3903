// The forecast (K6): length and openings of a value's normalization, by a pair of words for each definition at each depth. So far what a survey of
// a text needs where it comes to a reference: the number of the definition that binds the name, and what its pair adds.
#![tactic(auto)]

ghost use Rattle.std.specs.Prelude.{◌≡◌, ℕ, ◌+◌, get_or};
ghost use Rattle.entity.specs.Table.{ValidTable};
ghost use Rattle.entity.specs.Commands.{Defines};
ghost use Rattle.walk_pairs.specs.PairSums.{placed, from_words};
ghost use Rattle.walk_forecast.specs.Numbering.{Numbered};
ghost use Rattle.walk_forecast.specs.Surveys.{pair_below, added_sum, Addable, PairIn};

use text::refusals::Refusal;

// 2^63: a first word from here on is a refusal.
pub const REFUSED: u64 = 9223372036854775808;

// How a text is surveyed: how it is read and how the texts inside it are, its limit, its depth, which is not 0, and the words of a row.
#[derive(Drop)]
pub struct Survey {
    pub how: u8,
    pub inner: u8,
    pub limit: u64,
    pub depth: usize,
    pub width: usize,
}

// Bytes that a reference adds, and the openings after it.
#[derive(Clone, Copy)]
pub struct Bytes {
    pub len: usize,
    pub openings: u64,
}

// What refuses it, and the openings until then. By its number, as a pair's word has it.
#[derive(Clone, Copy)]
pub struct Failed {
    pub number: u32,
    pub openings: u64,
}

// What a reference adds where so many openings were made before it.
pub type Added = Result<Bytes, Failed>;

// What a survey comes to: length and openings; or a reference, ended before `next`, to the definition `number`, whose pair is 16 after `until`
// openings of the whole.
#[derive(Drop)]
pub enum Outlook {
    Sized {
        len: usize,
        openings: u64,
    },
    Waits {
        next: usize,
        number: usize,
        len: usize,
        openings: u64,
        until: u64,
    },
}

pub type Surveyed = Result<Outlook, Failed>;

// ---- the number of a definition

// By the name: the first definition that has it.
fn number_by_name(list: &[u8], pool: &[u8], command: usize) -> usize
    requires valid_table { ValidTable list.now pool.now }
    requires defines { Defines list.now pool.now command }
    ensures { Numbered list.now pool.now command result }
{
    let start = entity::u32_at(list, command + 1);
    let end = start + usize::from(list[command + 5]);
    let mut at = entity::mark_size(list);
    let mut number: usize = 0;
    // By hand: commands are of two sizes.
    loop {
        if entity::is_named(list, pool, at, &pool[start..end]) {
            return number;
        }
        at += entity::command_size(list[at]);
        number += 1;
    }
}

// ---- what a reference adds

// A pair with the opening of its own text: 17 where the limit does not allow it.
fn pair_added(first: u64, second: u64, openings: u64, limit: u64) -> Added
    requires { Addable first second openings limit }
    ensures { added_sum result ≡ placed limit (openings + 1) (from_words first second) }
{
    let made = openings + 1 + second;
    if limit < made {
        return Err(Failed {
            number: Refusal::TooManyOpenings(0).number(),
            openings: limit,
        });
    }
    if first < REFUSED {
        return Ok(Bytes {
            len: first as usize,
            openings: made,
        });
    }
    Err(Failed {
        number: (first - REFUSED) as u32,
        openings: made,
    })
}

// By the definition's pair of one depth less.
fn referred(number: usize, openings: u64, by: Survey, words: &[u64]) -> Added
    requires { PairIn number openings by words.now }
    ensures { added_sum result ≡ placed by.limit (openings + 1) (from_words (get_or words.now (pair_below number by) 0) (get_or words.now (pair_below number by + 1) 0)) }
{
    let pair = number * by.width + 2 * (by.depth - 1);
    pair_added(words[pair], words[pair + 1], openings, by.limit)
}
