// The tokens of a list, with the offset that is lent.
use crate::answers::{Answer, Failure};
use crate::arguments::{bytes, expect_fields, number};

// next_nmtoken TEXT OFFSET = NUMBER FIRST SECOND OFFSET
pub fn replay_nmtoken(line: &[u8]) -> Result<(), Failure> {
    expect_fields(line, 8)?;
    let mut text = [0; 2048];
    let text = bytes(line, 1, &mut text)?;
    let mut offset = number(line, 2)?;
    let answer = Answer::of(|words| govlezna::govlezna_next_nmtoken(text, &mut offset, words));
    let stored = number(line, 7)?;
    answer.compare(line, 3)?;
    answer.passes_if(offset == stored)
}
