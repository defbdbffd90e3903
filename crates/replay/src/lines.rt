// Standard input, cut into lines, and what came of them.
use crate::answers::Failure;
use crate::calls::replay_line;
use std::io::Read;
use std::{fmt, io};

#[derive(Drop)]
pub struct Progress<'a> {
    // Where the next line is kept: a fixed buffer, since nothing allocates.
    line: &'a mut [u8],
    // How many bytes of it have been read; `None` where they are more than fit.
    used: Option<usize>,
    // How many lines have ended.
    lines: u64,
    results: u64,
    differ: u64,
    malformed: u64,
}

// Replays all of standard input, by way of a buffer for one line.
pub fn replay_all<'a>(rt: &(impl Input + Print), line: &'a mut [u8]) -> io::Result<Progress<'a>> {
    let mut progress = Progress {
        line,
        used: Some(0),
        lines: 0,
        results: 0,
        differ: 0,
        malformed: 0,
    };
    let mut input = rt.reader();
    let mut piece = [0; 4096];
    // Nothing says that the input ends, so the loop counts to a number that no run comes to.
    for _ in 0..u64::MAX {
        let n = match input.read(&mut piece) {
            Ok(0) => break,
            Ok(n) => n,
            Err(_) => {
                println!(rt; "standard input cannot be read")?;
                break;
            }
        };
        for b in &piece[..n] {
            progress.take_byte(rt, *b)?;
        }
    }
    // A last line that no line feed ends.
    if progress.used != Some(0) {
        progress.end_line(rt)?;
    }
    Ok(progress)
}

impl Progress<'_> {
    // Keeps a byte of the line, or ends the line.
    fn take_byte(&mut self, rt: &impl Print, b: u8) -> io::Result<()> {
        if b == b'\n' {
            return self.end_line(rt);
        }
        self.used = match self.used {
            Some(n) if n < self.line.len() => {
                self.line[n] = b;
                Some(n + 1)
            }
            _ => None,
        };
        Ok(())
    }

    // Replays the line, and reports it where it does not pass.
    fn end_line(&mut self, rt: &impl Print) -> io::Result<()> {
        let used = self.used.replace(0);
        let replayed = replay_used(self.line, used);
        self.lines = self.lines.wrapping_add(1);
        if let Some(Err(failure)) = replayed {
            println!(rt; "line {} {failure}", self.lines)?;
        }
        self.count(replayed);
        Ok(())
    }

    fn count(&mut self, replayed: Option<Result<(), Failure>>) {
        match replayed {
            None => {}
            Some(Ok(())) => self.results = self.results.wrapping_add(1),
            Some(Err(Failure::Differs(_))) => {
                self.results = self.results.wrapping_add(1);
                self.differ = self.differ.wrapping_add(1);
            }
            Some(Err(Failure::Malformed)) => self.malformed = self.malformed.wrapping_add(1),
        }
    }
}

// What came of the line; `None` where it is empty, or a comment.
fn replay_used(line: &[u8], used: Option<usize>) -> Option<Result<(), Failure>> {
    match used.and_then(|n| line.get(..n)) {
        Some([] | [b'#', ..]) => None,
        Some(line) => Some(replay_line(line)),
        None => Some(Err(Failure::Malformed)),
    }
}

impl fmt::Display for Progress<'_> {
    fn fmt<W: fmt::Write>(&self, f: &mut fmt::Formatter<W>) -> fmt::Result {
        write!(
            f,
            "replayed {} stored results, {} differ, {} malformed",
            self.results, self.differ, self.malformed
        )
    }
}
