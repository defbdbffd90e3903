// Replays the stored results of the oracle, which standard input holds, and prints what differs.
// One result to a line, as `check_utf8 TEXT = NUMBER FIRST SECOND`: the call, its arguments, and
// what was answered. Fields stand between single spaces, bytes in lower-case hexadecimal, `-` for
// none, and numbers in decimal. An empty line, or one that starts with `#`, is passed over.
#![tactic(auto)]

mod answers;
mod arguments;
mod calls;
mod cdata;
mod declared;
mod fields;
mod lines;
mod nmtoken;
mod register_calls;
mod table_calls;
mod values;

fn main(rt: HostRuntime) -> std::io::Result<()> {
    // A text, a list, a pool, a value and an output of 2,048 bytes each take 20,480 digits.
    let mut line = [0; 65536];
    let progress = lines::replay_all(&rt, &mut line)?;
    println!(rt; "{progress}")
}
