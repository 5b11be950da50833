// What a program says of a failure, on standard error: a line that begins with `failed: `.
use std::io::Error;

// Says words on standard error, and behind them why the call with this error failed.
fn say(rt: &(impl Eprint + Alloc), words: &str, errno: i32) {
    match Error::from_raw_os_error(errno).to_string(rt.alloc()) {
        Ok(reason) => say_why(rt, words, reason.as_str()),
        Err(_) => say_why(rt, words, ""),
    }
}

// Says words on standard error, and behind them a reason, without its number.
fn say_why(rt: &impl Eprint, words: &str, reason: &str) {
    let why = reason
        .split_once(" (os error ")
        .map_or(reason, |(why, _)| why);
    print_why(rt, words, why);
}

// Prints words and a reason on standard error.
fn print_why(rt: &impl Eprint, words: &str, why: &str) {
    let _ = eprintln!(rt; "{words}: {why}");
}

// Says on standard error that a read failed, and why.
pub(crate) fn say_unread(rt: &(impl Eprint + Alloc), errno: i32) {
    say(rt, "failed: the text could not be read", errno);
}

// Says on standard error that a write failed, and why.
pub(crate) fn say_unwritten(rt: &(impl Eprint + Alloc), errno: i32) {
    say(rt, "failed: the answers could not be written", errno);
}

// Says on standard error that a write took nothing: no call failed, so there is no reason to give.
pub(crate) fn say_untaken(rt: &impl Eprint) {
    let _ = rt.eprintln("failed: the answers could not be written: a write took nothing");
}

// Says on standard error that the turns are used up.
pub(crate) fn say_unended(rt: &impl Eprint) {
    let _ = rt.eprintln("failed: the turns are used up before the text has ended");
}
