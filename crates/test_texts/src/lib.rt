// Puts each file 0001.in, 0002.in, .. of a program's folder to inspect or to replay, until one is missing, under a heading; where there is none it
// says so.
#![tactic(auto)]

use std::io::Read;
use std::rt::Files;
use text_pull::Ends;

// Answers what a file has to standard output, by whether questions are asked.
fn answer<F: Read, P: Print>(file: &mut F, rt: &P, asks: bool) {
    let mut ends = Ends::new(file, std::io::writer(rt));
    if asks {
        shell::inspect(&mut ends);
    } else {
        shell::replay(&mut ends);
    }
}

// Answers file number n, or says false where it is missing.
fn one<R: Files + Print>(rt: &R, n: u32, asks: bool) -> bool {
    match test_stored::open(rt, n) {
        Ok(file) => {
            let mut from = file;
            let name = test_stored::name(n);
            io::write_all(1, b"== ");
            io::write_all(1, &name[0..4]);
            io::write_all(1, b"\n");
            answer(&mut from, rt, asks);
            true
        }
        Err(_) => false,
    }
}

// Answers each file, by whether questions are asked.
pub fn all<R: Files + Print + Eprint + Alloc>(rt: &R, asks: bool) {
    if !one(rt, 1, asks) {
        test_stored::report_none(rt);
        return;
    }
    for n in 2..10000 {
        if !one(rt, n, asks) {
            return;
        }
    }
}
