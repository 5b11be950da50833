// Answers each file 0001.in, 0002.in, .. of its folder as `inspect` does, until one is missing, under a heading; where there is none it says so.
#![tactic(auto)]

fn main(rt: HostRuntime) {
    test_texts::all(&rt, true);
}
