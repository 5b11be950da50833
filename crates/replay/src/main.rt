// Replays standard input, and says on standard error where it could not be read or the answers could not be written.
#![tactic(auto)]

use text_pull::Ends;

fn main(rt: HostRuntime) {
    let mut ends = Ends::new(rt.stdin(), rt.stdout());
    let flow = shell::replay(&mut ends);
    text_pull::report(&rt, &ends, flow);
}
