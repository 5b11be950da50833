// Salvages standard input, and says on standard error where it could not be read or the image could not be written.
#![tactic(auto)]

use text_pull::Ends;

fn main(rt: HostRuntime) {
    let mut ends = Ends::new(rt.stdin(), rt.stdout());
    let flow = salvage_shell::salvage(&mut ends);
    text_pull::report(&rt, &ends, flow);
}
