// Turns the bench file on standard input into text on standard output.
#![tactic(auto)]

fn main(rt: HostRuntime) {
    textual::list(rt);
}
