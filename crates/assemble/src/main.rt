// Turns the text of a bench on standard input into a bench file on standard output.
#![tactic(auto)]

fn main(rt: HostRuntime) {
    textual::assemble(rt);
}
