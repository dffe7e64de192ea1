// The listing program: a job on standard input, its listing on standard output. 01, "Figures to hold to".
#![tactic(auto)]

use console::Program;

// The program `page` has a `main` like it: what both share is `Program::print`, and each names what is its own.
fn main(rt: HostRuntime) {
    let listing = Program {
        name: "listing",
        paged: false,
    };
    listing.print(&rt, &mut rt.stdin(), &mut rt.stderr());
}
