// The program of 01: one line from standard input, its edges with the plain table to standard output. The stored input and output are 01's example.
#![tactic(auto)]

fn main(rt: HostRuntime) -> std::io::Result<()> {
    print_line::print_line(&rt)
}
