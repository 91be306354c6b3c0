// The program `jobfile`: commands for people with job files.
#![tactic(auto)]

fn main(rt: HostRuntime) {
    commands::jobfile::run_arguments(&rt, &mut rt.stdin(), &mut rt.stdout(), &mut rt.stderr());
}
