// Reads the line script on standard input, and writes a line for each call to standard output. One
// session is in use at a time. On standard error it says why a line is bad, and `help` lists
// the calls.
#![tactic(auto)]

mod answer;
mod commands;
mod fields;
mod help;
mod input;
mod lines;
mod listing;
mod motor;
mod notes;
mod page;
mod print;
mod reports;
mod results;
mod running;
mod session_text;
mod sessions;
mod values;

// Of the bytes that are read, and of those that gather until they are written.
const BUFFER: usize = 65_536;

fn main(rt: HostRuntime) {
    lines::run(&mut rt.stdin(), &rt.stdout(), &rt.stderr());
}
