// Times the library: each row makes its inputs from the seed, does one piece of work on each of them
// and prints a checksum of the results. With a seed as its argument the program prints times too.
#![tactic(auto)]

mod frames;
mod lent;
mod models;
mod numbers;
mod protocol;
mod random;
mod report;
mod runs;
mod sessions;
mod sums;
mod ways;

use frames::{Frames, OfMotor1};
use numbers::Numbers;
use random::Inputs;
use report::{clock, finish};
use runs::Kind;
use std::env::Env;
use std::io::Print;
use std::time::CpuClock;
use ways::{ByValue, Lent, Way};

// 65,536 inputs of five floats, 262,144 frames that are decoded or sorted, and 50,000 that are taken.
type Floats = [[f32; 5]; 65_536];

type SortedFrames = [[u8; 8]; 262_144];

type Taken = [[u8; 8]; 50_000];

// What the rows share: where they are printed, whether with times, and the random numbers, which go on
// from row to row.
#[derive(Drop)]
struct Bench<'a, P> {
    rt: &'a P,
    is_timed: bool,
    random: u64,
}

impl<'a, P: Print + CpuClock> Bench<'a, P> {
    fn row<K: Inputs, F: FnOnce(&[K::Input]) -> u64>(
        &mut self,
        name: &str,
        kind: K,
        inputs: &mut [K::Input],
        work: F,
    )
        requires { F.IsAlwaysCallable work }
    {
        kind.fill(inputs, &mut self.random);
        let begun = clock(self.rt);
        let sum = work(inputs);
        finish(self.rt, name, inputs.len(), sum, begun, self.is_timed);
    }

    fn setpoint_rows(&mut self, xs: &mut Floats) {
        let within = Numbers::Setpoints(0.0);
        self.row(
            "encode MIT, within the limits",
            within,
            xs,
            protocol::encode,
        );
        let beyond = Numbers::Setpoints(0.25);
        self.row("encode MIT, a third beyond", beyond, xs, protocol::encode);
    }

    fn model_rows(&mut self, xs: &mut Floats) {
        let near = Numbers::Queries(1.0);
        self.row("match, tolerance 1", near, xs, models::match_all);
        let far = Numbers::Queries(20.0);
        self.row("match, tolerance 20", far, xs, models::match_all);
        let any = Numbers::Queries(0.0);
        self.row("suggest three", any, xs, models::suggest_all);
    }

    fn frame_rows(&mut self) {
        let mut frames: SortedFrames = [[0; 8]; 262_144];
        let fs = &mut frames;
        self.row("decode feedback", Frames::Feedback, fs, protocol::decode);
        self.row("sort replies", Frames::Replies, fs, protocol::sort);
        self.row("sort acks", Frames::Acks, fs, protocol::sort);
        self.row("sort feedback", Frames::Feedback, fs, protocol::sort);
        let low = Frames::LowFeedback;
        self.row("sort feedback, d1 up to 0F", low, fs, protocol::sort);
        let unknown = Frames::UnknownRegisters;
        self.row("sort unknown registers", unknown, fs, protocol::sort);
        self.row(
            "sort, a third of each class",
            Frames::Mixed,
            fs,
            protocol::sort,
        );
    }

    fn session_rows(&mut self) {
        let mut frames: Taken = [[0; 8]; 50_000];
        let fs = &mut frames;
        let feedback = OfMotor1(Frames::Feedback);
        let replies = OfMotor1(Frames::Replies);
        let mixed = OfMotor1(Frames::Mixed);
        self.row("take feedback frames, lent", feedback, fs, lent::take_lent);
        self.row("take replies, lent", replies, fs, lent::take_lent);
        self.row(
            "take, a third of each class, lent",
            mixed,
            fs,
            lent::take_lent,
        );
        self.row(
            "take feedback frames, by value",
            feedback,
            fs,
            sessions::take,
        );
        self.row("take replies, by value", replies, fs, sessions::take);
        self.row(
            "take, a third of each class, by value",
            mixed,
            fs,
            sessions::take,
        );
    }

    fn run_rows<W: Way>(&mut self, names: [&str; 3]) {
        let mut frames: Taken = [[0; 8]; 50_000];
        let fs = &mut frames;
        let any = Frames::Feedback;
        let [read, write, switch] = names;
        self.row(read, any, fs, |frames: &[[u8; 8]]| {
            runs::run_all::<W>(Kind::Read, frames)
        });
        self.row(write, any, fs, |frames: &[[u8; 8]]| {
            runs::run_all::<W>(Kind::Write, frames)
        });
        self.row(switch, any, fs, |frames: &[[u8; 8]]| {
            runs::run_all::<W>(Kind::Switch, frames)
        });
    }
}

// The seed that the first argument is, if there is one.
fn argument(rt: &impl Env) -> Option<u64> {
    let mut word = [0u8; 4096];
    let len = rt.arg(1, &mut word).ok()?;
    script_words::number(&word[..len])
}

fn rows(rt: &(impl Print + CpuClock), seed: u64, is_timed: bool) {
    let mut bench = Bench {
        rt,
        is_timed,
        random: seed.wrapping_add(0x9E37_79B9_7F4A_7C15),
    };
    let mut xs: Floats = [[0.0; 5]; 65_536];
    bench.setpoint_rows(&mut xs);
    bench.frame_rows();
    bench.model_rows(&mut xs);
    bench.session_rows();
    bench.run_rows::<Lent>([
        "a register read, lent",
        "a confirmed write, lent",
        "a mode switch, lent",
    ]);
    bench.run_rows::<ByValue>([
        "a register read, by value",
        "a confirmed write, by value",
        "a mode switch, by value",
    ]);
}

fn main(rt: HostRuntime) {
    match argument(&rt) {
        Some(seed) => rows(&rt, seed, true),
        None => rows(&rt, 0, false),
    }
}
