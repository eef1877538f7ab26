// A row is timed and printed: its name, how many calls it made, their checksum and, where times are
// asked for, the nanoseconds that they took.
use std::io::Print;
use std::time::{CpuClock, Duration};

fn microseconds(time: Duration) -> u64 {
    let whole = time.as_secs().wrapping_mul(1_000_000);
    whole.wrapping_add(u64::from(time.subsec_micros()))
}

// The processor time of this program so far, in microseconds, which is what C's clock counts. 0 where
// it cannot be read.
pub(crate) fn clock(rt: &impl CpuClock) -> u64 {
    rt.process_cpu_time().map_or(0, microseconds)
}

fn nanoseconds(begun: u64, ended: u64) -> u64 {
    let took = ended.wrapping_sub(begun);
    if took < 1_000_000_000_000 {
        return took * 1_000;
    }
    0
}

pub(crate) fn finish(
    rt: &(impl Print + CpuClock),
    name: &str,
    calls: usize,
    sum: u64,
    begun: u64,
    timed: bool,
) {
    let ended = clock(rt);
    let _ = print!(rt; "{name}\t{calls}\t{sum:016x}");
    if timed {
        let took = nanoseconds(begun, ended);
        let _ = print!(rt; "\t{took}");
    }
    let _ = println!(rt);
}
