// What a plan names: judges the first 1,024 bytes of standard input as a plan, and prints how many ranks it names, of how many, and the gaps that it leaves; for a
// refusal only its number and its place.
#![tactic(auto)]

use console::{Streams, answer_input, printed, refused, written};
use naming::{NAMED_BYTES, named_text};
use plan_rules::ruled::RuledPlan;
use plans::ReadPlan;
use plans::reading::read_plan;

// How many bytes of standard input are judged as a plan. The longest plan has fewer.
const JUDGED: usize = 1024;

// What a plan names.
fn print_named(streams: &mut Streams, ruled: RuledPlan) {
    let mut buf = [0u8; NAMED_BYTES];
    let n = named_text(ruled, &mut buf);
    if written(streams, b"named", &buf[..n]).is_ok() {
        printed(streams);
    }
}

// A text judged, and what it names or its refusal printed.
fn print_plan(streams: &mut Streams, text: &[u8]) {
    let ReadPlan { judged, plan } = read_plan(text);
    match judged {
        Ok(()) => print_named(streams, RuledPlan { plan }),
        Err(f) => refused(streams, b"named", f),
    }
}

// (`benches` has such a main as well: programs differ here in what they name.)
fn main(rt: HostRuntime) {
    answer_input(&rt, &mut [0u8; JUDGED], b"named", b"plan", print_plan);
}
