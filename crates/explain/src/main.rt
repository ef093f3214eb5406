// Why a pattern has its rank: judges the first 1,024 bytes of standard input as a pattern in one line, and prints its levels and its rank; for a refusal its
// number, its place, and in words the jack and the rule at fault.
#![tactic(auto)]

use console::{Streams, answer_input, printed, tell_refusal, written};
use explaining_line::{EXPLAINED_BYTES, Explained, explain};

// How many bytes of standard input are judged as a pattern. The longest line of a pattern has fewer.
const JUDGED: usize = 1024;

// What is printed of a text, and how it was judged.
fn print_explained(streams: &mut Streams, text: &[u8]) {
    let mut buf = [0u8; EXPLAINED_BYTES];
    let Explained { judged, len } = explain(text, &mut buf);
    if written(streams, b"explain", &buf[..len]).is_ok() {
        match judged {
            Ok(()) => printed(streams),
            Err(f) => tell_refusal(streams, f),
        }
    }
}

fn main(rt: HostRuntime) {
    answer_input(
        &rt,
        &mut [0u8; JUDGED],
        b"explain",
        b"pattern",
        print_explained,
    );
}
