// The cases of the paper's 'To run'.
use crate::says;
use campaign::Campaign;
use pattern_check::checking::check;
use patterns::counting::count;
use words::Refusal;

fn planned(text: &[u8]) -> Result<(), Refusal> {
    Campaign::begin(text).judged
}

fn numbered(ports: u8) -> Result<(), Refusal> {
    count(ports)?;
    Ok(())
}

fn patterns_tried(rt: &impl Print) {
    says::answered(rt, b"pattern 1,1", check(&[1, 1]), 5, 1);
    says::answered(rt, b"pattern 2,2", check(&[2, 2]), 4, 2);
    says::answered(rt, b"pattern 3,1", check(&[3, 1]), 3, 1);
}

// A plan's text, beside the number and the place that the paper expects of it.
fn plan_tried(rt: &impl Print, what: &[u8], text: &[u8], number: u8, place: u8) {
    says::answered(rt, what, planned(text), number, place);
}

fn ports_tried(rt: &impl Print) {
    says::answered(rt, b"20 ports", numbered(20), 0, 0);
    says::answered(rt, b"21 ports", numbered(21), 1, 0);
    plan_tried(
        rt,
        b"plan of 20 ports",
        b"ports=20\nlegs=1\nstart=0\nrun=0\n",
        0,
        0,
    );
    plan_tried(
        rt,
        b"plan of 21 ports",
        b"ports=21\nlegs=1\nstart=0\nrun=0\n",
        1,
        1,
    );
}

fn runs_tried(rt: &impl Print) {
    plan_tried(
        rt,
        b"4 ports, run 8",
        b"ports=4\nlegs=1\nstart=0\nrun=8\n",
        0,
        0,
    );
    plan_tried(
        rt,
        b"4 ports, run -8",
        b"ports=4\nlegs=1\nstart=0\nrun=-8\n",
        0,
        0,
    );
    plan_tried(
        rt,
        b"4 ports, run 9",
        b"ports=4\nlegs=1\nstart=0\nrun=9\n",
        10,
        4,
    );
    plan_tried(
        rt,
        b"4 ports, run -9",
        b"ports=4\nlegs=1\nstart=0\nrun=-9\n",
        10,
        4,
    );
}

pub fn to_run(rt: &impl Print) {
    patterns_tried(rt);
    ports_tried(rt);
    runs_tried(rt);
    plan_tried(rt, b"legs 0", b"ports=4\nlegs=0\n", 9, 2);
}
