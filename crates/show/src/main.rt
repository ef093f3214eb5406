// The facts of a question, for who draws them: standard input is a pattern, a mark of a plan, or a whole plan, and the facts are lines of key=value. Of a mark
// they are the cords of its pattern, and the orders from its own line to the next mark's or the end's; of a plan its legs, each with its first and last mark,
// and what it names.
#![tactic(auto)]

ghost use Rattle.std.specs.Prelude.{◌≤◌, ◌<◌, length};
ghost use Rattle.listing.specs.Limits.{most_ports};
ghost use Rattle.promise.specs.Plan.{marks};
ghost use Rattle.plan_rules.specs.Rules.{legs_of};
ghost use Rattle.asking.specs.Answers.{plan_in, mark_in};

use asking::{Question, ask};
use campaign::{Campaign, RAN};
use campaign_way::along::rank_along;
use console::{Streams, Unwritten, answer_input, printed, refused, written};
use line_writer::order_lines::{LONGEST_LINE, Spelled, write_line};
use naming::{NAMED_BYTES, named_text};
use pattern_carry::panels::port_at;
use pattern_steps::counts::count_of;
use plan_facts::{cord_line, number_line, run_line};
use plan_rules::ruled::RuledPlan;
use printing::Rehearsal;
use printing::rehearsals::state_of;
use showing::marks::rehearsal_at;
use words::limits::LONGEST;
use words::{Jack, Line, Port, Signed};

// How many bytes of standard input are judged: as many as of a plan, 1,024, and a line before it.
const JUDGED: usize = 1100;

// The most lines from a mark to the next: its own, 19 orders, and the next mark's or the end's; and one more that ends the loop.
const MOST_REQUESTS: u8 = 22;

// What a request gave: an order, a mark, or the end.
#[derive(Clone, Copy)]
enum Given {
    Order,
    Mark,
    End,
}

// Bytes written to standard output, under this program's name. (`orders` says its own.)
fn put(streams: &mut Streams, bytes: &[u8]) -> Result<(), Unwritten> {
    written(streams, b"show", bytes)
}

// A line that was spelled.
fn put_spelled(streams: &mut Streams, s: Spelled) -> Result<(), Unwritten>
    requires { s.len ≤ length s.bytes }
{
    put(streams, &s.bytes[..s.len])
}

// A number after its key.
fn put_number(streams: &mut Streams, key: &[u8], n: u64) -> Result<(), Unwritten>
    requires { length key.now ≤ 8 }
{
    put_spelled(streams, number_line(key, n))
}

// An order line.
fn put_line(streams: &mut Streams, line: Line) -> Result<(), Unwritten> {
    let mut buf = [0u8; LONGEST_LINE];
    match write_line(line, &mut buf) {
        Ok(n) => put(streams, &buf[..n]),
        Err(_) => Err(Unwritten),
    }
}

// The ports, and how many patterns they have.
fn put_ports(streams: &mut Streams, ports: u8) -> Result<(), Unwritten>
    requires { (2 ≤ ports) × (ports ≤ most_ports) }
{
    put_number(streams, b"ports=", ports as u64)?;
    put_number(streams, b"count=", count_of(ports))
}

// The cord at a jack.
fn put_cord(streams: &mut Streams, j: Jack, p: Port) -> Result<(), Unwritten> {
    put_spelled(streams, cord_line(j, p))
}

// The cords of a panel, jack by jack.
fn put_cords(streams: &mut Streams, ports: u8, panel: [u8; LONGEST]) -> Result<(), Unwritten>
    requires { ports ≤ most_ports }
{
    for k in 0..ports {
        let j = k + 1;
        put_cord(streams, Jack(j), Port(port_at(panel, ports, j)))?;
    }
    Ok(())
}

// What a line is; a mark is reported as run, which goes into the campaign.
fn take(campaign: Campaign, line: Line) -> (Campaign, Given) {
    match line {
        Line::Movement(_) | Line::Seat(_) => (campaign, Given::Order),
        Line::Mark(_, _) => (campaign.report(RAN).campaign, Given::Mark),
        Line::End(_) => (campaign, Given::End),
    }
}

// One request, its line written; a mark is reported as run.
fn put_next(streams: &mut Streams, c: Campaign) -> Result<(Campaign, Given), Unwritten> {
    let mut buf = [0u8; LONGEST_LINE];
    let asked = c.request(&mut buf);
    put(streams, &buf[..asked.written])?;
    match asked.answer {
        Ok(line) => Ok(take(asked.campaign, line)),
        Err(_) => Err(Unwritten),
    }
}

// The lines from a mark to the next one's, or to the end's.
fn put_orders(streams: &mut Streams, r: Rehearsal) -> Result<(), Unwritten> {
    let mut campaign = Campaign { state: state_of(r) };
    let mut first = true;
    for _ in 0..MOST_REQUESTS {
        let (next, given) = put_next(streams, campaign)?;
        match given {
            Given::Order => (),
            Given::Mark if first => first = false,
            Given::Mark | Given::End => return Ok(()),
        }
        campaign = next;
    }
    Err(Unwritten)
}

// The facts of a mark.
fn put_mark(streams: &mut Streams, ruled: RuledPlan, k: u64) -> Result<(), Unwritten>
    requires { k < marks (legs_of ruled.plan) }
{
    let r = rehearsal_at(ruled, k);
    put_ports(streams, ruled.plan.ports)?;
    put_cords(streams, ruled.plan.ports, r.panel)?;
    put_orders(streams, r)
}

// The first mark of a leg and its last.
fn put_ends(streams: &mut Streams, ruled: RuledPlan, i: u8) -> Result<(), Unwritten>
    requires { i < ruled.plan.legs }
{
    let l = ruled.leg_at(i);
    let number = ruled.marks_before(i);
    put_line(streams, Line::Mark(number, l.start))?;
    let last = rank_along(ruled.plan.ports, l.start, l.back, l.run);
    put_line(streams, Line::Mark(number + l.run, last))
}

// A leg: its start, its run, its first mark and its last.
fn put_leg(streams: &mut Streams, ruled: RuledPlan, i: u8) -> Result<(), Unwritten>
    requires { i < ruled.plan.legs }
{
    let l = ruled.leg_at(i);
    put_number(streams, b"start=", l.start)?;
    let run = run_line(Signed {
        back: l.back,
        magnitude: l.run,
    });
    put_spelled(streams, run)?;
    put_ends(streams, ruled, i)
}

// The legs, one after the other.
fn put_legs(streams: &mut Streams, ruled: RuledPlan) -> Result<(), Unwritten> {
    for i in 0..ruled.plan.legs {
        put_leg(streams, ruled, i)?;
    }
    Ok(())
}

// What a plan names, and the gaps that it leaves.
fn put_named(streams: &mut Streams, ruled: RuledPlan) -> Result<(), Unwritten> {
    let mut buf = [0u8; NAMED_BYTES];
    let n = named_text(ruled, &mut buf);
    put(streams, &buf[..n])
}

// The facts of a whole plan.
fn put_plan(streams: &mut Streams, ruled: RuledPlan) -> Result<(), Unwritten> {
    put_ports(streams, ruled.plan.ports)?;
    put_number(streams, b"legs=", ruled.plan.legs as u64)?;
    put_legs(streams, ruled)?;
    put_line(streams, Line::End(ruled.marks_before(ruled.plan.legs)))?;
    put_named(streams, ruled)
}

// The facts of a question that was accepted.
fn put_facts(streams: &mut Streams, question: Question) -> Result<(), Unwritten>
    requires { mark_in question < marks (legs_of (plan_in question)) }
{
    match question {
        Question::Whole(ruled) => put_plan(streams, ruled),
        Question::Mark(ruled, k) => put_mark(streams, ruled, k),
    }
}

// A text judged, and its facts or its refusal.
fn put_question(streams: &mut Streams, text: &[u8]) {
    match ask(text) {
        Err(f) => refused(streams, b"show", f),
        Ok(question) => {
            if put_facts(streams, question).is_ok() {
                printed(streams);
            }
        }
    }
}

// (`benches` has such a main as well: programs differ here in what they name.)
fn main(rt: HostRuntime) {
    answer_input(&rt, &mut [0u8; JUDGED], b"show", b"question", put_question);
}
