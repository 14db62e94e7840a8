// curve_bench: asks the service of a class as often as each line of standard input says, `curve 1000` or `inverse 1000`, or makes it so
// often, `make 1000`, and prints the line with the sum of the answers. bench/run takes the time.
#![tactic(auto)]

use anyhow::{Context, anyhow};
use plan::Plan;
use plan_input::read_plan;
use service::ClassService;
use std::alloc::{AllocError, Global};
use supply::Supply;
use units::limits::MAX_SPAN;
use units::{Bytes, Refusal, Ticks};

// The class that is asked about.
const CLASS: u8 = 7;

// From one query to the next, so that spans and bytes come from all over their ranges.
const STEP: u64 = 7_919;

// The inverse is asked about at most so many bytes, which the class has in 4,000,000 ticks.
const MAX_BYTES: u64 = 3_000_000;

fn main(rt: HostRuntime) -> anyhow::Result<()> {
    run(&rt)
}

// Makes the plan, and does what the lines of standard input say.
fn run(rt: &HostRuntime) -> anyhow::Result<()> {
    let plan = full_plan(rt.alloc())?;
    for line in rt.lines(rt.alloc()) {
        let line = line?;
        answer(rt, &plan, line.as_str())?;
    }
    Ok(())
}

// Does what a line says, and prints the kind, the count and the sum of the answers.
fn answer(rt: &HostRuntime, plan: &Plan, line: &str) -> anyhow::Result<()> {
    let mut words = line.split(' ');
    let kind = words.next().context("a line has a kind")?;
    let count = words.next().context("a line has a count")?.parse::<u64>()?;
    let sums = match kind {
        "curve" => {
            let service = service_of(plan)?;
            sum_of(count, |query| Ok(service.at(span_of(query))?.0))
        }
        "inverse" => {
            let service = service_of(plan)?;
            sum_of(count, |query| Ok(least_span(&service, query)))
        }
        "make" => sum_of(count, |query| {
            Ok(ClassService::of(plan, CLASS)?.at(span_of(query))?.0)
        }),
        _ => return Err(anyhow!("a kind is curve, inverse or make")),
    };
    let sum = sums.ok().context("a query is refused")?;
    println!(rt; "{kind} {count} {sum}")?;
    Ok(())
}

// The service of the class that is asked about, made only where it is asked.
fn service_of(plan: &Plan) -> anyhow::Result<ClassService> {
    ClassService::of(plan, CLASS)
        .ok()
        .context("there is no such class")
}

// A plan with as many gate lines, as long a cycle and as many slots of a class as there can be.
fn full_plan(heap: Global) -> anyhow::Result<Plan> {
    let text = plan_text(heap)?;
    read_plan(heap, text.as_bytes())
        .ok()
        .context("the plan is refused")
}

// Class 7 opens and shuts by turns over class 0, which never shuts, so that each slot begins behind a wait.
fn plan_text(heap: Global) -> Result<String, AllocError> {
    let mut text = String::from_str(heap, "port=1\ncycle=500000\ngates=64\n")?;
    for turn in 0..32u64 {
        let lines = gate_lines(heap, turn)?;
        text.push_str(lines.as_str())?;
    }
    text.push_str(
        "class=7,300,600\nclass=6,0,0\nclass=5,0,0\nclass=4,0,0\nclass=3,0,0\nclass=2,0,0\nclass=1,0,0\nclass=0,1522,16384\nflows=0\n",
    )?;
    Ok(text)
}

// The two gate lines of a turn. Over 32 turns no two open lengths are alike, nor two shut ones, and all add up to 500,000 ticks.
fn gate_lines(heap: Global, turn: u64) -> Result<String, AllocError> {
    let open = 2_700 + turn.wrapping_mul(5) % 32 * 700;
    let shut = 2_850 - turn.wrapping_mul(11) % 32 * 50;
    format!(in heap; "gate={open},OCCCCCCO\ngate={shut},CCCCCCCO\n")
}

// The span of a query, of 0 to 4,000,000 ticks.
fn span_of(query: u64) -> Ticks {
    Ticks(query.wrapping_mul(STEP) % (MAX_SPAN + 1))
}

// The number of bytes of a query of the inverse.
fn bytes_of(query: u64) -> Bytes {
    Bytes(query.wrapping_mul(STEP) % (MAX_BYTES + 1))
}

// The least span that a query of the inverse finds; where there is none it counts as 0.
fn least_span(service: &ClassService, query: u64) -> u64 {
    service.least_span(bytes_of(query)).map_or(0, |span| span.0)
}

// The answers to so many queries, together.
fn sum_of<A: Fn(u64) -> Result<u64, Refusal>>(count: u64, answer: A) -> Result<u64, Refusal>
    requires { A.IsAlwaysCallable answer }
{
    let mut sum = 0u64;
    for query in 0..count {
        sum = sum.wrapping_add(answer(query)?);
    }
    Ok(sum)
}
