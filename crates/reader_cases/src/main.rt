// reader_cases: reads a table of plan texts with what the reader should answer to each, and prints the cases in which it answers
// otherwise. docs/checking.md says how the table is written.
#![tactic(auto)]

use anyhow::Context;
use plan::Plan;
use std::alloc::{AllocError, Global};
use std::iter;
use units::Refusal;

fn main(rt: HostRuntime) -> anyhow::Result<()> {
    run(&rt)
}

fn run(rt: &HostRuntime) -> anyhow::Result<()> {
    let mut plan = Plan::new(rt.alloc())?;
    let mut base = Vec::new(rt.alloc());
    // Fused: where the input ends before the cases begin, it is not asked for a line again.
    let mut lines = rt.lines(rt.alloc()).fuse();
    for line in lines.by_ref() {
        let line = line?;
        if line.is_empty() {
            break;
        }
        base.push(line)?;
    }
    let mut cases = 0u64;
    let mut wrong = 0u64;
    for line in lines {
        let line = line?;
        let case = Case::read(line.as_str())?;
        cases = cases.saturating_add(1);
        if !holds(rt, &mut plan, base.as_slice(), case)? {
            wrong = wrong.saturating_add(1);
        }
    }
    println!(rt; "{cases} cases, {wrong} wrong")?;
    Ok(())
}

// A line of the table: the answer that is due, what the case shows, and the bytes in the place of a line of the base text, if they are
// not a text of their own.
#[derive(Clone, Copy)]
struct Case<'a> {
    due: &'a str,
    title: &'a str,
    place: Option<usize>,
    written: &'a str,
}

impl<'a> Case<'a> {
    fn read(line: &'a str) -> anyhow::Result<Case<'a>> {
        let mut parts = line.split('\t');
        let due = parts.next().context("a case has an answer")?;
        let title = parts.next().context("a case has a title")?;
        let number = parts
            .next()
            .context("a case has a line number")?
            .parse::<usize>()?;
        let written = parts.next().context("a case has a text")?;
        Ok(Case {
            due,
            title,
            place: (number > 0).then_some(number),
            written,
        })
    }
}

// Whether the reader answers to the case as it should; prints what it answers if not.
fn holds(
    rt: &HostRuntime,
    plan: &mut Plan,
    base: &[String],
    case: Case<'_>,
) -> anyhow::Result<bool> {
    let text = text_of(rt.alloc(), base, case)?;
    let answer = answer_to(rt.alloc(), plan, text.as_slice())?;
    if answer.as_str() == case.due {
        return Ok(true);
    }
    let Case { due, title, .. } = case;
    println!(rt; "{title}: {answer} in place of {due}")?;
    Ok(false)
}

// The base text with other bytes in the place of one line; those bytes alone where there is no place.
fn text_of(heap: Global, base: &[String], case: Case<'_>) -> Result<Vec<u8>, AllocError> {
    let mut text = Vec::new(heap);
    let Some(place) = case.place else {
        add_written(&mut text, case.written)?;
        return Ok(text);
    };
    for (number, line) in (1..).zip(base) {
        if number == place {
            add_written(&mut text, case.written)?;
        } else {
            text.extend_from_slice(line.as_bytes())?;
            text.push(b'\n')?;
        }
    }
    Ok(text)
}

// Adds the bytes that a table writes: a slash for byte 10, a tilde for byte 0, a circumflex for byte 255, an at sign for a thousand of the byte before it.
fn add_written(text: &mut Vec<u8>, lines: &str) -> Result<(), AllocError> {
    let mut last = 0u8;
    for byte in lines.bytes() {
        if byte == b'@' {
            text.extend(iter::repeat_n(last, 1000))?;
        } else {
            last = meant(byte);
            text.push(last)?;
        }
    }
    Ok(())
}

fn meant(byte: u8) -> u8 {
    match byte {
        b'/' => b'\n',
        b'~' => 0,
        b'^' => 255,
        _ => byte,
    }
}

// The number, the line and the layer of the refusal, or that the text is read.
fn answer_to(heap: Global, plan: &mut Plan, text: &[u8]) -> Result<String, AllocError> {
    match plan.read(text) {
        Ok(()) => String::from_str(heap, "read"),
        Err(fault) => {
            let number = Refusal::from(fault).number();
            let line = fault.line();
            let layer = fault.layer();
            format!(in heap; "{number} {line} {layer}")
        }
    }
}
