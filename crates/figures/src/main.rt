// figures: reads a plan on standard input and prints its report with the figures of each class, or why it is refused. A refusal
// ends the process with status 1.
#![tactic(auto)]

mod class_figures;

use anyhow::{Context, anyhow};
use class_figures::{BoundFigures, SlotFigures};
use plan::Plan;
use plan_input::{read_input, read_plan};

fn main(rt: HostRuntime) -> anyhow::Result<()> {
    run(&rt)
}

// Both programs have this and `print_plan`. By a rule of the project a function that they share has a clause on its result, and no
// clause can name what is read and printed.
fn run(rt: &HostRuntime) -> anyhow::Result<()> {
    let text = read_input(rt)?;
    match read_plan(rt.alloc(), text.as_slice()) {
        Ok(plan) => print_plan(rt, &plan),
        Err(fault) => {
            println!(rt; "{fault}")?;
            Err(anyhow!("the plan is refused"))
        }
    }
}

fn print_plan(rt: &HostRuntime, plan: &Plan) -> anyhow::Result<()> {
    let port = plan.port();
    println!(rt; "port={port}")?;
    for class in (0..8u8).rev() {
        let slots = SlotFigures::of(plan, class).ok().context("no such class")?;
        print!(rt; "{slots}")?;
        let bound = BoundFigures::of(plan, class);
        println!(rt; "{bound}")?;
    }
    Ok(())
}
