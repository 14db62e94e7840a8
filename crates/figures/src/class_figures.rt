// The figures of a class, and how they are printed: those of its slots before its bound is searched, which may take long.
ghost use Rattle.std.specs.Prelude.{◌≡◌, Some, length};
ghost use Rattle.units.specs.Classes.{ByClass};
ghost use Rattle.plan.specs.PlanContents.{contents};
ghost use Rattle.slots.specs.OfPlan.{slots_of, sure_ticks_of, block_of};
ghost use Rattle.figures.specs.Printed.{slot_lines, bound_lines};
ghost use Rattle.figures.specs.Bounded.{Bounded};

use class_bound::bound;
use plan::Plan;
use slots::ClassSlots;
use std::fmt;
use units::{Bytes, Refusal, Ticks};

// How many slots the class has, its sure ticks and its block.
#[derive(Clone, Copy)]
pub struct SlotFigures {
    class: u8,
    slots: usize,
    sure: Ticks,
    block: Ticks,
}

impl SlotFigures {
    // Refused where there is no such class.
    pub fn of(plan: &Plan, class: u8) -> Result<SlotFigures, Refusal>
        ensures { ByClass class result (λ f. (f.class ≡ class)
            × (f.slots ≡ length (slots_of (contents plan.now) class))
            × (f.sure.0 ≡ sure_ticks_of (contents plan.now) class)
            × (f.block.0 ≡ block_of (contents plan.now) class)) }
    {
        let ClassSlots { slots, sure, block } = ClassSlots::of(plan, class)?;
        Ok(SlotFigures {
            class,
            slots: slots.len(),
            sure,
            block,
        })
    }
}

// Four lines, the last of them ended.
impl fmt::Display for SlotFigures {
    ghost output = { λ f. Some (slot_lines f.class f.slots f.sure.0 f.block.0) };

    fn fmt<W: fmt::Write>(&self, f: &mut fmt::Formatter<W>) -> fmt::Result {
        let SlotFigures {
            class,
            slots,
            sure,
            block,
        } = *self;
        write!(
            f,
            "class={class}\nslots={slots}\nsure={sure}\nblock={block}\n"
        )
    }
}

// The delay and the held bytes of a class, or why it has none.
#[derive(Clone, Copy)]
pub struct BoundFigures {
    bound: Result<(Ticks, Bytes), Refusal>,
}

impl BoundFigures {
    pub fn of(plan: &Plan, class: u8) -> BoundFigures
        ensures { Bounded (contents plan.now) class result.bound }
    {
        BoundFigures {
            bound: bound(plan, class),
        }
    }
}

// Two lines or one, of which the last is not ended.
impl fmt::Display for BoundFigures {
    ghost output = { λ f. Some (bound_lines f.bound) };

    fn fmt<W: fmt::Write>(&self, f: &mut fmt::Formatter<W>) -> fmt::Result {
        match self.bound {
            Ok((delay, held)) => write!(f, "delay={delay}\nheld={held}"),
            Err(refusal) => {
                let number = refusal.number();
                write!(f, "none={number}")
            }
        }
    }
}
