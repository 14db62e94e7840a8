// What a plan says of one class.
ghost use Rattle.std.specs.Prelude.{◌≡◌, ◌-◌, map, IfOk, vec_len};
ghost use Rattle.reader.specs.Views.{entry_of};
ghost use Rattle.plan.specs.Arranged.{groups};
ghost use Rattle.plan.specs.ByClass.{entries_down, sizes_up, Held};

use envelope::{Bucket, Periodic};
use gates::TrafficClass;
use reader::{Flow, FlowLine};
use std::alloc::{AllocError, Global};

// Its sizes, and its flows by kind, each in the order of the plan text.
#[derive(Drop)]
pub struct ClassPlan {
    pub sizes: TrafficClass,
    pub buckets: Vec<Bucket>,
    pub periodics: Vec<Periodic>,
}

// What a plan with these sizes, where those of the class c are `sizes[c]`, and these flows says of all classes, class 7 first.
pub(crate) fn arrange(
    heap: Global,
    sizes: &[TrafficClass; 8],
    flows: &[FlowLine],
) -> Result<Vec<ClassPlan>, AllocError>
    ensures sizes { IfOk result (λ v. sizes_up v.items ≡ sizes.now) }
    ensures flows { IfOk result (λ v. (vec_len v ≡ 8) × (entries_down 7 v.items ≡ groups 8 (map entry_of flows.now))) }
{
    let mut classes = Vec::new(heap);
    for class in (0..8u8).rev() {
        let one = class_plan(heap, sizes[usize::from(class)], flows, class)?;
        classes.push(one)?;
    }
    Ok(classes)
}

// What such a plan says of one class. A `for`, since one pass over the lines fills both lists, and want of memory ends it.
fn class_plan(
    heap: Global,
    sizes: TrafficClass,
    flows: &[FlowLine],
    class: u8,
) -> Result<ClassPlan, AllocError>
    ensures sizes { IfOk result (λ k. k.sizes ≡ sizes) }
    ensures flows { IfOk result (λ k. Held class k.buckets.items k.periodics.items (map entry_of flows.now)) }
{
    let mut buckets = Vec::new(heap);
    let mut periodics = Vec::new(heap);
    for line in flows {
        if line.class == class {
            match line.flow {
                Flow::Bucket(bucket) => buckets.push(bucket)?,
                Flow::Periodic(periodic) => periodics.push(periodic)?,
            }
        }
    }
    Ok(ClassPlan {
        sizes,
        buckets,
        periodics,
    })
}
