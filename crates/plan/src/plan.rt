// A plan that a caller holds.
ghost use Rattle.std.specs.Prelude.{◌≡◌, vec_len};

use crate::class_plan::ClassPlan;
use gates::GateList;
use std::alloc::Global;

mod calls;

// What it says of the class c is `classes[7 - c]`.
#[derive(Drop)]
pub struct Plan {
    heap: Global,
    port: u16,
    gates: GateList,
    classes: Vec<ClassPlan>,
    ghost every: { vec_len classes ≡ 8 },
}
