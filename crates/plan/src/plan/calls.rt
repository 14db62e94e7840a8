// Making a plan, reading one, and what it tells.
ghost use Rattle.std.specs.Prelude.{◌≡◌, IfOk, Ok, MatchResult, OnOk};
ghost use Rattle.units.specs.Classes.{ByClass};
ghost use Rattle.faults.specs.declared.fault.PlanFault.TheVariants.{Memory};
ghost use Rattle.reader.specs.Parsed.{contents_of};
ghost use Rattle.reader.specs.Reading.{read_plan, FaultOf};
ghost use Rattle.reader.specs.Contents.{Contents};
ghost use Rattle.reader.specs.Views.{sizes_of};
ghost use Rattle.writing.specs.Inverse.{TextOf};
ghost use Rattle.plan.specs.Arranged.{flows_of, bucket_kind, periodic_kind, class_of, shut_contents, arranged};
ghost use Rattle.plan.specs.ByClass.{bucket_entries, periodic_entries, Held};
ghost use Rattle.plan.specs.PlanContents.{contents};

use crate::class_plan::{ClassPlan, arrange};
use crate::plan::Plan;
use envelope::{Bucket, Periodic};
use faults::PlanFault;
use gates::{GateList, TrafficClass};
use reader::{Parsed, parse};
use std::alloc::{AllocError, Global};
use units::{Class, Refusal};

impl Plan {
    // The shut plan: port 1, a cycle of one tick with every class shut, no class that sends, and no flow. Fails only for want of memory.
    pub fn new(heap: Global) -> Result<Plan, AllocError>
        ensures { IfOk result (λ p. contents p ≡ shut_contents) }
    {
        let gates = GateList::shut(heap)?;
        let classes = arrange(heap, &[TrafficClass::silent(); 8], &[])?;
        Ok(Plan {
            heap,
            port: 1,
            gates,
            classes,
        })
    }

    // The plan becomes the one that the text says. On a fault, or for want of memory, it stays as it was.
    pub fn read(&mut self, text: &[u8]) -> Result<(), PlanFault>
        ensures outcome { MatchResult result (λ _. Ok (contents self.new) ≡ read_plan text.now) (λ e. (self.new ≡ self.old) × FaultOf text.now e) }
        ensures written { OnOk result (TextOf (contents self.new) text.now) }
        ensures accepted { (s : Contents) → TextOf s text.now → MatchResult result (λ _. contents self.new ≡ s) (λ e. e ≡ Memory) }
    {
        let heap = self.heap;
        let parsed = parse(heap, text)?;
        *self = Plan::of(heap, parsed)?;
        Ok(())
    }

    // The plan that a text says, put by class and kind of flow.
    fn of(heap: Global, parsed: Parsed) -> Result<Plan, AllocError>
        ensures { IfOk result (λ p. contents p ≡ arranged (contents_of parsed)) }
    {
        let classes = arrange(heap, &parsed.classes, parsed.flows.as_slice())?;
        Ok(Plan {
            heap,
            port: parsed.port,
            gates: parsed.gates,
            classes,
        })
    }

    // The number of the port.
    pub fn port(&self) -> u16
        ensures { result ≡ (contents self.now).port }
    {
        self.port
    }

    // The gate list.
    pub fn gates(&self) -> &GateList
        ensures { result.now ≡ self.now.gates }
    {
        &self.gates
    }

    // The sizes of a class. Refused where there is no such class.
    pub fn class(&self, class: u8) -> Result<TrafficClass, Refusal>
        ensures { ByClass class result (λ t. sizes_of t ≡ class_of (contents self.now) class) }
    {
        Ok(self.of_class(class)?.sizes)
    }

    // The buckets of a class, in the order of the plan text. Refused where there is no such class.
    pub fn buckets(&self, class: u8) -> Result<&[Bucket], Refusal>
        ensures { ByClass class result (λ s. bucket_entries class s.now ≡ flows_of class bucket_kind (contents self.now).flows) }
    {
        Ok(self.of_class(class)?.buckets.as_slice())
    }

    // The periodic flows of a class, in the order of the plan text. Refused where there is no such class.
    pub fn periodics(&self, class: u8) -> Result<&[Periodic], Refusal>
        ensures { ByClass class result (λ s. periodic_entries class s.now ≡ flows_of class periodic_kind (contents self.now).flows) }
    {
        Ok(self.of_class(class)?.periodics.as_slice())
    }

    // What the plan says of a class. Refused where there is no such class.
    fn of_class(&self, class: u8) -> Result<&ClassPlan, Refusal>
        ensures { ByClass class result (λ k. (sizes_of k.now.sizes ≡ class_of (contents self.now) class)
            × Held class k.now.buckets.items k.now.periodics.items (contents self.now).flows) }
    {
        let class = Class::try_from(class)?;
        Ok(&self.classes[7 - usize::from(class)])
    }
}
