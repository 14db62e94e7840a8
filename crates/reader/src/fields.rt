// The fields of a line, each with its form and then its range.
ghost use Rattle.std.specs.Prelude.{◌≡◌, ◌≤◌, IfOk};
ghost use Rattle.units.specs.Limits.{least_frame, most_frame};
ghost use Rattle.text.specs.Marks.{comma};
ghost use Rattle.text.specs.Cuts.{before};
ghost use Rattle.reader.specs.Chain.{map_ok};
ghost use Rattle.reader.specs.Fields.{numeral_field, number_field, largest_field, gates_in, kind_in, gate_in, sizes_in, bucket_in, periodic_in, flow_in};
ghost use Rattle.reader.specs.Moves.{PastField};
ghost use Rattle.reader.specs.Views.{sizes_of, flow_of, LengthFits};

use crate::parsed::{Flow, Kind};
use crate::reader::Fields;
use envelope::{Bucket, Periodic};
use faults::FieldFault;
use gates::{Gate, GateLine, TrafficClass};
use text::{cut, numeral};
use units::limits::{
    MAX_BURST, MAX_CYCLE, MAX_FRAME, MAX_PERIOD, MAX_RATE_TICKS, MIN_BURST, MIN_FRAME,
};
use units::{Bytes, Ticks};

impl<'a> Fields<'a> {
    // The next field, or nothing where none is left.
    fn piece(&mut self) -> &'a [u8]
        ensures value { result.now ≡ before comma self.old.rest.now }
        ensures past { PastField self.old self.new }
    {
        let (piece, rest) = cut(self.rest, b',');
        self.rest = rest;
        piece
    }

    // The number in the next field.
    pub(crate) fn numeral(&mut self) -> Result<u64, FieldFault>
        ensures value { result ≡ numeral_field self.old.line (before comma self.old.rest.now) }
        ensures past { PastField self.old self.new }
    {
        let field = self.piece();
        numeral(field).ok_or(FieldFault::Form(self.line))
    }

    // The number in the next field, from `least` to `most`: two numbers, since a range also says whether it is used up, which each clause
    // would have to rule out.
    #[tactic(auto, unfolding(crate::specs::Fields::number_field))]
    pub(crate) fn number(&mut self, least: u64, most: u64) -> Result<u64, FieldFault>
        ensures value { result ≡ number_field self.old.line least most (before comma self.old.rest.now) }
        ensures bound { IfOk result (λ n. (least ≤ n) × (n ≤ most)) }
        ensures past { PastField self.old self.new }
    {
        let n = self.numeral()?;
        if n < least || n > most {
            return Err(FieldFault::Range(self.line));
        }
        Ok(n)
    }

    // The class in the next field. A plain number: to make a `Class` of what the field's range check has just made 0 to 7
    // would take a branch that never runs, and be no plainer.
    pub(crate) fn class(&mut self) -> Result<u8, FieldFault>
        ensures value { result ≡ number_field self.old.line 0 7 (before comma self.old.rest.now) }
        ensures bound { IfOk result (λ c. c ≤ 7) }
        ensures past { PastField self.old self.new }
    {
        Ok(self.number(0, 7)? as u8)
    }

    // The kind of flow that the letter in the next field picks. A case for each letter, here and in `read_gates`, is a rule of the project.
    pub(crate) fn kind(&mut self) -> Result<Kind, FieldFault>
        ensures value { result ≡ kind_in self.old.line (before comma self.old.rest.now) }
        ensures past { PastField self.old self.new }
    {
        let [letter] = self.piece() else {
            return Err(FieldFault::Form(self.line));
        };
        match char::from(*letter) {
            'b' => Ok(Kind::Bucket),
            'p' => Ok(Kind::Periodic),
            _ => Err(FieldFault::Form(self.line)),
        }
    }

    // A gate line: its length and its gates.
    #[tactic(auto, unfolding(crate::specs::Fields::gate_in))]
    pub(crate) fn gate(&mut self) -> Result<GateLine, FieldFault>
        ensures value { result ≡ gate_in self.old.line self.old.rest.now }
        ensures bound { IfOk result LengthFits }
    {
        let length = Ticks(self.number(1, MAX_CYCLE)?);
        let gates = read_gates(self.piece(), self.line)?;
        Ok(GateLine { length, gates })
    }

    // The largest frame of a class, 0 or 64 to 1,522 bytes.
    #[tactic(auto, unfolding(crate::specs::Fields::largest_field))]
    fn largest(&mut self) -> Result<u64, FieldFault>
        ensures value { result ≡ largest_field self.old.line (before comma self.old.rest.now) }
        ensures bound { IfOk result (λ n. (n ≤ most_frame) × (1 ≤ n → least_frame ≤ n)) }
        ensures past { PastField self.old self.new }
    {
        let n = self.number(0, MAX_FRAME)?;
        if n > 0 && n < MIN_FRAME {
            return Err(FieldFault::Range(self.line));
        }
        Ok(n)
    }

    // The sizes of a class: its largest frame and its depth.
    #[tactic(auto, unfolding(crate::specs::Fields::sizes_in, crate::specs::Fields::number_field))]
    pub(crate) fn sizes(&mut self) -> Result<TrafficClass, FieldFault>
        ensures { map_ok sizes_of result ≡ sizes_in self.old.line self.old.rest.now }
    {
        let largest = self.largest()?;
        let depth = self.numeral()?;
        TrafficClass::new(Bytes(largest), Bytes(depth)).ok_or(FieldFault::Range(self.line))
    }

    // The numbers of a flow of this kind, in a class with these sizes.
    pub(crate) fn flow(&mut self, kind: Kind, traffic: TrafficClass) -> Result<Flow, FieldFault>
        ensures { map_ok flow_of result ≡ flow_in self.old.line kind traffic.largest.0 self.old.rest.now }
    {
        match kind {
            Kind::Bucket => self.bucket(),
            Kind::Periodic => self.periodic(traffic),
        }
    }

    // The numbers of a bucket. Its rate is at most a byte a tick, which is seen once all three are read.
    #[tactic(auto, unfolding(crate::specs::Fields::bucket_in, crate::specs::Fields::number_field))]
    fn bucket(&mut self) -> Result<Flow, FieldFault>
        ensures { map_ok flow_of result ≡ bucket_in self.old.line self.old.rest.now }
    {
        let burst = self.number(MIN_BURST, MAX_BURST)?;
        let num = self.numeral()?;
        let den = self.number(1, MAX_RATE_TICKS)?;
        let line = self.line;
        Bucket::new(Bytes(burst), Bytes(num), Ticks(den))
            .map(Flow::Bucket)
            .map_err(|_| FieldFault::Range(line))
    }

    // The numbers of a periodic flow, whose frames are no longer than the largest of its class.
    #[tactic(auto, unfolding(crate::specs::Fields::periodic_in, crate::specs::Fields::number_field))]
    fn periodic(&mut self, traffic: TrafficClass) -> Result<Flow, FieldFault>
        ensures { map_ok flow_of result ≡ periodic_in self.old.line traffic.largest.0 self.old.rest.now }
    {
        let bytes = self.number(MIN_FRAME, traffic.largest().0)?;
        let period = self.number(1, MAX_PERIOD)?;
        let jitter = self.numeral()?;
        let line = self.line;
        Periodic::new(Bytes(bytes), Ticks(period), Ticks(jitter))
            .map(Flow::Periodic)
            .map_err(|_| FieldFault::Range(line))
    }
}

// The gates that eight letters write, class 7 first.
#[tactic(auto, unfolding(crate::specs::Fields::gates_in))]
fn read_gates(text: &[u8], line: u32) -> Result<[Gate; 8], FieldFault>
    ensures { result ≡ gates_in line text.now }
{
    if text.len() != 8 {
        return Err(FieldFault::Form(line));
    }
    let mut gates = [Gate::Shut; 8];
    for (i, letter) in text.iter().enumerate() {
        match char::from(*letter) {
            'O' => gates[7 - i] = Gate::Open,
            'C' => gates[7 - i] = Gate::Shut,
            _ => return Err(FieldFault::Form(line)),
        }
    }
    Ok(gates)
}
