// The faults of the three layers. A number in a fault is the line that it was found on, counted from 1.
ghost use Rattle.std.specs.Prelude.{◌≡◌, Some};
ghost use Rattle.faults.specs.declared.fault.LineFault.TheVariants.{Field};
ghost use Rattle.faults.specs.declared.fault.PlanFault.TheVariants.{Line, Memory};
ghost use Rattle.faults.specs.Faults.{fault_refusal, fault_line, fault_layer, fault_report};

use crate::layer::Layer;
use std::alloc::AllocError;
use std::fmt;
use units::Refusal;

// A field is wrong.
#[derive(Clone, Copy, PartialEq, Eq, Debug)]
pub enum FieldFault {
    // The line has another count of fields than it should, or the field is no number or letter of the form that is due.
    Form(u32),
    // The number is out of its range.
    Range(u32),
}

// A line is wrong.
#[derive(Clone, Copy, PartialEq, Eq, Debug)]
pub enum LineFault {
    // The line is missing, has no equals sign, or is not ended by byte 10.
    Missing(u32),
    // The key is not the one that is due.
    Key(u32),
    Field(FieldFault),
}

// The plan is wrong.
#[derive(Clone, Copy, PartialEq, Eq, Debug)]
pub enum PlanFault {
    // The text is empty or too long.
    Size,
    // The lengths do not add up to the cycle, told at the last gate line.
    Sum(u32),
    // A class or flow line is out of order, or the flow's class sends nothing.
    Order(u32),
    // There is text after the last line.
    More(u32),
    Line(LineFault),
    // There is no memory to hold the plan; the text may be right or wrong.
    Memory,
}

// By a rule of the project a fault goes up by `From`, and is held whole. By hand, since the contracts name what each impl gives.
impl From<FieldFault> for LineFault {
    ghost from_gives = { λ e r. r ≡ Field e };

    fn from(fault: FieldFault) -> LineFault {
        LineFault::Field(fault)
    }
}

impl From<LineFault> for PlanFault {
    ghost from_gives = { λ e r. r ≡ Line e };

    fn from(fault: LineFault) -> PlanFault {
        PlanFault::Line(fault)
    }
}

// A field's fault goes up by way of the line.
impl From<FieldFault> for PlanFault {
    ghost from_gives = { λ e r. r ≡ Line (Field e) };

    fn from(fault: FieldFault) -> PlanFault {
        PlanFault::Line(LineFault::Field(fault))
    }
}

impl From<AllocError> for PlanFault {
    ghost from_gives = { λ _ r. r ≡ Memory };

    fn from(_error: AllocError) -> PlanFault {
        PlanFault::Memory
    }
}

// The refusal that a caller is told, with its number.
impl From<PlanFault> for Refusal {
    ghost from_gives = { λ e r. r ≡ fault_refusal e };

    fn from(fault: PlanFault) -> Refusal {
        match fault {
            PlanFault::Size => Refusal::TextSize,
            PlanFault::Line(LineFault::Missing(_)) => Refusal::LineMissing,
            PlanFault::Line(LineFault::Key(_)) => Refusal::WrongKey,
            PlanFault::Line(LineFault::Field(FieldFault::Form(_))) => Refusal::FieldForm,
            PlanFault::Line(LineFault::Field(FieldFault::Range(_))) => Refusal::FieldRange,
            PlanFault::Sum(_) => Refusal::CycleSum,
            PlanFault::Order(_) => Refusal::LineOrder,
            PlanFault::More(_) => Refusal::MoreText,
            PlanFault::Memory => Refusal::Memory,
        }
    }
}

impl PlanFault {
    // The line of the fault, counted from 1, or 0 for the whole text.
    pub fn line(self) -> u32
        ensures { result ≡ fault_line self }
    {
        match self {
            PlanFault::Size | PlanFault::Memory => 0,
            PlanFault::Sum(line) | PlanFault::Order(line) | PlanFault::More(line) => line,
            PlanFault::Line(LineFault::Missing(line) | LineFault::Key(line)) => line,
            PlanFault::Line(LineFault::Field(FieldFault::Form(line) | FieldFault::Range(line))) =>
                line,
        }
    }

    // The layer at which the fault was found.
    pub fn layer(self) -> Layer
        ensures { result ≡ fault_layer self }
    {
        match self {
            PlanFault::Line(LineFault::Field(_)) => Layer::Field,
            PlanFault::Line(_) => Layer::Line,
            _ => Layer::Plan,
        }
    }
}

// Three lines: the number of the refusal, the line and the layer. The last is not ended.
impl fmt::Display for PlanFault {
    ghost output = { λ f. Some (fault_report f) };

    fn fmt<W: fmt::Write>(&self, f: &mut fmt::Formatter<W>) -> fmt::Result {
        let number = Refusal::from(*self).number();
        let line = self.line();
        let layer = self.layer();
        write!(f, "refused={number}\nline={line}\nlayer={layer}")
    }
}
