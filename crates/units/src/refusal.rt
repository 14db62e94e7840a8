// Why a call is refused. Each cause has a number that programs and people can look up.
ghost use Rattle.std.specs.Prelude.{◌≡◌};
ghost use Rattle.units.specs.Refusals.{refusal_number};

#[derive(Clone, Copy, PartialEq, Eq, Debug)]
pub enum Refusal {
    // The plan text is empty or longer than 8,192 bytes.
    TextSize = 1,
    // The line that is due is missing, has no equals sign or is not ended by byte 10.
    LineMissing = 2,
    // The line's key is not the one that is due.
    WrongKey = 3,
    // The line has a wrong count of fields, or a field a wrong form.
    FieldForm = 4,
    // A number is out of its range.
    FieldRange = 5,
    // The lengths of the gate lines do not add up to the cycle.
    CycleSum = 6,
    // A class or flow line is out of order, or a flow's class sends nothing.
    LineOrder = 7,
    // There is more text after the last line.
    MoreText = 8,
    // There is no such class: the number is above 7.
    NoClass = 11,
    // The slot list has fewer than 64 numbers.
    SlotSpace = 12,
    // The span of a curve is above 4,000,000 ticks.
    CurveSpan = 13,
    // The starting tick is not below the cycle.
    StartTick = 21,
    // The port has run all its ticks.
    PortLife = 22,
    // The offered frame is under 64 bytes or over the largest frame of its class.
    FrameSize = 23,
    // The unsent bytes and the frame together pass the depth of the class.
    QueueFull = 24,
    // The space for the report is under 1,024 bytes.
    ReportSpace = 31,
    // The class has no flow line.
    NoFlow = 41,
    // The class has no sure tick.
    NoSureTick = 42,
    // The class has no closing span.
    NoClosingSpan = 43,
    // The span is above the reach of the envelope.
    BeyondReach = 51,
    // A flow is made with numbers out of their ranges.
    FlowRange = 52,
    // There is not enough memory. Its number lies outside those that a plan or a call can cause.
    Memory = 99,
}

impl Refusal {
    // The number of the refusal, as docs/refusals.md lists it.
    pub fn number(self) -> u8
        ensures { result ≡ refusal_number self }
    {
        self as u8
    }
}
