// Delay and held bytes on examples, through the public calls.
#![tactic(auto)]

#[cfg(test)]
mod tests {
    use class_bound::{bound, bound_under};
    use envelope::Bucket;
    use flat_envelope::Flat;
    use plan::Plan;
    use plan_input::read_plan;
    use plan_tests::WORKED;
    use std::alloc::Global;
    use std::test::Fail;
    use units::limits::MAX_LOAD;
    use units::{Bytes, Refusal, Ticks};

    // The worked plan up to its flows.
    const WORKED_GATES: &[u8] =
        b"port=3\ncycle=2000\ngates=4\ngate=500,OCCCCCCC\ngate=300,OCOCCCCO\ngate=700,CCOCCCCO\ngate=500,CCCCCCCO\nclass=7,200,400\nclass=6,0,0\nclass=5,300,600\nclass=4,0,0\nclass=3,0,0\nclass=2,0,0\nclass=1,0,0\nclass=0,150,16384\n";

    // Class 7 is always open, alone on the wire, up to its flows.
    const ALONE: &[u8] =
        b"port=1\ncycle=1\ngates=1\ngate=1,OCCCCCCC\nclass=7,64,64\nclass=6,0,0\nclass=5,0,0\nclass=4,0,0\nclass=3,0,0\nclass=2,0,0\nclass=1,0,0\nclass=0,0,0\n";

    // The plan that begins with the gates and classes and ends with the flows.
    fn plan_with(heap: Global, gates: &[u8], flows: &[u8]) -> Result<Plan, Fail> {
        let mut text = Vec::new(heap);
        text.extend_from_slice(gates)?;
        text.extend_from_slice(flows)?;
        Ok(read_plan(heap, text.as_slice())?)
    }

    // The bound of a call is this delay and these held bytes.
    fn of(delay: u64, held: u64) -> Result<(Ticks, Bytes), Refusal> {
        Ok((Ticks(delay), Bytes(held)))
    }

    #[test]
    fn worked_plan(rt: HostRuntime) -> Result<(), Fail> {
        let plan = read_plan(rt.alloc(), WORKED)?;
        assert_eq!(rt; bound(&plan, 7), of(1898, 200));
        assert_eq!(rt; bound(&plan, 5), of(5190, 571));
        assert_eq!(rt; bound(&plan, 8), Err(Refusal::NoClass));
        assert_eq!(rt; bound(&plan, 6), Err(Refusal::NoFlow));
        assert_eq!(rt; bound(&plan, 0), Err(Refusal::NoFlow));
        Ok(())
    }

    #[test]
    fn as_fast_as_the_supply_never_closes(rt: HostRuntime) -> Result<(), Fail> {
        let full = plan_with(rt.alloc(), WORKED_GATES, b"flows=1\nflow=7,b,64,601,2000\n")?;
        assert_eq!(rt; bound(&full, 7), Err(Refusal::NoClosingSpan));
        let less = plan_with(rt.alloc(), WORKED_GATES, b"flows=1\nflow=7,b,64,600,2000\n")?;
        assert!(rt; bound(&less, 7).is_ok());
        Ok(())
    }

    #[test]
    fn closing_span_at_the_end_of_the_spans(rt: HostRuntime) -> Result<(), Fail> {
        let last = plan_with(rt.alloc(), ALONE, b"flows=1\nflow=7,b,70,57970,57971\n")?;
        assert_eq!(rt; bound(&last, 7), of(70, 70));
        let past = plan_with(rt.alloc(), ALONE, b"flows=1\nflow=7,b,65,62499,62500\n")?;
        assert_eq!(rt; bound(&past, 7), Err(Refusal::NoClosingSpan));
        Ok(())
    }

    #[test]
    fn refusals_under_an_envelope(rt: HostRuntime) -> Result<(), Fail> {
        let plan = read_plan(rt.alloc(), WORKED)?;
        let flat = Flat { bytes: Bytes(64) };
        assert_eq!(rt; bound_under(&plan, 8, &flat), Err(Refusal::NoClass));
        assert_eq!(rt; bound_under(&plan, 6, &flat), Err(Refusal::NoSureTick));
        assert_eq!(rt; bound_under(&plan, 7, &flat), of(1762, 64));
        let more = Flat {
            bytes: Bytes(MAX_LOAD + 1),
        };
        assert_eq!(rt; bound_under(&plan, 7, &more), Err(Refusal::NoClosingSpan));
        let bucket = Bucket::new(Bytes(300), Bytes(1), Ticks(10))?;
        assert_eq!(rt; bound_under(&plan, 5, &bucket), of(5190, 571));
        Ok(())
    }
}
