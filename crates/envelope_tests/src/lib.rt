// Envelopes on examples, through the public calls.
#![tactic(auto)]

#[cfg(test)]
mod tests {
    use arrivals::class_envelope;
    use envelope::{AllOf, Bucket, Envelope, Periodic, Sum, total};
    use flat_envelope::Flat;
    use plan_input::read_plan;
    use plan_tests::WORKED;
    use std::process::Abort;
    use std::test::Fail;
    use units::limits::{FLOW_REACH, MAX_LOAD, MAX_SPAN};
    use units::{Bytes, Refusal, Ticks};

    // The envelope allows so many bytes at these spans.
    fn check_loads<E: Envelope>(
        rt: &impl Abort,
        envelope: &E,
        due: &[(u64, u64)],
    ) -> Result<(), Fail> {
        for case in due {
            assert_eq!(rt; envelope.at(Ticks(case.0))?, Some(Bytes(case.1)));
        }
        Ok(())
    }

    // The span is beyond the reach of the envelope.
    fn check_beyond<E: Envelope>(rt: &impl Abort, envelope: &E, span: u64) -> Result<(), Fail> {
        assert_eq!(rt; envelope.at(Ticks(span)), Err(Refusal::BeyondReach));
        Ok(())
    }

    fn bucket(burst: u64, num: u64, den: u64) -> Result<Bucket, Refusal> {
        Bucket::new(Bytes(burst), Bytes(num), Ticks(den))
    }

    fn periodic(bytes: u64, period: u64, jitter: u64) -> Result<Periodic, Refusal> {
        Periodic::new(Bytes(bytes), Ticks(period), Ticks(jitter))
    }

    #[test]
    fn bucket_earns_whole_bytes(rt: HostRuntime) -> Result<(), Fail> {
        let worked = bucket(300, 1, 10)?;
        check_loads(
            &rt,
            &worked,
            &[
                (0, 0),
                (1, 300),
                (9, 300),
                (10, 301),
                (FLOW_REACH, 4_000_300),
            ],
        )?;
        check_beyond(&rt, &worked, FLOW_REACH + 1)
    }

    #[test]
    fn periodic_flow_with_jitter(rt: HostRuntime) -> Result<(), Fail> {
        check_loads(
            &rt,
            &periodic(200, 2000, 1)?,
            &[(0, 0), (1, 200), (1999, 200), (2000, 400)],
        )?;
        check_loads(
            &rt,
            &periodic(200, 2000, 0)?,
            &[(1, 200), (2000, 200), (2001, 400)],
        )?;
        check_beyond(&rt, &periodic(64, 1, 0)?, FLOW_REACH + 1)
    }

    #[test]
    fn more_is_told_above_the_most_bytes_only(rt: HostRuntime) -> Result<(), Fail> {
        let most = Flat {
            bytes: Bytes(MAX_LOAD),
        };
        let one = Flat { bytes: Bytes(1) };
        let less = Flat {
            bytes: Bytes(MAX_LOAD - 1),
        };
        check_loads(&rt, &most, &[(1, MAX_LOAD)])?;
        check_loads(
            &rt,
            &Sum {
                first: less,
                second: one,
            },
            &[(0, 0), (1, MAX_LOAD)],
        )?;
        let both = Sum {
            first: most,
            second: one,
        };
        assert_eq!(rt; both.at(Ticks(1))?, None);
        let more = Sum {
            first: both,
            second: one,
        };
        assert_eq!(rt; more.at(Ticks(1))?, None);
        Ok(())
    }

    #[test]
    fn lesser_reach_of_two(rt: HostRuntime) -> Result<(), Fail> {
        let flat = Flat { bytes: Bytes(5) };
        let first = Sum {
            first: flat,
            second: bucket(64, 0, 1)?,
        };
        let second = Sum {
            first: bucket(64, 0, 1)?,
            second: flat,
        };
        check_loads(&rt, &first, &[(MAX_SPAN, 69)])?;
        assert_eq!(rt; first.longest(), Ticks(MAX_SPAN));
        assert_eq!(rt; second.longest(), Ticks(MAX_SPAN));
        check_beyond(&rt, &first, MAX_SPAN + 1)?;
        check_beyond(&rt, &second, MAX_SPAN + 1)
    }

    #[test]
    fn total_of_a_slice(rt: HostRuntime) -> Result<(), Fail> {
        let flows = [bucket(300, 1, 10)?, bucket(64, 1, 1)?];
        assert_eq!(rt; total(&flows, Ticks(10))?, Some(Bytes(375)));
        let none: [Bucket; 0] = [];
        assert_eq!(rt; total(&none, Ticks(FLOW_REACH))?, Some(Bytes(0)));
        check_beyond(&rt, &AllOf(&none), FLOW_REACH + 1)?;
        let all = Sum {
            first: AllOf(&flows),
            second: AllOf(&none),
        };
        check_loads(&rt, &all, &[(0, 0), (10, 375)])
    }

    #[test]
    fn many_large_flows_are_more(rt: HostRuntime) -> Result<(), Fail> {
        let flows = [periodic(1522, 1, 4_000_000)?; 64];
        assert_eq!(rt; total(&flows, Ticks(FLOW_REACH))?, None);
        assert_eq!(rt; total(&flows, Ticks(1))?, Some(Bytes(389_632_097_408)));
        Ok(())
    }

    #[test]
    fn flows_of_a_class_of_the_worked_plan(rt: HostRuntime) -> Result<(), Fail> {
        let plan = read_plan(rt.alloc(), WORKED)?;
        check_loads(
            &rt,
            &class_envelope(&plan, 7)?,
            &[(0, 0), (2000, 200), (2001, 400)],
        )?;
        check_loads(&rt, &class_envelope(&plan, 5)?, &[(9, 300), (10, 301)])?;
        check_loads(&rt, &class_envelope(&plan, 0)?, &[(1, 0), (FLOW_REACH, 0)])?;
        assert!(rt; class_envelope(&plan, 8).is_err());
        Ok(())
    }

    #[test]
    fn edges_of_the_ranges(rt: HostRuntime) {
        assert!(rt; bucket(64, 0, 1).is_ok() && bucket(1_000_000, 1_000_000, 1_000_000).is_ok());
        assert!(rt; bucket(63, 0, 1).is_err() && bucket(1_000_001, 0, 1).is_err());
        assert!(rt;
            bucket(64, 0, 0).is_err()
                && bucket(64, 0, 1_000_001).is_err()
                && bucket(64, 2, 1).is_err()
        );
        assert!(rt; periodic(64, 1, 0).is_ok() && periodic(1522, 4_000_000, 4_000_000).is_ok());
        assert!(rt; periodic(63, 1, 0).is_err() && periodic(1523, 1, 0).is_err());
        assert!(rt;
            periodic(64, 0, 0).is_err()
                && periodic(64, 4_000_001, 0).is_err()
                && periodic(64, 1, 4_000_001).is_err()
        );
    }
}
