// The curve of a class and its inverse on examples, through the public calls.
#![tactic(auto)]

#[cfg(test)]
mod tests {
    use plan::Plan;
    use plan_input::read_plan;
    use service::{ClassService, curve};
    use slots_tests::{ALWAYS_CLEAR, OVER_THE_END, UNDER_OTHERS, WORKED, WRAPPING};
    use std::process::Abort;
    use std::test::Fail;
    use supply::Supply;
    use units::{Bytes, Refusal, Ticks};

    // The curve has these bytes at these spans, and the service of the class says so too.
    fn check_curve(
        rt: &impl Abort,
        plan: &Plan,
        class: u8,
        due: &[(u64, u64)],
    ) -> Result<(), Fail> {
        let service = ClassService::of(plan, class)?;
        for case in due {
            assert_eq!(rt; curve(plan, class, Ticks(case.0))?, Bytes(case.1));
            assert_eq!(rt; service.at(Ticks(case.0))?, Bytes(case.1));
        }
        Ok(())
    }

    // So many bytes are first there at these spans. Like `check_curve`: one function would take what is asked as a closure, and be no
    // plainer.
    fn check_spans(
        rt: &impl Abort,
        plan: &Plan,
        class: u8,
        due: &[(u64, u64)],
    ) -> Result<(), Fail> {
        let service = ClassService::of(plan, class)?;
        for case in due {
            let span = service.least_span(Bytes(case.0)).ok_or("no span")?;
            assert_eq!(rt; span, Ticks(case.1));
        }
        Ok(())
    }

    // No span has so many bytes.
    fn check_no_span(rt: &impl Abort, plan: &Plan, class: u8, bytes: u64) -> Result<(), Fail> {
        let service = ClassService::of(plan, class)?;
        assert!(rt; service.least_span(Bytes(bytes)).is_none());
        Ok(())
    }

    #[test]
    fn worked_plan(rt: HostRuntime) -> Result<(), Fail> {
        let plan = read_plan(rt.alloc(), WORKED)?;
        check_curve(
            &rt,
            &plan,
            7,
            &[
                (0, 0),
                (1, 0),
                (1698, 0),
                (1699, 1),
                (2000, 302),
                (2001, 302),
                (3999, 902),
                (4_000_000, 1_201_701),
            ],
        )?;
        check_curve(
            &rt,
            &plan,
            5,
            &[(2000, 103), (4000, 355), (4_000_000, 503_851)],
        )?;
        check_curve(&rt, &plan, 0, &[(1649, 0), (1650, 1), (2000, 351)])
    }

    #[test]
    fn least_spans_of_the_worked_plan(rt: HostRuntime) -> Result<(), Fail> {
        let plan = read_plan(rt.alloc(), WORKED)?;
        check_spans(
            &rt,
            &plan,
            7,
            &[(0, 0), (1, 1699), (2, 1700), (302, 2000), (303, 3400)],
        )?;
        check_spans(
            &rt,
            &plan,
            5,
            &[(1, 1898), (103, 2000), (104, 3749), (500, 5893)],
        )?;
        check_spans(&rt, &plan, 7, &[(1_201_701, 4_000_000)])?;
        check_no_span(&rt, &plan, 7, 1_201_702)
    }

    #[test]
    fn class_without_a_slot(rt: HostRuntime) -> Result<(), Fail> {
        let plan = read_plan(rt.alloc(), WORKED)?;
        check_curve(&rt, &plan, 6, &[(0, 0), (2000, 0), (4_000_000, 0)])?;
        check_spans(&rt, &plan, 6, &[(0, 0)])?;
        check_no_span(&rt, &plan, 6, 1)
    }

    #[test]
    fn class_that_is_always_clear(rt: HostRuntime) -> Result<(), Fail> {
        let plan = read_plan(rt.alloc(), ALWAYS_CLEAR)?;
        check_curve(
            &rt,
            &plan,
            5,
            &[(99, 0), (100, 1), (1500, 1401), (4_000_000, 3_999_901)],
        )?;
        check_spans(
            &rt,
            &plan,
            5,
            &[(1, 100), (1401, 1500), (3_999_901, 4_000_000)],
        )?;
        check_no_span(&rt, &plan, 5, 3_999_902)
    }

    #[test]
    fn slots_over_the_end_of_the_cycle(rt: HostRuntime) -> Result<(), Fail> {
        let plan = read_plan(rt.alloc(), OVER_THE_END)?;
        check_curve(
            &rt,
            &plan,
            7,
            &[(599, 0), (600, 1), (1000, 401), (1001, 401)],
        )?;
        let late = read_plan(rt.alloc(), WRAPPING)?;
        check_curve(&rt, &late, 7, &[(389, 0), (390, 1), (450, 61), (900, 185)])?;
        check_spans(&rt, &late, 7, &[(1, 390), (61, 450), (62, 777)])
    }

    #[test]
    fn two_slots(rt: HostRuntime) -> Result<(), Fail> {
        let plan = read_plan(rt.alloc(), UNDER_OTHERS)?;
        check_curve(
            &rt,
            &plan,
            5,
            &[(1000, 0), (1001, 1), (1500, 500), (1800, 500), (2500, 1200)],
        )?;
        check_spans(
            &rt,
            &plan,
            5,
            &[
                (1, 1001),
                (500, 1500),
                (501, 1801),
                (701, 2001),
                (1201, 3501),
            ],
        )
    }

    #[test]
    fn no_class_comes_before_a_long_span(rt: HostRuntime) -> Result<(), Fail> {
        let plan = read_plan(rt.alloc(), WORKED)?;
        let past = Ticks(4_000_001);
        assert_eq!(rt; curve(&plan, 8, past), Err(Refusal::NoClass));
        assert_eq!(rt; curve(&plan, 7, past), Err(Refusal::CurveSpan));
        assert_eq!(rt;
            ClassService::of(&plan, 7)?.at(past),
            Err(Refusal::CurveSpan)
        );
        Ok(())
    }
}
