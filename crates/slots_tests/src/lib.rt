// Slots, sure ticks and block of classes on examples, through the public calls.
#![tactic(auto)]

// The gates and classes of the plan that the documents use as their example.
pub const WORKED: &[u8] =
    b"port=3\ncycle=2000\ngates=4\ngate=500,OCCCCCCC\ngate=300,OCOCCCCO\ngate=700,CCOCCCCO\ngate=500,CCCCCCCO\nclass=7,200,400\nclass=6,0,0\nclass=5,300,600\nclass=4,0,0\nclass=3,0,0\nclass=2,0,0\nclass=1,0,0\nclass=0,150,16384\nflows=0\n";

// Class 7 alone, open for 100 ticks of 150, with a largest frame of 100 bytes.
pub const WINDOW_OF_100: &[u8] =
    b"port=1\ncycle=150\ngates=2\ngate=100,OCCCCCCC\ngate=50,CCCCCCCC\nclass=7,100,100\nclass=6,0,0\nclass=5,0,0\nclass=4,0,0\nclass=3,0,0\nclass=2,0,0\nclass=1,0,0\nclass=0,0,0\nflows=0\n";

// The same with a largest frame of 101.
pub const FRAME_OF_101: &[u8] =
    b"port=1\ncycle=150\ngates=2\ngate=100,OCCCCCCC\ngate=50,CCCCCCCC\nclass=7,101,101\nclass=6,0,0\nclass=5,0,0\nclass=4,0,0\nclass=3,0,0\nclass=2,0,0\nclass=1,0,0\nclass=0,0,0\nflows=0\n";

// Class 7 is open from 400 past the cycle's end at 450 to 200, and class 0 always.
pub const WRAPPING: &[u8] =
    b"port=1\ncycle=450\ngates=3\ngate=200,OCCCCCCO\ngate=200,CCCCCCCO\ngate=50,OCCCCCCO\nclass=7,64,64\nclass=6,0,0\nclass=5,0,0\nclass=4,0,0\nclass=3,0,0\nclass=2,0,0\nclass=1,0,0\nclass=0,64,64\nflows=0\n";

// Class 5 never shuts and no higher class opens; class 2 opens for a while.
pub const ALWAYS_CLEAR: &[u8] =
    b"port=1\ncycle=1500\ngates=2\ngate=1000,CCOCCCCC\ngate=500,CCOCCOCC\nclass=7,0,0\nclass=6,0,0\nclass=5,300,300\nclass=4,0,0\nclass=3,0,0\nclass=2,100,100\nclass=1,0,0\nclass=0,0,0\nflows=0\n";

// A cycle of one tick, in which class 0 is open.
pub const ONE_TICK: &[u8] =
    b"port=1\ncycle=1\ngates=1\ngate=1,CCCCCCCO\nclass=7,0,0\nclass=6,0,0\nclass=5,0,0\nclass=4,0,0\nclass=3,0,0\nclass=2,0,0\nclass=1,0,0\nclass=0,64,64\nflows=0\n";

// Class 5 never shuts, but classes 6 and 7 open now and then.
pub const UNDER_OTHERS: &[u8] =
    b"port=1\ncycle=2500\ngates=4\ngate=1000,COOCCCCC\ngate=500,CCOCCCCC\ngate=300,OCOCCCCC\ngate=700,CCOCCCCC\nclass=7,64,64\nclass=6,64,64\nclass=5,300,300\nclass=4,0,0\nclass=3,0,0\nclass=2,0,0\nclass=1,0,0\nclass=0,0,0\nflows=0\n";

// Class 0 never shuts under class 7.
pub const LOWER_NEVER_SHUTS: &[u8] =
    b"port=1\ncycle=1500\ngates=2\ngate=1000,OCCCCCCO\ngate=500,CCCCCCCO\nclass=7,200,200\nclass=6,0,0\nclass=5,0,0\nclass=4,0,0\nclass=3,0,0\nclass=2,0,0\nclass=1,0,0\nclass=0,150,150\nflows=0\n";

// Class 7 is open in the last line and in the first, which adjoin.
pub const OVER_THE_END: &[u8] =
    b"port=1\ncycle=1000\ngates=3\ngate=300,OCCCCCCC\ngate=400,CCCCCCCC\ngate=300,OCCCCCCC\nclass=7,200,200\nclass=6,0,0\nclass=5,0,0\nclass=4,0,0\nclass=3,0,0\nclass=2,0,0\nclass=1,0,0\nclass=0,0,0\nflows=0\n";

#[cfg(test)]
mod tests {
    use super::*;
    use plan::Plan;
    use plan_input::read_plan;
    use slots::{MIN_LIST, block, slots, sure};
    use std::process::Abort;
    use std::test::Fail;
    use units::{Refusal, Ticks};

    // The plan has these slots, beginning and length by turns, and no others; the rest of the list is left alone.
    fn check_slots(rt: &impl Abort, plan: &Plan, class: u8, due: &[u32]) -> Result<(), Fail> {
        let mut list = [77u32; MIN_LIST];
        let count = slots(plan, class, &mut list)?;
        assert_eq!(rt; count, due.len() / 2);
        assert_eq!(rt; list.get(..due.len()), Some(due));
        assert!(rt; list.iter().skip(due.len()).all(|number| *number == 77));
        Ok(())
    }

    #[test]
    fn worked_plan(rt: HostRuntime) -> Result<(), Fail> {
        let plan = read_plan(rt.alloc(), WORKED)?;
        check_slots(&rt, &plan, 7, &[0, 601])?;
        check_slots(&rt, &plan, 6, &[])?;
        check_slots(&rt, &plan, 5, &[949, 252])?;
        check_slots(&rt, &plan, 0, &[1500, 351])?;
        assert_eq!(rt; sure(&plan, 5)?, Ticks(252));
        assert_eq!(rt; block(&plan, 7)?, Ticks(299));
        assert_eq!(rt; block(&plan, 5)?, Ticks(149));
        assert_eq!(rt; block(&plan, 0)?, Ticks(0));
        Ok(())
    }

    #[test]
    fn window_as_long_as_the_largest_frame(rt: HostRuntime) -> Result<(), Fail> {
        check_slots(&rt, &read_plan(rt.alloc(), WINDOW_OF_100)?, 7, &[0, 1])?;
        check_slots(&rt, &read_plan(rt.alloc(), FRAME_OF_101)?, 7, &[])
    }

    #[test]
    fn slot_of_a_run_over_the_end_begins_in_the_next_cycle(rt: HostRuntime) -> Result<(), Fail> {
        let plan = read_plan(rt.alloc(), WRAPPING)?;
        check_slots(&rt, &plan, 7, &[13, 124])?;
        check_slots(&rt, &plan, 0, &[200, 200])
    }

    #[test]
    fn class_that_is_always_clear(rt: HostRuntime) -> Result<(), Fail> {
        let plan = read_plan(rt.alloc(), ALWAYS_CLEAR)?;
        check_slots(&rt, &plan, 5, &[0, 1500])?;
        assert_eq!(rt; block(&plan, 5)?, Ticks(99));
        let tick = read_plan(rt.alloc(), ONE_TICK)?;
        check_slots(&rt, &tick, 0, &[0, 1])?;
        assert_eq!(rt; sure(&tick, 0)?, Ticks(1));
        Ok(())
    }

    #[test]
    fn class_that_never_shuts_under_others_that_open(rt: HostRuntime) -> Result<(), Fail> {
        let plan = read_plan(rt.alloc(), UNDER_OTHERS)?;
        check_slots(&rt, &plan, 5, &[1000, 500, 1800, 700])?;
        check_slots(&rt, &plan, 6, &[299, 638])?;
        assert_eq!(rt; sure(&plan, 5)?, Ticks(1200));
        Ok(())
    }

    #[test]
    fn lower_class_that_never_shuts(rt: HostRuntime) -> Result<(), Fail> {
        let plan = read_plan(rt.alloc(), LOWER_NEVER_SHUTS)?;
        check_slots(&rt, &plan, 7, &[149, 652])?;
        assert_eq!(rt; block(&plan, 7)?, Ticks(149));
        Ok(())
    }

    #[test]
    fn last_line_adjoins_the_first(rt: HostRuntime) -> Result<(), Fail> {
        check_slots(&rt, &read_plan(rt.alloc(), OVER_THE_END)?, 7, &[700, 401])
    }

    #[test]
    fn sixty_four_lines_give_thirty_two_slots(rt: HostRuntime) -> Result<(), Fail> {
        let mut text = Vec::new(rt.alloc());
        text.extend_from_slice(b"port=1\ncycle=9600\ngates=64\n")?;
        for _ in 0..32u32 {
            text.extend_from_slice(b"gate=200,OCCCCCCC\ngate=100,CCCCCCCO\n")?;
        }
        text.extend_from_slice(
            b"class=7,64,64\nclass=6,0,0\nclass=5,0,0\nclass=4,0,0\nclass=3,0,0\nclass=2,0,0\nclass=1,0,0\nclass=0,64,64\nflows=0\n",
        )?;
        let plan = read_plan(rt.alloc(), text.as_slice())?;
        let mut list = [0u32; MIN_LIST];
        assert_eq!(rt; slots(&plan, 7, &mut list)?, 32);
        assert_eq!(rt; list[62], 9300);
        assert_eq!(rt; list[63], 137);
        assert_eq!(rt; slots(&plan, 0, &mut list)?, 32);
        assert_eq!(rt; sure(&plan, 0)?, Ticks(1184));
        Ok(())
    }

    #[test]
    fn no_class_comes_before_a_short_list(rt: HostRuntime) -> Result<(), Fail> {
        let plan = read_plan(rt.alloc(), WORKED)?;
        let mut list = [77u32; 63];
        assert_eq!(rt; slots(&plan, 8, &mut list), Err(Refusal::NoClass));
        assert_eq!(rt; slots(&plan, 7, &mut list), Err(Refusal::SlotSpace));
        assert_eq!(rt; list[0], 77);
        assert_eq!(rt; list[1], 77);
        assert_eq!(rt; sure(&plan, 8), Err(Refusal::NoClass));
        assert_eq!(rt; block(&plan, 255), Err(Refusal::NoClass));
        Ok(())
    }
}
