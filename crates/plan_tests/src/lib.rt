// What the plan tells on examples, through its public calls.
#![tactic(auto)]

// The plan that the documents use as their example.
pub const WORKED: &[u8] =
    b"port=3\ncycle=2000\ngates=4\ngate=500,OCCCCCCC\ngate=300,OCOCCCCO\ngate=700,CCOCCCCO\ngate=500,CCCCCCCO\nclass=7,200,400\nclass=6,0,0\nclass=5,300,600\nclass=4,0,0\nclass=3,0,0\nclass=2,0,0\nclass=1,0,0\nclass=0,150,16384\nflows=2\nflow=7,p,200,2000,0\nflow=5,b,300,1,10\n";

#[cfg(test)]
mod tests {
    use super::*;
    use plan::Plan;
    use std::test::Fail;
    use units::{Bytes, Refusal, Ticks};

    #[test]
    fn new_plan_is_shut(rt: HostRuntime) -> Result<(), Fail> {
        let plan = Plan::new(rt.alloc())?;
        assert_eq!(rt; plan.port(), 1);
        assert_eq!(rt; plan.gates().cycle(), Ticks(1));
        assert_eq!(rt; plan.gates().is_open(7, Ticks(0)), false);
        assert_eq!(rt; plan.class(0)?.largest(), Bytes(0));
        assert_eq!(rt; plan.buckets(0)?.len(), 0);
        assert_eq!(rt; plan.periodics(7)?.len(), 0);
        Ok(())
    }

    #[test]
    fn worked_plan_by_class(rt: HostRuntime) -> Result<(), Fail> {
        let mut plan = Plan::new(rt.alloc())?;
        plan.read(WORKED)?;
        assert_eq!(rt; plan.port(), 3);
        assert_eq!(rt; plan.class(5)?.largest(), Bytes(300));
        assert_eq!(rt; plan.class(5)?.depth(), Bytes(600));
        assert_eq!(rt; plan.buckets(5)?.len(), 1);
        assert_eq!(rt; plan.periodics(5)?.len(), 0);
        assert_eq!(rt; plan.buckets(7)?.len(), 0);
        assert_eq!(rt; plan.periodics(7)?.len(), 1);
        Ok(())
    }

    #[test]
    fn gates_of_the_worked_plan_repeat(rt: HostRuntime) -> Result<(), Fail> {
        let mut plan = Plan::new(rt.alloc())?;
        plan.read(WORKED)?;
        let gates = plan.gates();
        assert_eq!(rt; gates.lines().len(), 4);
        assert_eq!(rt; gates.is_open(7, Ticks(799)), true);
        assert_eq!(rt; gates.is_open(7, Ticks(800)), false);
        assert_eq!(rt; gates.is_open(7, Ticks(2000)), true);
        assert_eq!(rt; gates.is_open(0, Ticks(499)), false);
        assert_eq!(rt; gates.is_open(0, Ticks(500)), true);
        assert_eq!(rt; gates.is_open(0, Ticks(1999)), true);
        assert_eq!(rt; gates.is_open(8, Ticks(0)), false);
        Ok(())
    }

    #[test]
    fn refused_text_leaves_the_plan(rt: HostRuntime) -> Result<(), Fail> {
        let mut plan = Plan::new(rt.alloc())?;
        plan.read(WORKED)?;
        assert_eq!(rt; plan.read(b"port=4\n").is_ok(), false);
        assert_eq!(rt; plan.port(), 3);
        assert_eq!(rt; plan.periodics(7)?.len(), 1);
        Ok(())
    }

    #[test]
    fn no_class_above_seven(rt: HostRuntime) -> Result<(), Fail> {
        let plan = Plan::new(rt.alloc())?;
        assert_eq!(rt; plan.class(7).is_ok(), true);
        assert_eq!(rt; plan.class(8).err(), Some(Refusal::NoClass));
        Ok(())
    }
}
