// Figures worked by hand, run against the units and the layers.
#![tactic(auto)]

#[cfg(test)]
mod tests {
    use layers::{Drain, Odd};
    use planes::Plane;
    use refusals::Refusal;
    use std::test::Fail;
    use units::{Multiplier, Unit};

    #[test]
    fn multiplier_stops_at_its_limit(rt: HostRuntime) -> Result<(), Fail> {
        let mut unit = Multiplier::new(1)?;
        for _ in 0..128 {
            unit.add(1, &[1])?;
        }
        assert_eq!(rt; unit.add(1, &[1]), Err(Refusal::RowLimit));
        assert_eq!(rt; Refusal::RowLimit.number(), 3);
        assert_eq!(rt; unit.total(0)?, 128);
        Ok(())
    }

    #[test]
    fn drain_lifts_the_limit(rt: HostRuntime) -> Result<(), Fail> {
        let mut unit = Drain::new(Multiplier::new(1)?);
        for _ in 0..129 {
            unit.add(1, &[1])?;
        }
        assert_eq!(rt; unit.rows(), 129);
        assert_eq!(rt; unit.below().rows(), 1);
        assert_eq!(rt; unit.total(0)?, 129);
        Ok(())
    }

    #[test]
    fn odd_halves(rt: HostRuntime) -> Result<(), Fail> {
        let mut unit = Odd::new(Plane::new(1)?);
        unit.add(5, &[-3])?;
        assert_eq!(rt; unit.below().total(0)?, -25);
        assert_eq!(rt; unit.total(0)?, -15);
        Ok(())
    }

    #[test]
    fn odd_narrows(rt: HostRuntime) -> Result<(), Fail> {
        let once = Odd::new(Multiplier::new(1)?);
        assert!(rt; once.takes(-128) && once.takes(127));
        assert!(rt; !once.takes(-129) && !once.takes(128));
        let twice = Odd::new(once);
        assert!(rt; twice.takes(-64) && twice.takes(63));
        assert!(rt; !twice.takes(-65) && !twice.takes(64));
        Ok(())
    }

    #[test]
    fn refusals_come_in_order(rt: HostRuntime) -> Result<(), Fail> {
        let mut unit = Drain::new(Plane::new(2)?);
        assert_eq!(rt; unit.add(1 << 36, &[2]), Err(Refusal::WeightCount));
        assert_eq!(rt; unit.add(1 << 36, &[1, 2]), Err(Refusal::NumberTooLarge));
        assert_eq!(rt;
            unit.add(1, &[1, 2]),
            Err(Refusal::WeightNotTaken { column: 1 })
        );
        assert_eq!(rt; unit.total(2), Err(Refusal::NoSuchColumn));
        Ok(())
    }
}
