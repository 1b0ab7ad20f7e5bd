// Figures worked by hand, run through lists of calls on real formats, sheets and piles of layers.
#![tactic(auto)]

#[cfg(test)]
mod tests {
    use alignment::ExtraBits;
    use calls::{Answer, Call, Misplaced, Opening, WorkError, work, work_both};
    use formats::{Binary16, Binary32};
    use layers::{Drain, Odd};
    use planes::Plane;
    use runs::Reading;
    use sheets::{ByteSheet, NibbleSheet};
    use std::test::Fail;
    use units::Multiplier;

    // What a list answers that ends with an accepted read of these figures.
    fn last_read(total: i64, slack: u32, exponent: i32, word: u32) -> Option<Answer> {
        Some(Ok(Some(Reading {
            total,
            slack,
            exponent,
            word,
        })))
    }

    #[test]
    fn cut_towards_zero(rt: HostRuntime) -> Result<(), Fail> {
        let words = [0x3C00, 0x9401];
        let sheet = ByteSheet::new(2, 1, &[1, 3])?;
        let calls = [
            Call::Survey(&words),
            Call::Fix,
            Call::Feed(&words, sheet),
            Call::Read(0),
        ];
        let opening = Opening {
            format: Binary16,
            unit: Drain::new(Multiplier::new(1)?),
            extra: ExtraBits::new(0)?,
        };
        let worked = work(rt.alloc(), opening, &calls)?;
        let last = worked.answers.last().copied();
        assert_eq!(rt; last, last_read(1021, 3, -10, 0x3F7F_4000));
        Ok(())
    }

    // 1, 2 and 2^-24 with weights 3, -1 and 2, at a step of 2^-21: the last word is lost. The runs differ in format, unit,
    // sheet, tiles and order.
    #[test]
    fn two_runs_read_alike(rt: HostRuntime) -> Result<(), Fail> {
        let halves = [0x3C00, 0x4000, 0x0001];
        let left_calls = [
            Call::Survey(&halves),
            Call::Fix,
            Call::Feed(&halves[0..1], ByteSheet::new(1, 1, &[3])?),
            Call::Feed(&halves[1..3], ByteSheet::new(2, 1, &[0xFF, 2])?),
            Call::Read(0),
        ];
        let left = Opening {
            format: Binary16,
            unit: Drain::new(Multiplier::new(1)?),
            extra: ExtraBits::new(12)?,
        };
        let wholes = [0x3380_0000, 0x4000_0000, 0x3F80_0000];
        let right_calls = [
            Call::Survey(&[0x4080_0000]),
            Call::Survey(&wholes),
            Call::Fix,
            Call::Feed(&wholes, NibbleSheet::new(3, 2, &[0x20, 0xF1, 0x35])?),
            Call::Read(1),
        ];
        let right = Opening {
            format: Binary32,
            unit: Drain::new(Odd::new(Plane::new(2)?)),
            extra: ExtraBits::new(0)?,
        };
        let (left, right) = work_both(rt.alloc(), left, &left_calls, right, &right_calls);
        let (left, right) = (left?, right?);
        let same = last_read(2_097_152, 2, -21, 0x3F80_0000);
        assert_eq!(rt; left.answers.last().copied(), same);
        assert_eq!(rt; right.answers.last().copied(), same);
        Ok(())
    }

    // An aligned run is not surveyed: the list is kept out, and the call named.
    #[test]
    fn misplaced_call_is_named(rt: HostRuntime) -> Result<(), Fail> {
        let words = [0x3C00];
        let sheet = ByteSheet::new(1, 1, &[1])?;
        let calls = [Call::Fix, Call::Feed(&words, sheet), Call::Survey(&words)];
        let opening = Opening {
            format: Binary16,
            unit: Multiplier::new(1)?,
            extra: ExtraBits::new(0)?,
        };
        let error = work(rt.alloc(), opening, &calls).err();
        assert_eq!(rt; error, Some(WorkError::Misplaced(Misplaced { call: 2 })));
        Ok(())
    }
}
