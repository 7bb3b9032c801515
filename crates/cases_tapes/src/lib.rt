// Tapes and layers by example: which changes are refused, and what is told after those that are taken.
#![tactic(auto)]

#[cfg(test)]
mod tests {
    use layers::{Difference, Peak};
    use recording::{Recording, Tape, TapeFault};
    use rows::{Row, RowTape};
    use scale::{Reading, Scale, Stage};
    use std::alloc::{AllocError, Global};
    use std::fmt::Debug;
    use std::test::Fail;

    const FAR: usize = 9_223_372_036_854_775_808;

    fn blank_tape<S: Scale>(heap: Global, rows: usize) -> Result<RowTape<S>, AllocError> {
        let mut blanks = Vec::new(heap);
        for _ in 0..rows {
            blanks.push(Row::blank())?;
        }
        Ok(RowTape::new(blanks))
    }

    // The number of the refusal, if there is one.
    fn refusal(answer: Result<(), TapeFault>) -> Option<u32> {
        answer.err().map(TapeFault::number)
    }

    // A tape of eight rows whose channel 0 reads these values at ticks 0, 10, 20 and so on.
    fn tape_of(heap: Global, values: &[i32]) -> Result<RowTape<Reading>, AllocError> {
        let mut tape = blank_tape(heap, 8)?;
        let mut tick = 0u32;
        for (point, value) in values.iter().enumerate() {
            let _ = tape.add(tick);
            let _ = tape.amend(point, 0, Reading::new(*value));
            tick = tick.saturating_add(10);
        }
        Ok(tape)
    }

    // What a channel reads at points 0 to 2.
    fn reads<R: Recording<Mark = Reading>>(recording: &R, channel: usize) -> (i32, i32, i32) {
        (
            recording.mark(0, channel).to_i32(),
            recording.mark(1, channel).to_i32(),
            recording.mark(2, channel).to_i32(),
        )
    }

    #[test]
    fn layers_of_three_readings(rt: HostRuntime) -> Result<(), Fail> {
        let difference = Difference::new(tape_of(rt.alloc(), &[3, 7, 5])?, 0);
        assert_eq!(rt; reads(&difference, 0), (3, 7, 5));
        assert_eq!(rt; reads(&difference, 4), (4, -2, 0));
        let peak = Peak::new(difference.into_below(), 0);
        assert_eq!(rt; reads(&peak, 4), (3, 7, 7));
        Ok(())
    }

    #[test]
    fn adding(rt: HostRuntime) -> Result<(), Fail> {
        let mut tape = tape_of(rt.alloc(), &[3, 7, 5])?;
        assert_eq!(rt; refusal(tape.add(20)), Some(11));
        assert_eq!(rt; refusal(tape.add(0)), Some(11));
        assert_eq!(rt; tape.points(), 3);
        assert_eq!(rt; refusal(tape.add(21)), None);
        assert_eq!(rt; (tape.points(), tape.tick(2), tape.tick(3)), (4, 20, 21));
        assert_eq!(rt; tape.mark(3, 0).to_i32(), 5);
        assert_eq!(rt; refusal(tape.add(4_294_967_295)), None);
        assert_eq!(rt; refusal(tape.add(4_294_967_295)), Some(11));
        let mut short = blank_tape::<Stage>(rt.alloc(), 1)?;
        assert_eq!(rt; refusal(short.add(0)), None);
        assert_eq!(rt; short.mark(0, 3), Stage::Off);
        assert_eq!(rt; refusal(short.add(0)), Some(10));
        assert_eq!(rt; refusal(short.add(1)), Some(10));
        Ok(())
    }

    #[test]
    fn amending_and_withdrawing(rt: HostRuntime) -> Result<(), Fail> {
        let mut tape = tape_of(rt.alloc(), &[3, 7])?;
        let nine = Reading::new(9);
        assert_eq!(rt; refusal(tape.amend(2, 4, nine)), Some(8));
        assert_eq!(rt; refusal(tape.amend(1, 4, nine)), Some(6));
        assert_eq!(rt; refusal(tape.amend(usize::MAX, 0, nine)), Some(8));
        assert_eq!(rt; refusal(tape.amend(1, 3, nine)), None);
        assert_eq!(rt;
            (tape.mark(1, 3).to_i32(), tape.mark(0, 3).to_i32()),
            (9, 0)
        );
        assert_eq!(rt; refusal(tape.withdraw()), None);
        assert_eq!(rt; (tape.points(), tape.mark(0, 0).to_i32()), (1, 3));
        assert_eq!(rt; tape.mark(1, 3).to_i32(), 0);
        assert_eq!(rt; refusal(tape.withdraw()), None);
        assert_eq!(rt; refusal(tape.withdraw()), Some(8));
        let rows = tape.into_rows();
        assert_eq!(rt; rows.len(), 8);
        Ok(())
    }

    #[test]
    fn capacity(rt: HostRuntime) -> Result<(), Fail> {
        assert_eq!(rt; blank_tape::<Stage>(rt.alloc(), 0)?.capacity(), 0);
        assert_eq!(rt; blank_tape::<Stage>(rt.alloc(), 2048)?.capacity(), 2048);
        assert_eq!(rt; blank_tape::<Stage>(rt.alloc(), 2049)?.capacity(), 2048);
        Ok(())
    }

    #[test]
    fn differences_held(rt: HostRuntime) -> Result<(), Fail> {
        let ends = [2_147_483_647, -2_147_483_648, 2_147_483_647];
        let difference = Difference::new(tape_of(rt.alloc(), &ends)?, 0);
        assert_eq!(rt; reads(&difference, 4), (-2_147_483_648, 2_147_483_647, 0));
        Ok(())
    }

    #[test]
    fn stacked(rt: HostRuntime) -> Result<(), Fail> {
        let falling = Difference::new(Peak::new(tape_of(rt.alloc(), &[3, 7, 5])?, 0), 4);
        assert_eq!(rt; reads(&falling, 4), (3, 7, 7));
        assert_eq!(rt; reads(&falling, 5), (4, 0, 0));
        assert_eq!(rt; falling.below().channels(), 5);
        let mut rising = Peak::new(Difference::new(tape_of(rt.alloc(), &[3, 7, 5])?, 0), 4);
        assert_eq!(rt; reads(&rising, 5), (4, 4, 4));
        let zero = Reading::new(0);
        assert_eq!(rt; refusal(rising.amend(3, 5, zero)), Some(8));
        assert_eq!(rt; refusal(rising.amend(2, 6, zero)), Some(6));
        assert_eq!(rt; refusal(rising.amend(2, 4, zero)), Some(9));
        assert_eq!(rt; refusal(rising.amend(2, 5, zero)), Some(9));
        assert_eq!(rt; refusal(rising.amend(0, 0, Reading::new(9))), None);
        assert_eq!(rt; reads(&rising, 4), (-2, -2, 0));
        assert_eq!(rt; reads(&rising, 5), (-2, -2, 0));
        assert_eq!(rt; refusal(rising.withdraw()), None);
        assert_eq!(rt; reads(&rising, 5), (-2, 0, 0));
        assert_eq!(rt; refusal(rising.add(10)), Some(11));
        assert_eq!(rt; refusal(rising.add(11)), None);
        assert_eq!(rt; reads(&rising, 0), (9, 7, 7));
        Ok(())
    }

    // Three more channels, of which the last is the peak of channel c.
    fn three<R: Recording>(below: R, c: usize) -> Peak<Peak<Peak<R>>> {
        Peak::new(Peak::new(Peak::new(below, 0), usize::MAX), c)
    }

    // Fails with two values that are not the same.
    fn same<T: PartialEq + Debug + Drop>(is: T, wanted: T) -> Result<(), Fail> {
        if is == wanted {
            Ok(())
        } else {
            Err(Fail::new(format_args!("{is:?} is not {wanted:?}")))
        }
    }

    fn with_sixteen<R: Tape<Mark = Reading> + Drop>(full: R) -> Result<(), Fail> {
        same(full.channels(), 16)?;
        same(reads(&full, 14), (0, 0, 0))?;
        same(reads(&full, 15), (3, 7, 7))?;
        let mut over = Difference::new(Peak::new(full, 0), 0);
        same(over.channels(), 16)?;
        same(reads(&over, 15), (3, 7, 7))?;
        same(reads(&over, 16), (0, 0, 0))?;
        same(
            (over.is_given(3), over.is_given(4), over.is_given(16)),
            (true, false, false),
        )?;
        same(refusal(over.amend(0, 16, Reading::new(1))), Some(6))?;
        same(refusal(over.amend(0, 15, Reading::new(1))), Some(9))
    }

    fn with_ten<R: Tape<Mark = Reading> + Drop>(below: R) -> Result<(), Fail> {
        same(below.channels(), 10)?;
        with_sixteen(three(three(below, 9), 12))
    }

    #[test]
    fn sixteen_channels(rt: HostRuntime) -> Result<(), Fail> {
        with_ten(three(three(tape_of(rt.alloc(), &[3, 7, 5])?, 0), 6))
    }

    #[test]
    fn far_outside(rt: HostRuntime) -> Result<(), Fail> {
        let mut tape = blank_tape::<Stage>(rt.alloc(), 2)?;
        assert_eq!(rt; refusal(tape.add(7)), None);
        assert_eq!(rt; refusal(tape.amend(0, 3, Stage::On)), None);
        let peak = Peak::new(tape, 3);
        assert_eq!(rt; (peak.mark(0, 3), peak.mark(0, 4)), (Stage::On, Stage::On));
        assert_eq!(rt;
            (peak.mark(0, 5), peak.mark(1, 4)),
            (Stage::Off, Stage::Off)
        );
        for far in [FAR, usize::MAX] {
            assert_eq!(rt;
                (peak.mark(far, 4), peak.mark(0, far)),
                (Stage::Off, Stage::Off)
            );
            assert_eq!(rt; peak.mark(far, far), Stage::Off);
            assert_eq!(rt; (peak.tick(far), peak.is_given(far)), (0, false));
        }
        assert_eq!(rt;
            (peak.tick(0), peak.is_given(3), peak.is_given(4)),
            (7, true, false)
        );
        Ok(())
    }
}
