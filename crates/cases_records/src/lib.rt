// Record faults by example: which bytes pass the check, and what is told of those that do not.
#![tactic(auto)]

#[cfg(test)]
mod tests {
    use filed::{FiledRecording, check_records};
    use recording::{Recording, RecordsFault, TapeFault};
    use scale::{Reading, Scale, ScaleFault, Stage};
    use std::alloc::{AllocError, Global};
    use std::test::Fail;

    // Records of a tick and a code for channel 3 each, the other codes 0, and so many bytes over.
    fn bytes_of(heap: Global, rows: &[(u32, u32)], over: usize) -> Result<Vec<u8>, AllocError> {
        let mut bytes = Vec::new(heap);
        for (tick, code) in rows {
            bytes.extend_from_slice(&tick.to_le_bytes())?;
            bytes.extend_from_slice(&[0; 12])?;
            bytes.extend_from_slice(&code.to_le_bytes())?;
        }
        for _ in 0..over {
            bytes.push(0)?;
        }
        Ok(bytes)
    }

    // So many records with ticks 0, 1, 2 and so on.
    fn many(heap: Global, count: u32) -> Result<Vec<u8>, AllocError> {
        let mut bytes = Vec::new(heap);
        for tick in 0..count {
            bytes.extend_from_slice(&tick.to_le_bytes())?;
            bytes.extend_from_slice(&[0; 16])?;
        }
        Ok(bytes)
    }

    // The number of points of sound records, or the fault's number and the record that it blames.
    fn told<S: Scale>(bytes: &[u8]) -> Result<usize, (u32, Option<usize>)> {
        match check_records::<S>(bytes) {
            Ok(()) => Ok(FiledRecording::<S>::new(bytes).points()),
            Err(fault) => match fault {
                RecordsFault::Ragged => Err((fault.number(), None)),
                RecordsFault::Record { record, .. } => Err((fault.number(), Some(record))),
            },
        }
    }

    #[test]
    fn readings(rt: HostRuntime) -> Result<(), Fail> {
        let cases: [(&[(u32, u32)], usize, Result<usize, (u32, Option<usize>)>); 9] = [
            (&[], 0, Ok(0)),
            (&[], 19, Err((15, None))),
            (&[(7, 0)], 1, Err((15, None))),
            (&[(0, 4_294_967_295)], 0, Ok(1)),
            (&[(7, 0), (8, 0), (4_294_967_295, 0)], 0, Ok(3)),
            (&[(7, 0), (7, 0)], 0, Err((11, Some(1)))),
            (&[(0, 0), (7, 0), (6, 0)], 0, Err((11, Some(2)))),
            (&[(0, 0), (0, 0), (0, 0)], 0, Err((11, Some(1)))),
            (&[(7, 0), (7, 0)], 19, Err((15, None))),
        ];
        for (rows, over, wanted) in cases {
            let bytes = bytes_of(rt.alloc(), rows, over)?;
            assert_eq!(rt; told::<Reading>(bytes.as_slice()), wanted);
        }
        Ok(())
    }

    #[test]
    fn stages(rt: HostRuntime) -> Result<(), Fail> {
        let cases: [(&[(u32, u32)], usize, Result<usize, (u32, Option<usize>)>); 5] = [
            (&[(7, 0), (8, 4)], 0, Ok(2)),
            (&[(7, 5)], 0, Err((7, Some(0)))),
            (&[(7, 0), (8, 4_294_967_295)], 0, Err((7, Some(1)))),
            (&[(7, 0), (7, 5)], 0, Err((11, Some(1)))),
            (&[(7, 0), (8, 5), (8, 0)], 0, Err((7, Some(1)))),
        ];
        for (rows, over, wanted) in cases {
            let bytes = bytes_of(rt.alloc(), rows, over)?;
            assert_eq!(rt; told::<Stage>(bytes.as_slice()), wanted);
        }
        Ok(())
    }

    #[test]
    fn most_records(rt: HostRuntime) -> Result<(), Fail> {
        let full = many(rt.alloc(), 2048)?;
        assert_eq!(rt; told::<Reading>(full.as_slice()), Ok(2048));
        let over = many(rt.alloc(), 2049)?;
        assert_eq!(rt; told::<Reading>(over.as_slice()), Err((10, Some(2048))));
        Ok(())
    }

    #[test]
    fn scale_fault_is_carried(rt: HostRuntime) {
        let mut bytes = [0; 20];
        bytes[16] = 9;
        assert_eq!(rt;
            check_records::<Stage>(&bytes),
            Err(RecordsFault::Record {
                record: 0,
                fault: TapeFault::Scale(ScaleFault::NoMark),
            })
        );
    }

    #[test]
    fn told_outside(rt: HostRuntime) {
        let mut bytes = [0; 40];
        bytes[0] = 3;
        bytes[16] = 4;
        bytes[20] = 5;
        let filed = FiledRecording::<Stage>::new(&bytes);
        assert_eq!(rt; filed.points(), 2);
        assert_eq!(rt; filed.capacity(), 2);
        assert_eq!(rt; filed.tick(0), 3);
        assert_eq!(rt; filed.mark(0, 3), Stage::On);
        assert_eq!(rt; filed.mark(0, 4), Stage::Off);
        assert_eq!(rt; filed.mark(usize::MAX, usize::MAX), Stage::Off);
        assert_eq!(rt; filed.tick(usize::MAX), 0);
        assert!(rt; filed.is_given(3) && !filed.is_given(4) && !filed.is_given(usize::MAX));
    }
}
