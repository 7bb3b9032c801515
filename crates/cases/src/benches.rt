// Benches: faults with their values, and a bench of stages.
use crate::makers::{rising, three_points};
use bench::{Bench, BenchFault};
use filed::FiledRecording;
use recording::TapeFault;
use rule::Rule;
use scale::{Reading, ScaleFault, Stage};
use std::test::Fail;

#[test]
fn a_33rd_box_is_told_by_point_and_part(rt: HostRuntime) -> Result<(), Fail> {
    let heap = rt.alloc();
    let records = rising(heap, 33)?;
    let mut rule = Rule::new(heap)?;
    rule.read::<Reading>(b"F((c0>=p)&(c0<=p))")?;
    let mut bench = Bench::new(heap, FiledRecording::<Reading>::new(records.as_slice()))?;
    bench.set(rule)?;
    assert_eq!(rt; bench.solve(1), Ok(32));
    assert_eq!(rt; bench.solve(0), Err(BenchFault::Full { point: 0, part: 3 }));
    // The refused solve leaves the one before standing.
    let mut output = [0u8; 512];
    assert!(rt; bench.print(&mut output).is_ok());
    assert!(rt; &output[0..9] == b"boxes 32\n".as_slice());
    Ok(())
}

#[test]
fn a_bench_of_stages(rt: HostRuntime) -> Result<(), Fail> {
    let heap = rt.alloc();
    let records = [0u8; 20];
    let mut rule = Rule::new(heap)?;
    rule.read::<Stage>(b"c0>p")?;
    let mut bench = Bench::new(heap, FiledRecording::<Stage>::new(&records))?;
    bench.set(rule)?;
    assert_eq!(rt; bench.solve(0), Ok(1));
    let mut output = [7u8; 16];
    assert_eq!(rt; bench.print(&mut output), Ok(14));
    assert!(rt; &output[0..14] == b"boxes 1\np<off\n".as_slice());
    Ok(())
}

#[test]
fn what_is_missing_is_told(rt: HostRuntime) -> Result<(), Fail> {
    let heap = rt.alloc();
    let records = three_points(heap)?;
    let mut bench = Bench::new(heap, FiledRecording::<Reading>::new(records.as_slice()))?;
    let mut output = [7u8; 4];
    assert_eq!(rt; bench.solve(0), Err(BenchFault::NoRule));
    assert_eq!(rt; bench.print(&mut output), Err(BenchFault::Unsolved));
    assert_eq!(rt; bench.set(Rule::new(heap)?), Err(BenchFault::NoRule));
    let mut rule = Rule::new(heap)?;
    rule.read::<Reading>(b"(c0<p)&(c1<c4)")?;
    assert_eq!(rt;
        bench.set(rule),
        Err(BenchFault::Part {
            part: 1,
            fault: TapeFault::NoChannel,
        })
    );
    assert_eq!(rt; bench.solve(3), Err(BenchFault::NoRule));
    let mut fine = Rule::new(heap)?;
    fine.read::<Reading>(b"c0<p")?;
    bench.set(fine)?;
    assert_eq!(rt; bench.solve(3), Err(BenchFault::Tape(TapeFault::NoPoint)));
    assert_eq!(rt; bench.solve(2), Ok(1));
    assert_eq!(rt;
        bench.print(&mut output),
        Err(BenchFault::Room { needed: 12 })
    );
    assert!(rt; output == [7u8; 4]);
    Ok(())
}

#[test]
fn a_constant_of_another_scale(rt: HostRuntime) -> Result<(), Fail> {
    let heap = rt.alloc();
    let records = [0u8; 20];
    let mut rule = Rule::new(heap)?;
    rule.read::<Reading>(b"X(c0<9)")?;
    let mut bench = Bench::new(heap, FiledRecording::<Stage>::new(&records))?;
    let fault = TapeFault::Scale(ScaleFault::NoMark);
    assert_eq!(rt; bench.set(rule), Err(BenchFault::Part { part: 0, fault }));
    Ok(())
}
