// Records for the cases.
use std::alloc::{AllocError, Global};

// One record, with codes for channels 0 and 1; channels 2 and 3 are 0.
pub(crate) fn add_record(
    records: &mut Vec<u8>,
    tick: u32,
    c0: i32,
    c1: i32,
) -> Result<(), AllocError> {
    records.extend_from_slice(&tick.to_le_bytes())?;
    records.extend_from_slice(&c0.to_le_bytes())?;
    records.extend_from_slice(&c1.to_le_bytes())?;
    records.extend_from_slice(&[0; 8])
}

// Ticks 0, 10 and 20; channel 0 is 3, 7 and 5, channel 1 is 0, 0 and 1.
pub(crate) fn three_points(heap: Global) -> Result<Vec<u8>, AllocError> {
    let mut records = Vec::new(heap);
    add_record(&mut records, 0, 3, 0)?;
    add_record(&mut records, 10, 7, 0)?;
    add_record(&mut records, 20, 5, 1)?;
    Ok(records)
}

// Channel 0 rises by one from each point to the next.
pub(crate) fn rising(heap: Global, count: i32) -> Result<Vec<u8>, AllocError> {
    let mut records = Vec::new(heap);
    for value in 0..count {
        add_record(&mut records, value.unsigned_abs(), value, 0)?;
    }
    Ok(records)
}
