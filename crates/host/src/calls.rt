// The calls for hosts.
ghost use Rattle.std.specs.Prelude.{◌≡◌, ◌<◌, ◌≤◌, ◌++◌, length, drop, pos, negsuc, ◌≤ℤ◌, ◌<ℤ◌, IfOk, OnErr};
ghost use Rattle.host.specs.Refusals.{refusal_text};

use crate::faults::HostFault;
use arrayvec::ArrayString;
use bench::Bench;
use filed::{FiledRecording, check_records};
use itoa::Buffer;
use listing::put;
use rule::Rule;
use scale::Reading;
use std::alloc::Global;

// From a rule's text and records of readings to the listing. A refusal leaves the output as it was.
fn list(
    heap: Global,
    text: &[u8],
    records: &[u8],
    point: usize,
    output: &mut [u8],
) -> Result<usize, HostFault>
    ensures bound { IfOk result (λ n. n ≤ length output.old) }
    ensures refused { OnErr result (output.new ≡ output.old) }
{
    let mut rule = Rule::new(heap)?;
    rule.read::<Reading>(text)?;
    check_records::<Reading>(records)?;
    let recording = FiledRecording::<Reading>::new(records);
    let mut bench = Bench::new(heap, recording)?;
    bench.set(rule)?;
    bench.solve(point)?;
    Ok(bench.print(output)?)
}

// The listing's length, or minus the number of the refusal: one number, as C takes it.
pub fn stop_limits(heap: Global, text: &[u8], records: &[u8], point: u64, output: &mut [u8]) -> i64
    ensures least { negsuc 98 ≤ℤ result }
    ensures most { result ≤ℤ pos (length output.old) }
    ensures refused { result <ℤ pos 0 → output.new ≡ output.old }
{
    match list(heap, text, records, point as usize, output) {
        Ok(length) => length as i64,
        Err(fault) => -(fault.number() as i64),
    }
}

// The text of a refusal by its number. Pushed and not formatted, since `write!` does not promise that there was room.
fn refusal(number: u32) -> ArrayString<19>
    ensures { result.bytes ≡ refusal_text number }
{
    let mut digits = Buffer::new();
    let mut text = ArrayString::new();
    text.push_str("refused ");
    text.push_str(digits.format(number));
    text.push_str("\n");
    text
}

// Writes `refused N` and a line end, and answers how many bytes that is, or -16 and nothing where there is no room, as C
// takes it.
pub fn stop_limits_refusal(number: u32, output: &mut [u8]) -> i64
    ensures room { length (refusal_text number) ≤ length output.old → (result ≡ pos (length (refusal_text number))) × (output.new ≡ refusal_text number ++ drop (length (refusal_text number)) output.old) }
    ensures small { length output.old < length (refusal_text number) → (result ≡ negsuc 15) × (output.new ≡ output.old) }
    ensures short { length (refusal_text number) ≤ 19 }
{
    match put(output, 0, refusal(number).as_str().as_bytes()) {
        Ok(length) => length as i64,
        Err(_) => -16,
    }
}
