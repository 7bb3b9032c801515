// The calls for hosts under their names in C: each passes its arguments on and promises the same.
#![tactic(auto)]

ghost use Rattle.std.specs.Prelude.{◌≡◌, ◌<◌, ◌≤◌, ◌++◌, length, drop, pos, negsuc, ◌≤ℤ◌, ◌<ℤ◌};
ghost use Rattle.host.specs.Refusals.{refusal_text};

use std::alloc::Global;

// The listing's length, or minus the number of the refusal: one number, as C takes it.
#[unsafe(no_mangle)]
pub extern "C" fn stop_limits(
    heap: Global,
    text: &[u8],
    records: &[u8],
    point: u64,
    output: &mut [u8],
) -> i64
    ensures least { negsuc 98 ≤ℤ result }
    ensures most { result ≤ℤ pos (length output.old) }
    ensures refused { result <ℤ pos 0 → output.new ≡ output.old }
{
    host::stop_limits(heap, text, records, point, output)
}

// Writes `refused N` and a line end, and answers how many bytes that is, or -16 and nothing where there is no room, as C
// takes it.
#[unsafe(no_mangle)]
pub extern "C" fn stop_limits_refusal(number: u32, output: &mut [u8]) -> i64
    ensures room { length (refusal_text number) ≤ length output.old → (result ≡ pos (length (refusal_text number))) × (output.new ≡ refusal_text number ++ drop (length (refusal_text number)) output.old) }
    ensures small { length output.old < length (refusal_text number) → (result ≡ negsuc 15) × (output.new ≡ output.old) }
    ensures short { length (refusal_text number) ≤ 19 }
{
    host::stop_limits_refusal(number, output)
}

// No clause says which argument goes where, so the names that C links are run.
#[cfg(test)]
mod tests {
    use super::{stop_limits, stop_limits_refusal};

    // Two points, at which channel 0 reads 3 and 7.
    const RECORDS: [u8; 40] = [
        0, 0, 0, 0, 3, 0, 0, 0, 0, 0, 0, 0, 0, 0, 0, 0, 0, 0, 0, 0, 10, 0, 0, 0, 7, 0, 0, 0, 0, 0,
        0, 0, 0, 0, 0, 0, 0, 0, 0, 0,
    ];

    #[test]
    fn each_argument_is_passed_on_in_its_place(rt: HostRuntime) {
        let mut output = [46u8; 16];
        assert_eq!(rt;
            stop_limits(rt.alloc(), b"c0>=p", &RECORDS, 1, &mut output),
            13
        );
        assert!(rt; &output == b"boxes 1\np<=7\n...");
        assert_eq!(rt;
            stop_limits(rt.alloc(), b"c0>=p", &RECORDS, 0, &mut output),
            13
        );
        assert!(rt; &output == b"boxes 1\np<=3\n...");
    }

    #[test]
    fn a_refusal_leaves_the_output(rt: HostRuntime) {
        let mut output = [46u8; 12];
        assert_eq!(rt;
            stop_limits(rt.alloc(), b"c0>=p", &RECORDS, 2, &mut output),
            -8
        );
        assert_eq!(rt;
            stop_limits(rt.alloc(), b"c0>=p", &RECORDS, 0, &mut output),
            -16
        );
        assert!(rt; &output == b"............");
    }

    #[test]
    fn the_text_of_a_refusal(rt: HostRuntime) {
        let mut output = [46u8; 12];
        assert_eq!(rt; stop_limits_refusal(14, &mut output), 11);
        assert!(rt; &output == b"refused 14\n.");
    }
}
