// `limits`: from rule.txt and points.rec in the folder that it is run in to the listing at point 0, or the refusal.
#![tactic(auto)]

ghost use Rattle.std.specs.Prelude.{◌≤◌, length};

use host::{stop_limits, stop_limits_refusal};
use std::fs::File;
use std::io;
use std::io::{Read, Write};

// The front of a file, as much as the buffer takes; a file that cannot be read counts as empty. Vectors were tried. One that grows
// can want for memory, and a good file then counts as empty; one of fixed capacity is moved about, and takes more stack.
fn read_front(rt: &HostRuntime, path: &str, buffer: &mut [u8]) -> usize
    ensures { result ≤ length buffer.old }
{
    let Ok(mut file) = File::open(rt, path) else {
        return 0;
    };
    let mut filled = 0;
    for _turn in 0..buffer.len() {
        match file.read(&mut buffer[filled..]) {
            Ok(0) => break,
            Ok(count) => filled += count,
            Err(_) => return 0,
        }
    }
    filled
}

fn main(rt: HostRuntime) -> io::Result<()> {
    let mut text = [0u8; 513];
    let mut records = [0u8; 40_980];
    let mut output = [0u8; 4096];
    let text_len = read_front(&rt, "rule.txt", &mut text);
    let records_len = read_front(&rt, "points.rec", &mut records);
    let answer = stop_limits(
        rt.alloc(),
        &text[0..text_len],
        &records[0..records_len],
        0,
        &mut output,
    );
    // The call for hosts answers one number, as C takes it.
    let written = if answer < 0 {
        stop_limits_refusal(answer.unsigned_abs() as u32, &mut output)
    } else {
        answer
    };
    let mut out = rt.stdout();
    out.write_all(&output[0..written as usize])
}
