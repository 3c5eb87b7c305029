// The program: reads the table `wave.wtd` and the message `wave.scl` in its working directory, and prints the report on them.
#![tactic(auto)]

ghost use Rattle.std.specs.Prelude.{◌≤◌, length, IfSome};
ghost use Rattle.std.specs.Io.{ReadsAtMost};

use report::MOST;
use std::io::Read;
use std::rt::Files;
use std::{fs, io};

// The most bytes that each file may have.
const TABLE_MOST: usize = 262;

const MESSAGE_MOST: usize = 32768;

// Reads until `space` is full or the file ends, and answers how many bytes it put at the front of `space`. Its loop stands since `read_exact` fails at a file that
// ends before, and `read_to_end` fills a `Vec`, which allocates.
fn read_full(file: &mut impl Read, space: &mut [u8]) -> io::Result<usize>
    ensures { ReadsAtMost result space.new }
{
    let mut done = 0;
    while done < space.len() {
        let n = file.read(&mut space[done..])?;
        if n == 0 {
            break;
        }
        done += n;
    }
    Ok(done)
}

// Reads a file into `space`, which is as long as the file may be, and answers its bytes, or `None` where it is missing or too large. One more read tells
// whether the file ends there: it finds a byte if the file is too large. A file that can't be read, as a folder can't, fails at its first read.
fn load<'a>(rt: &impl Files, name: &str, space: &'a mut [u8]) -> Option<&'a [u8]>
    ensures { IfSome result (λ bytes. length bytes.now ≤ length space.old) }
{
    let mut file = fs::open(rt, name).ok()?;
    let size = read_full(&mut file, space).ok()?;
    let mut next = [0u8; 1];
    match file.read(&mut next) {
        Ok(0) => Some(&space[..size]),
        _ => None,
    }
}

// A report that can't be written is left out, and the run ends as ever.
fn main(rt: HostRuntime) {
    let mut table_space = [0u8; TABLE_MOST];
    let mut message_space = [0u8; MESSAGE_MOST];
    let table = load(&rt, "wave.wtd", &mut table_space);
    let message = load(&rt, "wave.scl", &mut message_space);
    let mut text = [0u8; MOST];
    let length = match (table, message) {
        (Some(table), Some(message)) => report::report(table, message, &mut text),
        _ => report::report_unreadable(&mut text),
    };
    let _ = rt.write_all(&text[..length]);
}
