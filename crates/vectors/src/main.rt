// Runs the stored cases of its file data/cases and prints each answer. The file holds one case behind the other: a head line of 81 bytes,
// the package's bytes, the formula's bytes, and one byte 10. The file 'stdout' has the answers that documents 01 and 02 give, written
// down beforehand.
#![tactic(auto)]

mod run;

ghost use Rattle.std.specs.Prelude.{◌-◌, ◌^◌, OnOk};
ghost use Rattle.vectors.specs.Stored.{RunsAll};

use std::io::{Read, Write};
use std::{fs, io};

// Every case of the file, one after the other; the turns are more than any file has cases. Behind an error, what was read and written is left
// open.
fn run_all<R: Read, W: Write>(file: &mut R, out: &mut W) -> io::Result<()>
    ensures { OnOk result (RunsAll (2 ^ 32 - 1) (R.remaining file.old) (W.contents out.old) (W.contents out.new)) }
{
    for _turn in 0..u32::MAX {
        if !run::run_next(file, out)? {
            return Ok(());
        }
    }
    Ok(())
}

fn main(rt: HostRuntime) -> io::Result<()> {
    let mut file = fs::open(&rt, "cases")?;
    run_all(&mut file, &mut rt.stdout())?;
    rt.write_all(b"end\n")
}
