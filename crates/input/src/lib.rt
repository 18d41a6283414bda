// A reader's bytes, read to its end, and what is said where a read or a write failed.
#![tactic(auto)]

ghost use Rattle.std.specs.Prelude.{◌≤◌, length, IfOk};

use std::io;
use std::io::Read;

// Reads until the input ends or buf is full, whatever sizes the reads come in. Answers how many bytes it read, or the error of a read that failed.
pub fn read_all<R: Read>(reader: &mut R, buf: &mut [u8]) -> io::Result<usize>
    ensures { IfOk result (λ n. n ≤ length buf.old) }
{
    let mut at = 0;
    // A `while`: the reader says when it ends, so there is no count and no collection to go over.
    while at < buf.len() {
        let bytes = reader.read(&mut buf[at..])?;
        if bytes == 0 {
            break;
        }
        at += bytes;
    }
    Ok(at)
}

// Says on standard error what failed in a program; if that fails too, nothing is left to say. `routes` and `rip` each say it by a function of their own.
// It has no contract: no clause of `Eprint` says which bytes are printed.
pub fn fail(rt: &impl Eprint, program: &str, what: &str, error: io::Error) {
    let _said = eprintln!(rt; "{program}: {what}: {error}");
}

#[cfg(test)]
mod tests {
    use super::*;
    use std::alloc::Global;
    use std::cell::RefCell;
    use std::fmt::Display;

    // The system's number for a device that is full.
    const ENOSPC: i32 = 28;

    // A standard error that keeps all that it is handed; one that fails says so after that.
    #[derive(Clone, Copy)]
    struct Kept<'a> {
        alloc: Global,
        text: &'a RefCell<String>,
        fails: bool,
    }

    impl Kept<'_> {
        fn keep<D: Display>(&self, value: &D, end: &str) -> io::Result<()> {
            let mut text = self.text.try_borrow_mut()?;
            text.push_str(value.to_string(self.alloc)?.as_str())?;
            text.push_str(end)?;
            if self.fails {
                return Err(io::Error::from_raw_os_error(ENOSPC));
            }
            Ok(())
        }
    }

    impl Eprint for Kept<'_> {
        fn eprint<D: Display + Drop>(&self, value: D) -> io::Result<()> {
            self.keep(&value, "")
        }

        fn eprintln<D: Display + Drop>(&self, value: D) -> io::Result<()> {
            self.keep(&value, "\n")
        }
    }

    // The line that `routes` says of a full device, once, also where standard error fails; and one of an error that is none of the system's.
    #[test]
    fn says_what_failed(rt: HostRuntime) {
        let alloc = rt.alloc();
        for fails in [false, true] {
            let text = RefCell::new(String::new(alloc));
            let kept = Kept {
                alloc,
                text: &text,
                fails,
            };
            fail(
                &kept,
                "routes",
                "standard output",
                io::Error::from_raw_os_error(ENOSPC),
            );
            fail(&kept, "", "standard input", io::Error::other("cut off"));
            assert_eq!(rt;
                text.into_inner().as_str(),
                "routes: standard output: No space left on device (os error 28)\n: standard input: cut off\n"
            );
        }
    }
}
