// The C call: a run and a lent output in, the resulting image out.
//
// The contract goes by `call_of` (specs/Calling.antt) and holds for any run and any output. From C: include/gerqalli.h.
#![tactic(auto)]

ghost use Rattle.std.specs.Prelude.{◌≡◌};
ghost use Rattle.firmware.specs.Calling.{call_of, Answers};
ghost use Rattle.firmware.specs.Inner.{answer_of};

use network::Fault;
use records::Stop;

// The longest run.
const MAX_RUN: usize = 1048576;

// A refusal at place 0.
fn at_start(fault: Fault) -> Stop
    ensures { result ≡ record { fault = fault; place = 0 } }
{
    Stop { fault, place: 0 }
}

// Runs an image and events and writes the resulting image: its length, or the refusal, and then nothing is written.
#[tactic(auto, using(crate::proofs::Calling::answers_long))]
fn run_image(run: &[u8], out: &mut [u8]) -> Result<usize, Stop>
    ensures { Answers (call_of run.now out.old) (answer_of result) out.new }
{
    if MAX_RUN < run.len() {
        return Err(at_start(Fault::Range));
    }
    // A network's words on the stack (no heap).
    let mut net = [0u32; memory::WORDS];
    running::run_into(&mut net, run)?.finished()?;
    image::write_image(&net, out).map_err(at_start)
}

// Runs an image and events and writes the resulting image. Answers 32 times its length; or 32 times the place plus the number of the refusal, and
// then nothing is written. A run above 1,048,576 bytes is refused as 3 at place 0, an output shorter than the image, last, as 6 at place 0.
#[tactic(auto, using(crate::proofs::Calling::call_small), unfolding(crate::specs::Inner::answer_of, crate::specs::Calling::refused_answer))]
#[unsafe(no_mangle)]
pub extern "C" fn gerqalli_run(run: &[u8], out: &mut [u8]) -> u64
    ensures { Answers (call_of run.now out.old) result out.new }
{
    // `as`, since a u64 is not From a usize.
    match run_image(run, out) {
        Ok(used) => 32 * used as u64,
        Err(stop) => 32 * stop.place as u64 + u64::from(u8::from(stop.fault)),
    }
}
