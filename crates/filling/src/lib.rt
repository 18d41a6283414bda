// Outputs filled from the front or from a place on: what a writer leaves (specs/), its laws (proofs/), and bytes copied.
#![tactic(auto)]

ghost use Rattle.filling.specs.Filling.{Wrote, copied};

// Copies the bytes to the front of the output and answers how many they are. In an output shorter than they are nothing is written, and the answer is 0.
// It stays 0 and does not become a Result: the call could not fail, so callers have no error to name.
#[tactic(auto, unfolding(crate::specs::Filling::copied))]
pub fn copy(bytes: &[u8], out: &mut [u8]) -> usize
    ensures { Wrote (copied bytes.now out.old) out.old out.new result }
{
    if out.len() < bytes.len() {
        return 0;
    }
    out[..bytes.len()].copy_from_slice(bytes);
    bytes.len()
}
