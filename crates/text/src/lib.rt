// Text and numbers, pushed onto a text of fixed room, or put into an output that the caller lends, from a place on.
//
// Each writer writes all of its bytes, or none where they have no room. No writer has a precondition: the place may lie past the end of the output.
#![tactic(auto)]

ghost use Rattle.std.specs.Prelude.{◌≡◌, ◌++◌};
ghost use Rattle.text.specs.Text.{decimal, stop_line, last_line};
ghost use Rattle.text.specs.Adds.{added};
ghost use Rattle.text.specs.Puts.{Puts};

use arrayvec::ArrayVec;
use itoa::Buffer;

// The bytes of the longest run that a program takes.
pub const MAX_INPUT: usize = 65536;

// ---- onto a text

// Bytes.
#[tactic(auto, unfolding(crate::specs::Adds::added))]
pub fn push_text<const N: usize>(text: &mut ArrayVec<u8, N>, bytes: &[u8])
    ensures { text.new.items ≡ added N bytes.now text.old.items }
{
    // An error says that there is no room, and then the text is as it stood.
    let _added = text.try_extend_from_slice(bytes);
}

// Bytes and a number in decimal.
#[tactic(auto, using(crate::proofs::Adding::pushes, crate::proofs::Digits::written_decimal), unfolding(crate::specs::Adds::added))]
pub fn push_number<const N: usize>(text: &mut ArrayVec<u8, N>, before: &[u8], n: usize)
    ensures { text.new.items ≡ added N (before.now ++ decimal n) text.old.items }
{
    let mut buffer = Buffer::new();
    let digits = buffer.format(n).as_bytes();
    if before.len() + digits.len() <= text.remaining_capacity() {
        push_text(text, before);
        push_text(text, digits);
    }
}

// The line of a refusal, by its number and its place: this crate knows no faults, as arguments of programs need it without networks.
#[tactic(auto, using(crate::proofs::Adding::pushes), unfolding(crate::specs::Text::stop_line, crate::specs::Text::field))]
pub fn push_stop<const N: usize>(text: &mut ArrayVec<u8, N>, number: u8, place: usize)
    ensures { text.new.items ≡ added N (stop_line number place) text.old.items }
{
    let mut line: ArrayVec<u8, 64> = ArrayVec::new();
    push_number(&mut line, b"stopped ", usize::from(number));
    push_number(&mut line, b" at ", place);
    push_text(&mut line, b"\n");
    push_text(text, &line);
}

// ---- into an output, from a place on; the answer is the place after the bytes, and where they have no room the place that was given

// Bytes.
#[tactic(auto, unfolding(crate::specs::Puts::put_at, crate::specs::Puts::place_after))]
pub fn put_text(text: &[u8], out: &mut [u8], at: usize) -> usize
    ensures { Puts text.now out.old out.new at result }
{
    if at <= out.len() && text.len() <= out.len() - at {
        let end = at + text.len();
        out[at..end].copy_from_slice(text);
        return end;
    }
    at
}

// Bytes and a number in decimal.
#[tactic(auto, using(crate::proofs::Putting::puts, crate::proofs::Digits::written_decimal), unfolding(crate::specs::Puts::put_at, crate::specs::Puts::place_after))]
pub fn put_number(text: &[u8], n: usize, out: &mut [u8], at: usize) -> usize
    ensures { Puts (text.now ++ decimal n) out.old out.new at result }
{
    let mut buffer = Buffer::new();
    let digits = buffer.format(n).as_bytes();
    if at <= out.len() && text.len() + digits.len() <= out.len() - at {
        let next = at + text.len();
        out[at..next].copy_from_slice(text);
        return put_text(digits, out, next);
    }
    at
}

// The line of a refusal, number and place; nothing where the number is 0.
#[tactic(auto, using(crate::proofs::Adding::pushes, crate::proofs::Stopping::stop_most), unfolding(crate::specs::Puts::put_at, crate::specs::Puts::place_after, crate::specs::Text::last_line))]
pub fn put_stop(number: u8, place: usize, out: &mut [u8], at: usize) -> usize
    ensures { Puts (last_line number place) out.old out.new at result }
{
    if number == 0 {
        return at;
    }
    let mut line: ArrayVec<u8, 64> = ArrayVec::new();
    push_stop(&mut line, number, place);
    put_text(&line, out, at)
}
