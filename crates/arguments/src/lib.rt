// Arguments of programs, each in the bytes of its text: the flag -r, a number in decimal, and a base as dotted decimal.
//
// Contracts go by specs/Arguments.antt and hold for any bytes. No public function has a precondition.
#![tactic(auto)]

ghost use Rattle.std.specs.Prelude.{◌≡◌, position};
ghost use Rattle.arguments.specs.Arguments.{is_flag_of, is_dot, read_count_of, read_base_of};
ghost use Rattle.arguments.specs.Inner.{CutAtDot, byte_of, FirstByte};

// ---- -r

// Whether an argument is -r.
#[tactic(auto, unfolding(crate::specs::Arguments::is_flag_of))]
pub fn is_flag(text: &[u8]) -> bool
    ensures { result ≡ is_flag_of text.now }
{
    text == b"-r".as_slice()
}

// ---- N

// Reads an argument N: a number in decimal without zeros in front; one too large for 32 bits counts as the largest of 32 bits.
#[tactic(auto, using(crate::proofs::Counting::digits), unfolding(crate::specs::Arguments::read_count_of, crate::specs::Arguments::no_number_of, crate::specs::Arguments::capped))]
pub fn read_count(text: &[u8]) -> Option<u32>
    ensures { result ≡ read_count_of text.now }
{
    if matches!(text, [] | [b'0', _, ..]) {
        return None;
    }
    let mut n: u32 = 0;
    for &byte in text {
        if !byte.is_ascii_digit() {
            return None;
        }
        n = n.saturating_mul(10).saturating_add(u32::from(byte - b'0'));
    }
    Some(n)
}

// ---- BASE

// The place of the first dot.
fn dot_place(text: &[u8]) -> Option<usize>
    ensures { result ≡ position is_dot text.now }
{
    text.iter().position(|&byte| byte == b'.')
}

// The bytes before the first dot, and those after it.
#[tactic(auto, unfolding(crate::specs::Arguments::before_dot, crate::specs::Arguments::after_dot))]
fn at_dot(text: &[u8]) -> Option<(&[u8], &[u8])>
    ensures { CutAtDot text.now result }
{
    let dot = dot_place(text)?;
    Some((&text[..dot], &text[dot + 1..]))
}

// A number of at most 255.
#[tactic(auto, unfolding(crate::specs::Arguments::byte_then))]
fn read_byte(text: &[u8]) -> Option<u8>
    ensures { result ≡ byte_of text.now }
{
    u8::try_from(read_count(text)?).ok()
}

// The number before the first dot, and the bytes after the dot.
#[tactic(auto, using(crate::proofs::Dots::no_dot, crate::proofs::Dots::no_byte, crate::proofs::Dots::one_byte))]
fn first_byte(text: &[u8]) -> Option<(u8, &[u8])>
    ensures { FirstByte text.now result }
{
    let (number, rest) = at_dot(text)?;
    Some((read_byte(number)?, rest))
}

// Reads an argument BASE: four numbers of at most 255 in decimal without zeros in front, with dots between, the first the most significant byte.
#[tactic(auto, using(crate::proofs::Dots::last_none, crate::proofs::Dots::last_byte), unfolding(crate::specs::Arguments::read_base_of))]
pub fn read_base(text: &[u8]) -> Option<u32>
    ensures { result ≡ read_base_of text.now }
{
    let (a, rest) = first_byte(text)?;
    let (b, rest) = first_byte(rest)?;
    let (c, rest) = first_byte(rest)?;
    Some(u32::from_be_bytes([a, b, c, read_byte(rest)?]))
}
