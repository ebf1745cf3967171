// An entry of the recording: a head, and a body, which is the call's input and then the submitted text. docs/RECORDING.md has the format.
ghost use Rattle.std.specs.Prelude.{◌<◌};

use line::text::MAX_LOGICAL;
use octets::number::{four_at, two_at};

// Where the fields of a head stand, and its length.
const TAG: usize = 0;

const FIRST: usize = 1;

const SECOND: usize = 5;

const INPUT: usize = 9;

const ANSWER: usize = 11;

const TEXT: usize = 15;

// What stands before it is in the digest.
const DIGEST: usize = 16;

pub const HEAD: usize = 20;

pub const LONGEST_INPUT: usize = 512;

// With each byte the digest is multiplied by FACTOR; it stays below MODULUS.
const FACTOR: u64 = 257;

const MODULUS: u64 = 2147483647;

// A head's bytes, and what they say.
// Kept so: both, since the digest is made of the bytes.
#[derive(Clone, Copy)]
pub struct Head {
    bytes: [u8; HEAD],
    pub tag: u8,
    pub first: u32,
    pub second: u32,
    pub input_length: usize,
    pub answer: u32,
    pub text_length: u8,
    pub digest: u32,
}

impl Head {
    pub fn read(bytes: [u8; HEAD]) -> Head {
        Head {
            bytes,
            tag: bytes[TAG],
            first: four_at(&bytes, FIRST),
            second: four_at(&bytes, SECOND),
            input_length: two_at(&bytes, INPUT),
            answer: four_at(&bytes, ANSWER),
            text_length: bytes[TEXT],
            digest: four_at(&bytes, DIGEST),
        }
    }
}

// The digest of what gave h and then these bytes.
// Kept so: a cast, since no `From` leads from u64 to u32, and what is below MODULUS fits.
fn digest_after(h: u32, bytes: &[u8]) -> u32
    requires { h < MODULUS }
    ensures { result < MODULUS }
{
    bytes.iter().fold(
        h,
        |d, b| ((u64::from(d) * FACTOR + u64::from(*b)) % MODULUS) as u32,
    )
}

// The digest of an entry whose call has left this record.
pub fn digest(head: &Head, input: &[u8], text: &[u8; MAX_LOGICAL], rec: &[u8]) -> u32 {
    let of_head = digest_after(0, &head.bytes[..DIGEST]);
    let of_input = digest_after(of_head, input);
    let of_text = digest_after(of_input, &text[..usize::from(head.text_length)]);
    digest_after(of_text, rec)
}
