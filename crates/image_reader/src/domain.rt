// Kind 3: the domains.
ghost use Rattle.std.specs.Prelude.{◌≡◌, ◌+◌, ◌≤◌, length, take, drop};
ghost use Rattle.image_format.specs.Domain.{all_rights, domain_of, domains_of};
ghost use Rattle.image_reader.specs.Private.{domain_answer, domain_rows, domains_answer};

use crate::chunk::exact;
use words::refusal::Refusal;

// The rows of all domains, and the place after their chunks.
#[derive(Clone, Copy)]
pub struct Domains {
    pub stacks: [u8; 8],
    pub rights: [u8; 128],
    pub next: usize,
}

// Whether the n bytes at a place are 0-15.
fn are_rights(image: &[u8], at: usize, n: usize) -> bool
    requires { at + n ≤ length image.now }
    ensures { result ≡ all_rights (take n (drop at image.now)) }
{
    image[at..at + n].iter().all(|&right| right <= 15)
}

// The chunk of kind 3 at a place: the stack segment, with rights that are judged.
fn domain_chunk(image: &[u8], at: usize, segments: u8) -> Result<u8, Refusal>
    requires { segments ≤ 16 }
    ensures { domain_answer image.now at segments result ≡ domain_of segments (drop at image.now) }
{
    exact(image, at, 3, 1 + segments as u16)?;
    let stack = image[at + 4];
    if segments <= stack {
        return Err(Refusal::BadField);
    }
    if !are_rights(image, at + 5, segments as usize) {
        return Err(Refusal::BadField);
    }
    Ok(stack)
}

// The chunks of kind 3 from a place on.
pub fn domain_chunks(
    image: &[u8],
    start: usize,
    count: u8,
    segments: u8,
) -> Result<Domains, Refusal>
    requires { (count ≤ 8) × (segments ≤ 16) }
    ensures { domains_answer image.now result ≡ domain_rows (domains_of count segments (drop start image.now)) }
{
    let n = segments as usize;
    let mut stacks = [0; 8];
    let mut rights = [0; 128];
    let mut at = start;
    for i in 0..count as usize {
        stacks[i] = domain_chunk(image, at, segments)?;
        let from = at + 5;
        at = from + n;
        rights[16 * i..16 * i + n].copy_from_slice(&image[from..at]);
    }
    Ok(Domains {
        stacks,
        rights,
        next: at,
    })
}
