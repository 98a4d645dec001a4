// When a layout is sound.

#![tactic(auto)]

ghost use Rattle.std.specs.Prelude.{◌≡◌, ◌<◌, get_or};
ghost use Rattle.layout_soundness.specs.SoundLayout.{all_from, segment_test, stack_test, rights_test, start_test, gate_test, gates_test, layout_test};

use references::flag::{Flag, allows};
use state::bases::words_in;
use state::record::{Layout, Start};

#[tactic(auto, unfolding(crate::specs::SoundLayout::segment_test))]
fn segment_sound(segments: u8, domains: u8, i: usize, length: u16, gates: u16, domain: u8) -> bool
    ensures { result ≡ segment_test segments domains i length gates domain }
{
    if i < segments as usize {
        1 <= length && length <= 4096 && gates <= length && domain < domains
    } else {
        length == 0 && gates == 0 && domain == 0
    }
}

#[tactic(auto, using(crate::proofs::All::turns))]
fn segments_sound<'a>(
    segments: u8,
    domains: u8,
    lengths: &'a [u16; 16],
    gates: &'a [u16; 16],
    gatedomains: &'a [u8; 16],
) -> bool
    ensures { result ≡ all_from 16 0 (λ i. segment_test segments domains i (get_or lengths.now i 0) (get_or gates.now i 0) (get_or gatedomains.now i 0)) }
{
    for i in 0..16 {
        if !segment_sound(segments, domains, i, lengths[i], gates[i], gatedomains[i]) {
            return false;
        }
    }
    true
}

#[tactic(auto, unfolding(crate::specs::SoundLayout::stack_test))]
fn stack_sound(segments: u8, domains: u8, i: usize, stack: u8) -> bool
    ensures { result ≡ stack_test segments domains i stack }
{
    if i < domains as usize {
        stack < segments
    } else {
        stack == 0
    }
}

#[tactic(auto, using(crate::proofs::All::turns))]
fn stacks_sound(segments: u8, domains: u8, stacks: &[u8; 8]) -> bool
    ensures { result ≡ all_from 8 0 (λ i. stack_test segments domains i (get_or stacks.now i 0)) }
{
    for (i, &stack) in stacks.iter().enumerate() {
        if !stack_sound(segments, domains, i, stack) {
            return false;
        }
    }
    true
}

#[tactic(auto, unfolding(crate::specs::SoundLayout::rights_test))]
fn right_sound(segments: u8, domains: u8, i: u8, rights: u8) -> bool
    ensures { result ≡ rights_test segments domains i rights }
{
    if i / 16 < domains && i % 16 < segments {
        rights <= 15
    } else {
        rights == 0
    }
}

// There is no early end, so that the compiler takes many rights at a time.
fn rights_sound(segments: u8, domains: u8, rights: &[u8; 128]) -> bool
    ensures { result ≡ all_from 128 0 (λ i. rights_test segments domains i (get_or rights.now i 0)) }
{
    let mut all = true;
    for i in 0..128 {
        all &= right_sound(segments, domains, i, rights[i as usize]);
    }
    all
}

#[tactic(auto, unfolding(crate::specs::SoundLayout::start_test))]
fn start_sound(segments: u8, domains: u8, start: Start) -> bool
    ensures { result ≡ start_test segments domains start }
{
    start.domain < domains && start.segment < segments && start.word <= 4095
}

// Whether segment i has no gates, or their domain has E on it.
#[tactic(auto, unfolding(crate::specs::SoundLayout::gate_test, references::specs::Static::rights_of, references::specs::Flag::has))]
fn gate_sound(rights: &[u8; 128], i: usize, gates: u16, domain: u8) -> bool
    requires { i < 16 }
    ensures { result ≡ gate_test rights.now i gates domain }
{
    gates == 0 || domain < 8 && allows(rights[domain as usize * 16 + i], Flag::Execute)
}

// Whether no gate is dead.
#[tactic(auto, using(crate::proofs::All::turns), unfolding(crate::specs::SoundLayout::gates_test))]
pub fn gates_sound<'a>(
    gates: &'a [u16; 16],
    gatedomains: &'a [u8; 16],
    rights: &'a [u8; 128],
) -> bool
    ensures { result ≡ gates_test gates.now gatedomains.now rights.now }
{
    for i in 0..16 {
        if !gate_sound(rights, i, gates[i], gatedomains[i]) {
            return false;
        }
    }
    true
}

#[tactic(auto, unfolding(crate::specs::SoundLayout::layout_test, crate::specs::SoundLayout::ranges_test))]
pub fn layout_sound(l: Layout) -> bool
    ensures { result ≡ layout_test l }
{
    1 <= l.segments
        && l.segments <= 16
        && 1 <= l.domains
        && l.domains <= 8
        && segments_sound(l.segments, l.domains, &l.lengths, &l.gates, &l.gatedomains)
        && words_in(&l.lengths) <= 8192
        && stacks_sound(l.segments, l.domains, &l.stacks)
        && rights_sound(l.segments, l.domains, &l.rights)
        && start_sound(l.segments, l.domains, l.start)
        && gates_sound(&l.gates, &l.gatedomains, &l.rights)
}
