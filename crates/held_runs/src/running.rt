// Runs and stretches of the record that bytes hold.
ghost use Rattle.std.specs.Prelude.{◌≡◌, ◌+◌};
ghost use Rattle.words.specs.Refusal.{status};
ghost use Rattle.runs.specs.Run.{run_from, judged, called_of, end_by};
ghost use Rattle.soundness.specs.Sound.{frames_test, sound_test};
ghost use Rattle.held_runs.specs.Private.{UnusedFree};
ghost use Rattle.held_runs.specs.Runs.{end_code, ended_bytes, ran_on, ran_code, ran_bytes, ran_words};

use layout_soundness::layout_sound;
use runs::outcome::{End, Outcome, Reason};
use runs::run_judged;
use snapshot_reader::{form_number, record_or_empty};
use snapshot_writer::put_record;
use soundness::frames::frame_sound;
use soundness::registers::{pointers_sound, registers_sound};
use state::record::Machine;
use words::refusal::Refusal;

// How a run ended, with any number as its reason, and its count, as one number.
pub fn code<N: Reason>(count: u16, end: End<N>) -> u32
    ensures { result ≡ end_code (end_by N.number end) + count }
{
    match end {
        End::Halted => count as u32,
        End::Faulted(refusal) => 0x1000000 + refusal.number() as u32 * 0x10000 + count as u32,
        End::Spent => 0x2000000 + count as u32,
        End::Crossed => 0x3000000 + count as u32,
        End::Refused(refusal) => 0x4000000 + refusal.number() as u32 * 0x10000 + count as u32,
    }
}

// Puts the record of a run back, unless it was refused.
pub fn keep<N: Reason>(bytes: &mut [u8], m: Machine, end: End<N>)
    ensures { bytes.new ≡ ended_bytes bytes.old m (end_by N.number end) }
{
    match end {
        End::Refused(refusal) => {}
        other => put_record(m, bytes),
    }
}

// Whether the frames are sound; those that are not in use are known to be zeros.
fn frames_sound(m: Machine) -> bool
    requires { UnusedFree m }
    ensures { result ≡ frames_test m.layout.domains m.depth m.frames }
{
    let domains = m.layout.domains;
    let used = m.depth as usize;
    (0..used).all(|i| frame_sound(domains, m.frames[i]))
}

// Whether a record is sound whose frames that are not in use are zeros.
#[tactic(auto, unfolding(soundness::specs::Sound::sound_test))]
fn sound(m: Machine) -> bool
    requires { UnusedFree m }
    ensures { result ≡ sound_test m }
{
    layout_sound(m.layout)
        && registers_sound(m.layout.domains, m.registers)
        && pointers_sound(m.pointers)
        && frames_sound(m)
        && recent::registers::registers_sound(m.depth, m.frames, m.recent)
}

// What is judged first, as every call on a machine does.
#[tactic(auto, unfolding(runs::specs::Run::judged))]
fn judge(m: Machine, words: &[u32]) -> Result<(), Refusal>
    requires { UnusedFree m }
    ensures { status result ≡ judged m words.now }
{
    if !sound(m) {
        return Err(Refusal::NotSound);
    }
    if words.len() < 8192 {
        return Err(Refusal::MemoryTooShort);
    }
    Ok(())
}

// At most limit instructions, or a stretch, of the record that bytes hold.
pub fn run_held(bytes: &mut [u8], words: &mut [u32], limit: u16, stretch: bool) -> u32
    ensures code { result ≡ ran_code (ran_on (called_of (run_from stretch limit 0)) bytes.old words.old) }
    ensures bytes { bytes.new ≡ ran_bytes bytes.old (ran_on (called_of (run_from stretch limit 0)) bytes.old words.old) }
    ensures words { words.new ≡ ran_words words.old (ran_on (called_of (run_from stretch limit 0)) bytes.old words.old) }
{
    if let Err(refusal) = form_number(bytes) {
        return code(0, End::Refused(refusal));
    }
    let m = record_or_empty(bytes);
    if let Err(refusal) = judge(m, words) {
        return code(0, End::Refused(refusal));
    }
    let o = run_judged(m, words, limit, stretch);
    let end = o.end;
    keep(bytes, o.machine, end);
    code(o.count, end)
}
