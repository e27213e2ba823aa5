//! Where a damaged list's gate stands.

ghost use Rattle.std.specs.Prelude.{◌≡◌, ◌≤◌, ◌-◌, ◌^◌, length, min};
ghost use Rattle.qz_journal.specs.Journals.{gate_behind};
ghost use Rattle.qz_loading.specs.Reading.{gate_of};

use qz_text::Bytes;

/// The place of the gate behind a journal's frames of these payloads.
fn gate_behind(payloads: &[Bytes]) -> u64
    ensures { result ≡ min (gate_behind payloads.now) (2 ^ 64 - 1) }
{
    let mut gate: u64 = 8;
    for payload in payloads {
        let length = payload.as_slice().len() as u64;
        gate = gate.saturating_add(5).saturating_add(length);
    }
    gate
}

/// The place of the gate of a payload, the one at this place of these, from 1.
pub(crate) fn gate_of(payloads: &[Bytes], nth: u64) -> u64
    requires first { 1 ≤ nth }
    requires last { nth ≤ length payloads.now }
    ensures { result ≡ gate_of payloads.now nth }
{
    gate_behind(&payloads[..nth as usize - 1])
}
