// A recording of all calls, with what the files read as and what was sent by now.
ghost use Rattle.std.specs.Prelude.{◌≡◌, ◌<◌, ◌≤◌, ◌^◌, ℕ, [], ◌∷◌, ◌++◌, List, length, IfOk, OnOk, OnErr, reverse};
ghost use Rattle.vault_disk.specs.Log.{reads, says, said_after, left_by};
ghost use Rattle.vault_disk.specs.Memory.{with_sent, sent_of};
ghost use Rattle.vault_disk.specs.Stops.{stop_image};
ghost use Rattle.vault_disk.specs.Stored.{bytes_of};

use crate::call::{Bytes, Call};
use crate::contents::Contents;
use crate::stop::Stop;
use std::alloc::{AllocError, Global};
use std::marker::Model;

#[derive(Drop)]
pub(crate) struct Recording {
    alloc: Global,
    first: Contents,
    calls: Vec<Call>,
    files: Contents,
    sent: Vec<u8>,
}

impl Model for Recording {
    ghost use Rattle.std.specs.Prelude.{◌≡◌, ℕ};
    ghost use Rattle.vault_disk.specs.Log.{Log, reads, says};
    ghost use Rattle.vault_disk.specs.Stored.{bytes_of};

    ghost Value = { Log };

    ghost view = { λ r. record { first = r.first; calls = r.calls.items } };

    ghost invariant = { λ r. ((f : ℕ) → bytes_of r.files f ≡ reads (record { first = r.first; calls = r.calls.items }) f) × (r.sent.items ≡ says (record { first = r.first; calls = r.calls.items })) };
}

impl Recording {
    // A recording without calls.
    pub(crate) fn of(alloc: Global, first: Contents) -> Result<Recording, AllocError>
        ensures { IfOk result (λ r. r ≡ record { first = first; calls = [] }) }
    {
        let files = first.copy()?;
        Ok(Recording {
            alloc,
            first,
            calls: Vec::new(alloc),
            files,
            sent: Vec::new(alloc),
        })
    }

    pub(crate) fn alloc(&self) -> Global {
        self.alloc
    }

    pub(crate) fn calls(&self) -> usize
        ensures { result ≡ length self.now.calls }
    {
        self.calls.len()
    }

    pub(crate) fn bytes(&self, file: u32) -> &[u8]
        ensures { result.now ≡ reads self.now file }
    {
        self.files.get(file)
    }

    pub(crate) fn sent(&self) -> &[u8]
        ensures { result.now ≡ says self.now }
    {
        &self.sent
    }

    // Records a call that sends nothing, and does to the files what it does.
    pub(crate) fn keep(&mut self, call: Call) -> Result<(), AllocError>
        requires { (sent : List ℕ) → with_sent call sent ≡ sent }
        ensures ok { OnOk result (self.new ≡ record self.old { calls = self.old.calls ++ call ∷ [] }) }
        ensures err { OnErr result (self.new ≡ self.old) }
    {
        self.calls.reserve(1)?;
        self.files.apply(&call)?;
        self.calls.push_reserved(call);
        Ok(())
    }

    // Records a send.
    pub(crate) fn keep_sent(&mut self, bytes: &[u8]) -> Result<(), AllocError>
        ensures ok { OnOk result (self.new ≡ record self.old { calls = self.old.calls ++ Call.Sent bytes.now ∷ [] }) }
        ensures err { OnErr result (self.new ≡ self.old) }
    {
        let copy = Bytes::copy_of(self.alloc, bytes)?;
        self.calls.reserve(1)?;
        self.sent.extend_from_slice(bytes)?;
        self.calls.push_reserved(Call::Sent(copy));
        Ok(())
    }

    // The bytes sent in the first so many calls.
    pub(crate) fn sent_after(&self, call: usize) -> &[u8]
        requires { call ≤ length self.now.calls }
        ensures { result.now ≡ said_after self.now call }
    {
        &self.sent[..sent_length(&self.calls[..call])]
    }

    // A recording that begins with what this stop leaves after so many calls.
    pub(crate) fn stopped(&self, call: usize, stop: Stop) -> Result<Recording, AllocError>
        requires { call ≤ length self.now.calls }
        ensures none { IfOk result (λ r. r.calls ≡ []) }
        ensures left { IfOk result (λ r. (f : ℕ) → bytes_of r.first f ≡ left_by stop self.now call f) }
    {
        let left = left_after(self.alloc, &self.first, &self.calls[..call], stop)?;
        Recording::of(self.alloc, left)
    }
}

fn sent_length(calls: &[Call]) -> usize
    requires { length (sent_of (reverse calls.now)) < 2 ^ 64 }
    ensures { result ≡ length (sent_of (reverse calls.now)) }
{
    let mut total = 0;
    for call in calls {
        if let Call::Sent(bytes) = call {
            total += bytes.as_slice().len();
        }
    }
    total
}

fn left_after(
    alloc: Global,
    first: &Contents,
    calls: &[Call],
    stop: Stop,
) -> Result<Contents, AllocError>
    ensures { IfOk result (λ c. (f : ℕ) → bytes_of c f ≡ stop_image stop (bytes_of first.now) (reverse calls.now) f) }
{
    let mut seen = first.copy()?;
    let mut left = first.copy()?;
    for call in calls {
        stop.pass(alloc, call, &seen, &mut left)?;
        seen.apply(call)?;
    }
    Ok(left)
}
