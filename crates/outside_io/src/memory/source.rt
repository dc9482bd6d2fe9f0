//! A source in memory.
ghost use Rattle.std.specs.Prelude.{◌≡◌, ◌≤◌, ◌+◌, ◌-◌, min, length, drop, take, Some, IfOk, OnErr, if◌then◌else◌};
ghost use Rattle.std.specs.Result.{is_err};
ghost use Rattle.std.specs.Io.KnownBytes.{ReadConsumes};
ghost use Rattle.outside_io.specs.Faults.{HasCause};
ghost use Rattle.outside_io.specs.Calls.{counted, is_listed, at_least_one};

use crate::calls::{bounded_from_one, lists, next_count};
use crate::source::{Failed, Source};

/// Bytes that are read in pieces. A new one has `at`, `calls` and `faults` 0.
#[derive(Drop)]
pub struct MemSource {
    pub bytes: Vec<u8>,
    /// At most how many bytes each call gives, but at least one while any are left and the buffer
    /// has room. Calls past the list give as many as fit.
    pub cuts: Vec<u32>,
    /// The numbers of the calls that fail.
    pub fail: Vec<u64>,
    /// How many bytes were read.
    pub at: u64,
    pub calls: u64,
    pub faults: u64,
}

impl Source for MemSource {
    ghost left = { λ s. Some (drop s.at s.bytes.items) };

    ghost faults = { λ s. s.faults };

    fn read(&mut self, buf: &mut [u8]) -> Result<usize, Failed>
        ensures bound { IfOk result (λ n. n ≤ length buf.old) }
        ensures bytes { ReadConsumes (Some (drop self.old.at self.old.bytes.items)) (Some (drop self.new.at self.new.bytes.items)) result buf.new }
        ensures cause { HasCause self.old.faults self.new.faults result }
        // It fails exactly where the list says so.
        ensures fails { is_err result ≡ is_listed self.old.fail.items self.old.calls }
        ensures count { IfOk result (λ n. n ≡ at_least_one self.old.cuts.items self.old.calls (min (length self.old.bytes.items - self.old.at) (length buf.old))) }
        ensures place { IfOk result (λ n. self.new.at ≡ self.old.at + n) }
        ensures stays { OnErr result (self.new.at ≡ self.old.at) }
        ensures calls { self.new.calls ≡ counted self.old.calls }
        ensures faults { self.new.faults ≡ (if is_err result then counted self.old.faults else self.old.faults) }
        ensures kept { self.new ≡ record self.old { at = self.new.at; calls = self.new.calls; faults = self.new.faults } }
    {
        let call = self.calls;
        self.calls = next_count(call);
        if lists(&self.fail, call) {
            self.faults = next_count(self.faults);
            return Err(Failed);
        }
        let left = rest_of(&self.bytes, self.at);
        let count = bounded_from_one(&self.cuts, call, left.len().min(buf.len()));
        copy_to_front(buf, &left[..count]);
        self.at += count as u64;
        Ok(count)
    }
}

// The bytes from a place on.
fn rest_of(bytes: &[u8], at: u64) -> &[u8]
    ensures { result.now ≡ drop at bytes.now }
{
    let start = at as usize;
    if start < bytes.len() {
        &bytes[start..]
    } else {
        &[]
    }
}

fn copy_to_front(buf: &mut [u8], bytes: &[u8])
    requires { length bytes.now ≤ length buf.old }
    ensures { take (length bytes.now) buf.new ≡ bytes.now }
{
    buf[..bytes.len()].copy_from_slice(bytes);
}
