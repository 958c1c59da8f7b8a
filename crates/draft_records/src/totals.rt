//! Sums of records, by which the length of their text is told.
ghost use Rattle.std.specs.Prelude.{◌≡◌, ◌≤◌, ◌^◌, ℕ, List, length, IfOk};
ghost use Rattle.parts.specs.Parts.{ProfileText, ResourceBegins, ScopeBegins};
ghost use Rattle.parts.specs.Sums.{no_sums, sum_of, with_sum};
ghost use Rattle.draft_records.specs.Running.{AreFew, sums_in};

use crate::running::{RunningSums, plus_profile, plus_resource, plus_scope, sum};
use pb_wire::NoMemory;
use std::marker::Model;

// The most bytes of all records, and of one text.
const MOST_BYTES: u64 = 0x0800_0000_0000_0000;

const MOST_TEXT: u64 = 0x0400_0000_0000_0000;

/// The sums of records, seen as those of their parts. They come to 2^59 bytes at most.
#[derive(Clone, Copy, Debug)]
pub struct Totals {
    running: RunningSums,
}

impl Model for Totals {
    ghost use Rattle.std.specs.Prelude.{◌≤◌, ◌^◌};
    ghost use Rattle.parts.specs.Sums.{Sums, sum_of};
    ghost use Rattle.draft_records.specs.Running.{running_of, sums_in};

    ghost Value = { Sums };

    ghost view = { λ t. sums_in t.running };

    ghost inverse = { λ s. record { running = running_of s } };

    ghost invariant = { λ t. sum_of (sums_in t.running) ≤ 2 ^ 59 };
}

// These sums, if they do not come to too much.
fn within_most(running: RunningSums) -> Result<Totals, NoMemory>
    requires { AreFew (sums_in running) }
    ensures { IfOk result (λ t. t ≡ sums_in running) }
{
    if sum(&running) > MOST_BYTES {
        return Err(NoMemory);
    }
    Ok(Totals { running })
}

impl Totals {
    // The sums of no records.
    pub(crate) fn none() -> Totals
        ensures { result ≡ no_sums }
    {
        Totals {
            running: RunningSums {
                closed: 0,
                resource: None,
                inner: 0,
                scope: None,
                profiles: 0,
            },
        }
    }

    /// The bytes of the records' text.
    #[tactic(auto, using(crate::proofs::Bounds::few_of))]
    pub fn total(&self) -> u64
        ensures is { result ≡ sum_of self.now }
        ensures most { result ≤ 2 ^ 59 }
    {
        sum(&self.running)
    }

    /// The sums with one more profile, whose text has so many bytes. It takes no memory.
    ///
    /// # Errors
    ///
    /// Out of memory, where a text has more than 2^58 bytes or the records would come to more than 2^59.
    pub fn with_profile(self, len: u64) -> Result<Totals, NoMemory>
        ensures { IfOk result (λ s. (p : List ℕ) → length p ≡ len → s ≡ with_sum self (ProfileText p)) }
    {
        if len > MOST_TEXT {
            return Err(NoMemory);
        }
        let totals = within_most(plus_profile(&self.running, len))?;
        Ok(totals)
    }

    /// The sums with one more scope record, whose head has so many bytes in front of the profiles and after them. It takes no
    /// memory.
    ///
    /// # Errors
    ///
    /// Out of memory, where a text has more than 2^58 bytes or the records would come to more than 2^59.
    pub fn with_scope(self, front: u64, back: u64) -> Result<Totals, NoMemory>
        ensures { IfOk result (λ s. (f : List ℕ) → (b : List ℕ) → length f ≡ front → length b ≡ back → s ≡ with_sum self (ScopeBegins f b)) }
    {
        if front > MOST_TEXT || back > MOST_TEXT {
            return Err(NoMemory);
        }
        let totals = within_most(plus_scope(&self.running, front + back))?;
        Ok(totals)
    }

    /// The sums with one more resource record, whose head has so many bytes in front of the scope records and after them. It
    /// takes no memory.
    ///
    /// # Errors
    ///
    /// Out of memory, where a text has more than 2^58 bytes or the records would come to more than 2^59.
    pub fn with_resource(self, front: u64, back: u64) -> Result<Totals, NoMemory>
        ensures { IfOk result (λ s. (f : List ℕ) → (b : List ℕ) → length f ≡ front → length b ≡ back → s ≡ with_sum self (ResourceBegins f b)) }
    {
        if front > MOST_TEXT || back > MOST_TEXT {
            return Err(NoMemory);
        }
        let totals = within_most(plus_resource(&self.running, front + back))?;
        Ok(totals)
    }
}
