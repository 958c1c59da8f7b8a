//! Running sums.
ghost use Rattle.std.specs.Prelude.{◌≡◌, ◌+◌, ◌≤◌, ◌^◌};
ghost use Rattle.parts.specs.Sums.{scope_size, sum_of};
ghost use Rattle.draft_records.specs.Running.{AreFew, IsFew, profile_added, resource_added, scope_added, sums_in};

use pb_wire::long_len;

/// Running sums, in bytes: the closed resource records; the head of the open one, which is the last; the closed scope records in
/// it; the head of the open scope record; and the profiles in it.
#[derive(Clone, Copy, Debug)]
pub(crate) struct RunningSums {
    pub closed: u64,
    pub resource: Option<u64>,
    pub inner: u64,
    pub scope: Option<u64>,
    pub profiles: u64,
}

// The bytes of an open scope record.
#[tactic(auto, using(schema_laws::proofs::Onto::varint_at_most))]
fn scope_len(scope: Option<u64>, profiles: u64) -> u64
    requires few { IsFew scope }
    requires small { profiles ≤ 2 ^ 60 }
    ensures is { result ≡ scope_size scope profiles }
    ensures most { result ≤ 2 ^ 61 + 20 }
{
    match scope {
        None => profiles,
        Some(head) => long_len(2, head + profiles),
    }
}

/// The bytes of all records.
#[tactic(auto, using(schema_laws::proofs::Onto::varint_at_most))]
pub(crate) fn sum(sums: &RunningSums) -> u64
    requires { AreFew (sums_in sums.now) }
    ensures { result ≡ sum_of (sums_in sums.now) }
{
    let inner = sums.inner + scope_len(sums.scope, sums.profiles);
    match sums.resource {
        None => sums.closed + inner,
        Some(head) => sums.closed + long_len(1, head + inner),
    }
}

/// The sums with one more profile, of so many bytes.
#[tactic(auto, using(crate::proofs::Bounds::few_of, schema_laws::proofs::Onto::varint_at_most))]
pub(crate) fn plus_profile(sums: &RunningSums, len: u64) -> RunningSums
    requires small { sum_of (sums_in sums.now) ≤ 2 ^ 59 }
    requires short { len ≤ 2 ^ 58 }
    ensures is { sums_in result ≡ profile_added (sums_in sums.now) len }
    ensures few { AreFew (sums_in result) }
{
    RunningSums {
        closed: sums.closed,
        resource: sums.resource,
        inner: sums.inner,
        scope: sums.scope,
        profiles: sums.profiles + long_len(2, len),
    }
}

/// The sums with one more scope record, whose head has so many bytes.
#[tactic(auto, using(crate::proofs::Bounds::few_of, schema_laws::proofs::Onto::varint_at_most))]
pub(crate) fn plus_scope(sums: &RunningSums, head: u64) -> RunningSums
    requires small { sum_of (sums_in sums.now) ≤ 2 ^ 59 }
    requires short { head ≤ 2 ^ 59 }
    ensures is { sums_in result ≡ scope_added (sums_in sums.now) head }
    ensures few { AreFew (sums_in result) }
{
    RunningSums {
        closed: sums.closed,
        resource: sums.resource,
        inner: sums.inner + scope_len(sums.scope, sums.profiles),
        scope: Some(head),
        profiles: 0,
    }
}

/// The sums with one more resource record, whose head has so many bytes.
#[tactic(auto, using(crate::proofs::Bounds::few_of))]
pub(crate) fn plus_resource(sums: &RunningSums, head: u64) -> RunningSums
    requires small { sum_of (sums_in sums.now) ≤ 2 ^ 59 }
    requires short { head ≤ 2 ^ 59 }
    ensures is { sums_in result ≡ resource_added (sums_in sums.now) head }
    ensures few { AreFew (sums_in result) }
{
    RunningSums {
        closed: sum(sums),
        resource: Some(head),
        inner: 0,
        scope: None,
        profiles: 0,
    }
}
