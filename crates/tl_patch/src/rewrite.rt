//! Bytes with something else between two places.
ghost use Rattle.std.specs.Prelude.{◌≡◌, ◌≤◌, ◌++◌, OnOk, drop, length, take};

use std::alloc::AllocError;

// Writes bytes with something else between two places.
#[tactic(auto, using(std::proofs::lemmas::List::take_rest))]
pub(crate) fn write_with(
    bytes: &[u8],
    from: usize,
    until: usize,
    put: &[u8],
    out: &mut Vec<u8>,
) -> Result<(), AllocError>
    requires order { from ≤ until }
    requires inside { until ≤ length bytes.now }
    ensures { OnOk result (out.new.items
        ≡ out.old.items ++ (take from bytes.now ++ (put.now ++ drop until bytes.now))) }
{
    out.extend_from_slice(&bytes[..from])?;
    out.extend_from_slice(put)?;
    out.extend_from_slice(&bytes[until..])?;
    Ok(())
}
