//! What is put into the room that a caller lends.
ghost use Rattle.std.specs.Prelude.{◌≡◌, ◌≢◌, ◌↔◌, ℕ, List, Err, IsOkAnd, option_copied, take};
ghost use Rattle.tl_page.specs.Outcome.{Fails, Gives, Outcome, success};
ghost use Rattle.tl_page.specs.declared.failure.Failure.TheVariants.{NotUnderstood, OutOfMemory, Refused};
ghost use Rattle.tl_c.specs.Css.{first_of};
ghost use Rattle.tl_c.specs.Nodes.{PutsSource};
ghost use Rattle.tl_c.specs.Puts.{Puts, PutsOne};
ghost use Rattle.tl_c.specs.Queries.{outcome_of_some};

use tl_page::Failure;
use tl_tree::Source;

// The room is smaller than what is to be put there.
const NO_ROOM: u8 = 4;

// Puts items at the front of `out`, and how many they are into `needed`. That takes no memory.
pub(crate) fn copy_items<T: Copy>(items: &[T], out: &mut [T], needed: &mut usize) -> u8
    ensures put { Puts (success items.now) out.old out.new needed.new result }
    ensures refused { result ≢ 1 }
    ensures understood { result ≢ 2 }
    ensures memory { result ≢ 3 }
{
    *needed = items.len();
    if items.len() > out.len() {
        return NO_ROOM;
    }
    out[..items.len()].copy_from_slice(items);
    0
}

// Puts that there is nothing, and why.
fn report_failure<T: Copy>(failure: Failure, out: &mut [T], needed: &mut usize) -> u8
    ensures put { (outcome : Outcome (List T)) → Fails outcome failure
        → Puts outcome out.old out.new needed.new result }
    ensures failed { result ≢ 0 }
    ensures refused { (result ≡ 1) ↔ (failure ≡ Refused) }
    ensures not_understood { (result ≡ 2) ↔ (failure ≡ NotUnderstood) }
    ensures memory { (result ≡ 3) ↔ (failure ≡ OutOfMemory) }
{
    *needed = 0;
    failure as u8
}

// Puts a value, or answers that there is none. That takes no memory.
pub(crate) fn copy_value(value: Option<&[u8]>, out: &mut [u8], needed: &mut usize) -> u8
    ensures put { let outcome = outcome_of_some success (option_copied value.entry) in
        Puts outcome out.old out.new needed.new result }
    ensures memory { result ≢ 3 }
{
    match value {
        Some(value) => copy_items(value, out, needed),
        None => report_failure(Failure::Refused, out, needed),
    }
}

// Puts items that were given, or answers why none were.
pub(crate) fn copy_result<T: Copy + Drop>(
    given: Result<Vec<T>, Failure>,
    out: &mut [T],
    needed: &mut usize,
) -> u8
    ensures put { (outcome : Outcome (List T)) → Gives (λ items. items.items) outcome given
        → Puts outcome out.old out.new needed.new result }
    ensures refused { (result ≡ 1) ↔ (given ≡ Err Refused) }
    ensures not_understood { (result ≡ 2) ↔ (given ≡ Err NotUnderstood) }
    ensures memory { (result ≡ 3) ↔ (given ≡ Err OutOfMemory) }
    ensures items { result ≡ 0
        → IsOkAnd given (λ items. take needed.new out.new ≡ items.items) }
{
    match given {
        Ok(items) => copy_items(items.as_slice(), out, needed),
        Err(failure) => report_failure(failure, out, needed),
    }
}

/// The first of the numbers that were given; where there is none that is refused.
pub(crate) fn first(given: Result<Vec<u32>, Failure>) -> Result<u32, Failure>
    ensures gives { (outcome : Outcome (List ℕ)) → Gives (λ numbers. numbers.items) outcome given
        → Gives (λ number. number) (first_of outcome) result }
    ensures memory { (result ≡ Err OutOfMemory) ↔ (given ≡ Err OutOfMemory) }
{
    match given?.first() {
        Some(number) => Ok(*number),
        None => Err(Failure::Refused),
    }
}

/// Puts a value that was given; where none was, the one that stands for none, and answers why.
pub(crate) fn put_one<T: Copy>(given: Result<T, Failure>, none: T, out: &mut T) -> u8
    ensures put { (outcome : Outcome T) → Gives (λ value. value) outcome given
        → PutsOne outcome none out.new result }
    ensures memory { (result ≡ 3) ↔ (given ≡ Err OutOfMemory) }
{
    match given {
        Ok(value) => {
            *out = value;
            0
        }
        Err(failure) => {
            *out = none;
            failure as u8
        }
    }
}

/// Puts where in the page something comes from; where that is nowhere, 0 and 0, and refuses it.
pub(crate) fn put_source(source: Option<Source>, start: &mut usize, end: &mut usize) -> u8
    ensures { PutsSource source start.new end.new result }
{
    match source {
        Some(source) => {
            *start = source.start;
            *end = source.end;
            0
        }
        None => {
            *start = 0;
            *end = 0;
            1
        }
    }
}
