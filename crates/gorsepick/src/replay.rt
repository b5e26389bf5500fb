// The calls of a session once more, on a fresh engine.
use crate::command::Made;
use crate::memory::Kind;
use arithmetic::Delivered;
use engine::{Call, carry_out};
use pages::{Flat, Log, Store};
use serial::{Accepted, Answer};
use std::alloc::{AllocError, Global};

// Carries the calls out again over words that are read as a store of this kind; whether they answer as they did.
pub(crate) fn replays_in(
    heap: Global,
    calls: &[(Made, Answer)],
    kind: Kind,
    words: &mut [u32],
    arithmetic: Delivered,
) -> Result<bool, AllocError> {
    match kind {
        Kind::Flat => replays(heap, calls, &mut Flat::new(words), arithmetic),
        Kind::Log => replays(heap, calls, &mut Log::new(words), arithmetic),
    }
}

// The same over a store.
fn replays<S: Store>(
    heap: Global,
    calls: &[(Made, Answer)],
    store: &mut S,
    arithmetic: Delivered,
) -> Result<bool, AllocError> {
    let again = calls
        .iter()
        .map(|(made, _)| made.as_call())
        .collect::<Vec<Call<'_>>>(heap)?;
    let mut answers = vec![in heap; Ok(Accepted::Allowed); calls.len()]?;
    let _ = carry_out(again.as_slice(), answers.as_mut_slice(), store, &arithmetic);
    Ok(
        calls
            .iter()
            .zip(answers.iter())
            .all(|((_, before), now)| before == now),
    )
}
