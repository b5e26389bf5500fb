// Which transactions a commit spoils, and how they go on.
use crate::shadows::SLOTS;
use engine::{Engine, Shadow};
use std::alloc::{AllocError, Global};

// How often a shadow took over, and how often a transaction started over.
#[derive(Clone, Copy, Default)]
pub(crate) struct Spoils {
    pub(crate) took_over: usize,
    pub(crate) started_over: usize,
}

impl Spoils {
    // Counts how these slots go on after the commit that spoiled them.
    pub(crate) fn count(&mut self, engine: &Engine, spoiled: &[u32]) {
        // A `for`, since each slot is counted in one of two places.
        for slot in spoiled {
            if lead_step(engine, *slot) == 0 {
                self.started_over = self.started_over.saturating_add(1);
            } else {
                self.took_over = self.took_over.saturating_add(1);
            }
        }
    }
}

// Where the leading shadow of a slot stands.
fn lead_step(engine: &Engine, slot: u32) -> usize {
    engine.shadow(slot, slot).map_or(0, |lead| lead.step())
}

// The slots that a commit of this one would spoil: whose leading shadows have read a page that it would put.
pub(crate) fn would_spoil(
    heap: Global,
    engine: &Engine,
    slot: u32,
) -> Result<Vec<u32>, AllocError> {
    match engine.shadow(slot, slot) {
        None => Ok(Vec::new(heap)),
        Some(lead) => (0..SLOTS)
            .filter(|other| *other != slot && has_stale_lead(engine, *other, &lead))
            .collect(heap),
    }
}

fn has_stale_lead(engine: &Engine, slot: u32, committing: &Shadow) -> bool {
    engine
        .shadow(slot, slot)
        .is_some_and(|lead| lead.has_read_any(committing.own()))
}
