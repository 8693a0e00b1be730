//! What a run comes to.
use arrayvec::ArrayVec;
use std::alloc::Global;

/// That all was done, or what was wrong.
pub type Outcome<T = ()> = Result<T, &'static str>;

/// What was refused for want of memory.
#[derive(Default, Drop)]
pub struct Refusals {
    found: ArrayVec<&'static str, 8>,
}

impl Refusals {
    /// Notes that this was refused.
    pub fn note(&mut self, what: &'static str) {
        let _ = self.found.try_push(what);
    }

    /// What was refused, in order.
    pub fn all(&self) -> &[&'static str] {
        self.found.as_slice()
    }
}

/// Room for what is written.
pub fn room(alloc: Global, refusals: &mut Refusals) -> Outcome<Vec<u8>> {
    match Vec::with_capacity(alloc, 4096) {
        Ok(room) => Ok(room),
        Err(_) => {
            refusals.note("room for what is written");
            Vec::with_capacity(alloc, 4096).or(Err("room, once more"))
        }
    }
}
