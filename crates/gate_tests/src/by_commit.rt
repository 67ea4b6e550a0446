use gate_queue::{Fault, Gate};
use gate_store::{Answer, Book};
use gate_text::DeliveryId;
use std::alloc::Global;

/// A book that keeps each delivery by `commit`, which no keeper calls by itself. It has no `commit_since` of its own, so that of the trait
/// calls its `commit`.
#[derive(Drop)]
pub(crate) struct ByCommit<B: Book> {
    pub(crate) book: B,
}

impl<B: Book> Book for ByCommit<B> {
    ghost shows = { λ it. B.shows it.book };

    ghost is_sound = { λ it. B.is_sound it.book };

    ghost is_honest = { λ it. B.is_honest it.book };

    ghost is_shielded = { λ it. B.is_shielded it.book };

    ghost sound_is_honest = { λ it sound. B.sound_is_honest it.book sound };

    ghost may_answer = { B.may_answer };

    fn load(&mut self, alloc: Global) -> Result<Gate, Fault> {
        self.book.load(alloc)
    }

    fn kept(&mut self, alloc: Global, id: &DeliveryId) -> Result<Option<Answer>, Fault> {
        self.book.kept(alloc, id)
    }

    fn commit(
        &mut self,
        alloc: Global,
        gate: &Gate,
        id: &DeliveryId,
        answer: &Answer,
    ) -> Result<(), Fault> {
        self.book.commit(alloc, gate, id, answer)
    }
}
