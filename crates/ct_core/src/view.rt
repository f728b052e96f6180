// What a worker knows: when an event is legal for it, and what the event changes.
ghost use Rattle.std.specs.Prelude.{◌≡◌, OnOk, OnErr};
ghost use Rattle.ct_core.specs.Machine.{fresh};
ghost use Rattle.ct_core.specs.Steps.{is_legal, view_after};

use crate::NoMemory;
use crate::event::Event;
use std::alloc::Global;
use std::marker::Model;

/// What a worker knows.
#[derive(Debug, Drop)]
pub struct View {
    /// The indices that it claimed, in order.
    pub claims: Vec<u64>,
    /// Those of them that it refused, in order.
    pub refuted: Vec<u64>,
    pub hit: Option<u64>,
    /// The claimed index that is neither refused nor hit, and stays here after a hit.
    pub pending: Option<u64>,
    /// Whether it looked since its last claim.
    pub looked: bool,
    /// The least hit at its last look.
    pub seen: Option<u64>,
    pub stopped: bool,
}

impl Model for View {
    ghost use Rattle.ct_core.specs.Machine.{Sight};

    ghost Value = { Sight };

    ghost view = { λ v. record { claims = v.claims.items; refuted = v.refuted.items; hit = v.hit; pending = v.pending; looked = v.looked; seen = v.seen; stopped = v.stopped } };
}

impl View {
    /// The view of a worker that has done nothing.
    pub(crate) fn new(alloc: Global) -> View
        ensures { result ≡ fresh }
    {
        View {
            claims: Vec::new(alloc),
            refuted: Vec::new(alloc),
            hit: None,
            pending: None,
            looked: false,
            seen: None,
            stopped: false,
        }
    }

    fn may_end(&self, index: u64) -> bool
        ensures { result ≡ Rattle.ct_core.specs.Steps.may_end self.now index }
    {
        if self.stopped || !self.looked {
            return false;
        }
        match (self.pending, self.seen) {
            (None, _) => false,
            (Some(pending), None) => pending == index,
            (Some(pending), Some(seen)) => pending == index && index <= seen,
        }
    }

    /// Whether the event is legal for a worker with this view.
    pub(crate) fn allows(&self, count: u64, event: Event) -> bool
        ensures { result ≡ is_legal count self.now event }
    {
        match event {
            Event::Claim(_) => !self.stopped && self.pending.is_none(),
            Event::Look(_) => match self.pending {
                Some(pending) => pending < count && !self.looked,
                None => false,
            },
            Event::Refuse(_, index) => self.may_end(index),
            Event::Hit(_, index) => self.may_end(index),
            Event::Stop(_) => match (self.pending, self.seen) {
                (None, _) => false,
                (Some(pending), None) => count <= pending,
                (Some(pending), Some(seen)) => { count <= pending || self.looked && seen < pending }
            },
        }
    }

    /// The event's change of this view, where it finds these words.
    pub(crate) fn apply(
        &mut self,
        next: u64,
        least: Option<u64>,
        event: Event,
    ) -> Result<(), NoMemory>
        ensures value { OnOk result (self.new ≡ view_after next least self.old event) }
        ensures unchanged { OnErr result (self.new ≡ self.old) }
    {
        match event {
            Event::Claim(_) => {
                self.claims.reserve(1)?;
                self.claims.push_reserved(next);
                self.pending = Some(next);
                self.looked = false;
            }
            Event::Look(_) => {
                self.looked = true;
                self.seen = least;
            }
            Event::Refuse(_, index) => {
                self.refuted.reserve(1)?;
                self.refuted.push_reserved(index);
                self.pending = None;
            }
            Event::Hit(_, index) => {
                self.hit = Some(index);
                self.stopped = true;
            }
            Event::Stop(_) => self.stopped = true,
        }
        Ok(())
    }
}
