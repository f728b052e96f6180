// The two words, the seats that step on them, and each step.
ghost use Rattle.std.specs.Prelude.{◌≡◌, ℕ, ◌+◌, ◌-◌, ◌*◌, ◌%◌, ◌<◌, ◌≤◌, ◌^◌, true, false, [], IfOk, IfSome, IsSome, length, Option, ◌++◌, ◌∷◌};
ghost use Rattle.ct_core.specs.declared.event.Event.TheVariants.{Look};
ghost use Rattle.ct_core.specs.Machine.{fresh};
ghost use Rattle.ct_core.specs.Steps.{is_legal};
ghost use Rattle.ct_core.specs.Kept.{Kept};
ghost use Rattle.ct_pool.specs.Notes.{hits_at};
ghost use Rattle.ct_pool.specs.Passes.{may_claim, may_hit, Claimed, Looked};

use crate::NoMemory;
use crate::note::Note;
use crate::rule::{ClaimRule, Hits, Looks, Takes, TellsLeast, TellsNext, Workers};
use atomic_table::{Seat, Table};
use std::alloc::Global;
use std::marker::Model;

/// The two words, shared by reference. Contracts see the count, and which words they are.
#[derive(Drop)]
pub struct Claims {
    table: Table<(), Note, u64, ClaimRule, Global>,
    count: u64,
}

impl Model for Claims {
    ghost use Rattle.std.specs.Prelude.{◌≡◌, ℕ};
    ghost use Rattle.ct_pool.specs.Passes.{ClaimsView};

    ghost Value = { ClaimsView };

    ghost view = { λ c. record { count = c.count; table = c.table.shared.table_id } };

    ghost invariant = { λ c. (c.table.shared.table_id.words ≡ 2) × (c.table.shared.key ≡ c.count) };
}

/// A worker's seat. Contracts see its number, what it knows, and of which claims it is.
#[derive(Drop)]
pub struct Pass {
    number: u32,
    pending: Option<u64>,
    seat: Seat<(), Note>,
}

impl Model for Pass {
    ghost use Rattle.std.specs.Prelude.{◌≡◌, []};
    ghost use Rattle.ct_pool.specs.Notes.{live_note};
    ghost use Rattle.ct_pool.specs.Passes.{PassView};

    ghost Value = { PassView };

    ghost view = { λ p. record { number = p.number; sight = p.seat.me.0.sight; table = p.seat.table_id } };

    ghost invariant = { λ p. (p.seat.me ≡ (live_note p.seat.me.0.sight, [])) × (p.pending ≡ p.seat.me.0.sight.pending) };
}

/// The seat that makes the passes and takes them back. Contracts see how many it made, and what those that are
/// back know, in the order in which they came.
#[derive(Drop)]
pub struct Root {
    seat: Seat<(), Note>,
}

impl Model for Root {
    ghost use Rattle.std.specs.Prelude.{◌≡◌, []};
    ghost use Rattle.ct_pool.specs.Notes.{root_note};
    ghost use Rattle.ct_pool.specs.Passes.{RootView};

    ghost Value = { RootView };

    ghost view = { λ r. record { count = r.seat.me.0.count; made = r.seat.me.0.made; joined = r.seat.me.0.joined; table = r.seat.table_id } };

    ghost invariant = { λ r. (r.seat.me ≡ (root_note r.seat.me.0.count r.seat.me.0.made r.seat.me.0.joined, [])) × (r.seat.id ≡ 0) };
}

/// The two words once all passes are back.
#[derive(Drop)]
pub struct Closed {
    /// How many indices were claimed, those past the count among them.
    pub next: u64,
    /// The least hit.
    pub least: Option<u64>,
}

impl Claims {
    /// The words with nothing claimed, and the root of them.
    pub(crate) fn new(alloc: Global, count: u64) -> Result<(Claims, Root), NoMemory>
        requires { count ≤ 65535 }
        ensures { IfOk result (λ t. (t.0.count ≡ count) × (t.1 ≡ record { count = count; made = 0; joined = []; table = t.0.table })) }
    {
        let (table, seat) = Table::of_words(alloc, &[0, u64::MAX], &count)?;
        Ok((Claims { table, count }, Root { seat }))
    }

    /// One more worker's seat.
    pub(crate) fn worker(&self, root: &mut Root, number: u32) -> Pass
        requires table { root.old.table ≡ self.now.table }
        requires count { root.old.count ≡ self.now.count }
        requires room { root.old.made < 16 }
        ensures root { root.new ≡ record { count = root.old.count; made = root.old.made + 1; joined = root.old.joined; table = root.old.table } }
        ensures pass { result ≡ record { number = number; sight = fresh; table = root.old.table } }
    {
        let seat = self.table.shared.split_seat::<Workers>(&mut root.seat);
        Pass {
            number,
            pending: None,
            seat,
        }
    }

    /// A worker's seat is over; the root keeps what it knew.
    pub(crate) fn take_back(&self, root: &mut Root, pass: Pass)
        requires table { (root.old.table ≡ self.now.table) × (pass.table ≡ self.now.table) }
        requires count { root.old.count ≡ self.now.count }
        ensures { root.new ≡ record { count = root.old.count; made = root.old.made; joined = root.old.joined ++ pass.sight ∷ []; table = root.old.table } }
    {
        let Pass {
            number: _,
            pending: _,
            seat,
        } = pass;
        self.table.shared.join_seat::<Workers>(&mut root.seat, seat);
    }

    /// How many indices were claimed, once all passes are back.
    pub(crate) fn next(&self, root: &mut Root) -> u64
        requires table { root.old.table ≡ self.now.table }
        requires count { root.old.count ≡ self.now.count }
        ensures unchanged { root.new ≡ root.old }
        ensures told { root.old.made ≡ length root.old.joined → (least : Option ℕ) × Kept root.old.count result least root.old.joined }
    {
        self.table.shared.load::<TellsNext>(&mut root.seat, 0)
    }

    /// The least hit, once all passes are back.
    pub(crate) fn least(&self, root: &mut Root) -> Option<u64>
        requires table { root.old.table ≡ self.now.table }
        requires count { root.old.count ≡ self.now.count }
        ensures unchanged { root.new ≡ root.old }
        ensures told { root.old.made ≡ length root.old.joined → (next : ℕ) × Kept root.old.count next result root.old.joined }
    {
        let word = self.table.shared.load::<TellsLeast>(&mut root.seat, 1);
        if word == u64::MAX { None } else { Some(word) }
    }

    /// Refuses the pending index, if there is one, and claims the next, in one step. The answer is `None` where
    /// the claimed number is not below the count; the pass has it all the same. The claims of a pass rise.
    pub fn claim(&self, pass: &mut Pass) -> Option<u64>
        requires table { pass.old.table ≡ self.now.table }
        requires ready { may_claim pass.old.sight pass.old.sight.pending ≡ true }
        ensures unchanged { (pass.new.table ≡ pass.old.table) × (pass.new.number ≡ pass.old.number) }
        ensures claimed { Claimed self.now.count pass.old.sight pass.new.sight result }
    {
        let index = self.table.shared.fetch_add::<Takes>(&mut pass.seat, 0, 1);
        pass.pending = Some(index);
        if index < self.count {
            Some(index)
        } else {
            None
        }
    }

    /// The least hit so far, in one step.
    pub fn look(&self, pass: &mut Pass) -> Option<u64>
        requires table { pass.old.table ≡ self.now.table }
        requires ready { is_legal self.now.count pass.old.sight (Look 0) ≡ true }
        ensures unchanged { (pass.new.table ≡ pass.old.table) × (pass.new.number ≡ pass.old.number) }
        ensures looked { Looked pass.old.sight pass.new.sight result }
    {
        let word = self.table.shared.load::<Looks>(&mut pass.seat, 1);
        if word == u64::MAX { None } else { Some(word) }
    }

    /// Records the pending index as a hit, in one step.
    pub fn hit(&self, pass: &mut Pass)
        requires table { pass.old.table ≡ self.now.table }
        requires ready { may_hit pass.old.sight ≡ true }
        ensures unchanged { (pass.new.table ≡ pass.old.table) × (pass.new.number ≡ pass.old.number) }
        ensures hit { IfSome pass.old.sight.pending (λ i. pass.new.sight ≡ hits_at pass.old.sight i) }
    {
        let Some(index) = pass.pending else {
            unreachable!()
        };
        self.table
            .shared
            .fetch_min::<Hits>(&mut pass.seat, 1, index);
    }
}
