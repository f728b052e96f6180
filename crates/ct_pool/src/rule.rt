// The rule over the two words, and what each kind of step tells.
use crate::note::Note;
use atomic_table::{Join, Play, Split, TableRule};

/// The rule; its key is the count.
pub struct ClaimRule;

impl TableRule<(), Note, u64> for ClaimRule {
    ghost use Rattle.std.specs.Prelude.{[]};
    ghost use Rattle.ct_pool.specs.Notes.{root_note};
    ghost use Rattle.ct_pool.specs.ClaimRule.{IsRuled};

    ghost holds = { λ count s. IsRuled count s };

    ghost first = { λ count. root_note count 0 [] };
}

/// A worker's step on `next`: its pending index is refuted, and the number found is claimed.
pub struct Takes;

impl Play<(), Note> for Takes {
    ghost use Rattle.ct_pool.specs.ClaimRule.{TakeTold};

    ghost then = { λ s me n w. TakeTold s me n w };
}

/// A worker's load of `least`.
pub struct Looks;

impl Play<(), Note> for Looks {
    ghost use Rattle.ct_pool.specs.ClaimRule.{LookTold};

    ghost then = { λ s me n w. LookTold s me n w };
}

/// A worker's step on `least`: the minimum with its index.
pub struct Hits;

impl Play<(), Note> for Hits {
    ghost use Rattle.ct_pool.specs.ClaimRule.{HitMade};

    ghost then = { λ s me n w. HitMade s me n w };
}

/// The root's load of `next`.
pub struct TellsNext;

impl Play<(), Note> for TellsNext {
    ghost use Rattle.ct_pool.specs.ClaimRule.{NextTold};

    ghost then = { λ s me n w. NextTold s me n w };
}

/// The root's load of `least`.
pub struct TellsLeast;

impl Play<(), Note> for TellsLeast {
    ghost use Rattle.ct_pool.specs.ClaimRule.{LeastTold};

    ghost then = { λ s me n w. LeastTold s me n w };
}

/// The root makes a worker's seat, and takes one back.
pub struct Workers;

impl Split<Note> for Workers {
    ghost use Rattle.std.specs.Prelude.{◌+◌};
    ghost use Rattle.ct_pool.specs.Notes.{root_note, live_note};
    ghost use Rattle.ct_core.specs.Machine.{fresh};

    ghost left = { λ v. root_note v.count (v.made + 1) v.joined };

    ghost right = { λ v. live_note fresh };
}

impl Join<Note> for Workers {
    ghost use Rattle.std.specs.Prelude.{◌++◌, [], ◌∷◌};
    ghost use Rattle.ct_pool.specs.Notes.{root_note, spent_note};

    ghost both = { λ v w. root_note v.count v.made (v.joined ++ w.sight ∷ []) };

    ghost spent = { spent_note };
}
