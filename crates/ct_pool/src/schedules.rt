// Every order of the steps of three passes over miss, hit, miss, on one thread.
ghost use Rattle.std.specs.Prelude.{◌≡◌, ℕ, ◌+◌, ◌-◌, ◌<◌, ◌≤◌, true, All, IfOk, vec_len, length};
ghost use Rattle.ct_core.specs.Machine.{fresh};

use crate::claims::{Claims, Pass};
use crate::hand::{Hand, Stage};
use crate::{NoMemory, open};
use std::alloc::Global;

/// No schedule takes more steps.
pub(crate) const STEPS: usize = 12;

const PASSES: usize = 3;

/// Whether the attempt at each index hits.
const HITS: [bool; 3] = [false, true, false];

/// The least index that hits.
const LEAST: u64 = 1;

/// How a schedule went.
#[derive(Clone, Copy)]
pub(crate) struct Played {
    pub next: u64,
    pub least: Option<u64>,
    /// How many indices the passes claimed, by their own count.
    pub claimed: u64,
    /// How many passes refuted index 0.
    pub refuted_first: u64,
    /// Whether some pass recorded its hit.
    pub hit: bool,
    /// Which passes go on.
    pub goes_on: [bool; PASSES],
}

/// What all schedules with some beginning came to.
#[derive(Clone, Copy)]
pub(crate) struct Tally {
    pub complete: u64,
    /// Schedules that go on past the last step.
    pub unfinished: u64,
    /// Schedules whose words are not those of the definition.
    pub wrong: u64,
}

fn hands_of(
    alloc: Global,
    claims: &Claims,
    count: u64,
    mut passes: Vec<Pass>,
) -> Result<Vec<Hand>, NoMemory>
    requires count { count ≡ claims.now.count }
    requires passes { All (λ pass. (pass.table ≡ claims.now.table) × (pass.sight ≡ fresh)) passes.items }
    ensures hands { IfOk result (λ v. (vec_len v ≡ vec_len passes) × All (λ hand. (hand.pass.table ≡ claims.now.table) × (hand.count ≡ claims.now.count)) v.items) }
{
    let mut hands = Vec::with_capacity(alloc, passes.len())?;
    passes.reverse();
    while let Some(pass) = passes.pop() {
        hands.push(Hand::new(pass, count))?;
    }
    Ok(hands)
}

fn move_all(claims: &Claims, hands: &mut Vec<Hand>, schedule: &[usize])
    requires hands { All (λ hand. (hand.pass.table ≡ claims.now.table) × (hand.count ≡ claims.now.count)) hands.old.items }
    requires schedule { All (λ which. which < vec_len hands.old) schedule.now }
    ensures hands { All (λ hand. (hand.pass.table ≡ claims.now.table) × (hand.count ≡ claims.now.count)) hands.new.items }
    ensures len { vec_len hands.new ≡ vec_len hands.old }
{
    for which in schedule {
        hands[*which].turn(claims, &HITS);
    }
}

fn passes_back(alloc: Global, claims: &Claims, mut hands: Vec<Hand>) -> Result<Vec<Pass>, NoMemory>
    requires hands { All (λ hand. (hand.pass.table ≡ claims.now.table) × (hand.count ≡ claims.now.count)) hands.items }
    ensures passes { IfOk result (λ v. (vec_len v ≡ vec_len hands) × All (λ pass. pass.table ≡ claims.now.table) v.items) }
{
    let mut passes = Vec::with_capacity(alloc, hands.len())?;
    hands.reverse();
    while let Some(hand) = hands.pop() {
        passes.push(hand.pass)?;
    }
    Ok(passes)
}

/// Plays a schedule from the start, and gathers.
pub(crate) fn play(alloc: Global, schedule: &[usize]) -> Result<Played, NoMemory>
    requires { All (λ which. which < 3) schedule.now }
{
    let count = HITS.len() as u64;
    let (claims, mut root, passes) = open(alloc, count, PASSES as u32)?;
    let mut hands = hands_of(alloc, &claims, count, passes)?;
    move_all(&claims, &mut hands, schedule);
    let mut played = summary_of(hands.as_slice());
    let passes = passes_back(alloc, &claims, hands)?;
    let closed = claims.gather(&mut root, passes);
    played.next = closed.next;
    played.least = closed.least;
    Ok(played)
}

/// What the passes themselves have counted.
fn summary_of(hands: &[Hand]) -> Played {
    let mut played = Played {
        next: 0,
        least: None,
        claimed: 0,
        refuted_first: 0,
        hit: false,
        goes_on: [false; PASSES],
    };
    for (place, hand) in hands.iter().enumerate() {
        played.claimed = played.claimed.saturating_add(hand.claimed);
        if hand.refuted_first {
            played.refuted_first = played.refuted_first.saturating_add(1);
        }
        if hand.stage == Stage::Hit {
            played.hit = true;
        }
        if place < PASSES {
            played.goes_on[place] = !(hand.stage == Stage::Hit || hand.stage == Stage::Over);
        }
    }
    played
}

/// Whether the two words are those of the definition: each claim is counted, and `LEAST` is the least hit once it
/// was recorded. A complete schedule has recorded it, and has refuted index 0 once.
fn is_right(played: &Played, complete: bool) -> bool {
    let words = played.next == played.claimed
        && played.least == if played.hit { Some(LEAST) } else { None };
    words && (!complete || played.hit && played.refuted_first == 1)
}

/// All schedules that begin with the first `len` steps of this one.
pub(crate) fn explore(
    alloc: Global,
    schedule: [usize; STEPS],
    len: usize,
) -> Result<Tally, NoMemory>
    requires len { len ≤ 12 }
    requires schedule { All (λ which. which < 3) schedule }
{
    let played = play(alloc, &schedule[..len])?;
    let complete = played.goes_on == [false; PASSES];
    let mut tally = Tally {
        complete: if complete { 1 } else { 0 },
        unfinished: 0,
        wrong: if is_right(&played, complete) { 0 } else { 1 },
    };
    if len == STEPS {
        tally.unfinished = if complete { 0 } else { 1 };
        return Ok(tally);
    }
    for which in 0..PASSES {
        if played.goes_on[which] {
            let mut longer = schedule;
            longer[len] = which;
            let more = explore(alloc, longer, len + 1)?;
            tally.complete = tally.complete.saturating_add(more.complete);
            tally.unfinished = tally.unfinished.saturating_add(more.unfinished);
            tally.wrong = tally.wrong.saturating_add(more.wrong);
        }
    }
    Ok(tally)
}
