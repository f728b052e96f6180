// A job that answers from a list, with every number of workers; the passes by hand; two workers at work together;
// a gate that is entered before each attempt.
use crate::schedules::{STEPS, explore};
use crate::{Decision, Job, NoMemory, Outcome, first_decided, open};
use ct_io::{Gate, NoGate};
use std::alloc::Global;
use std::sync::atomic::{AtomicU64, Ordering};
use std::test::Fail;

const HIT: u64 = 1;

/// Where an attempt finds no memory.
const NO_MEMORY: u64 = 2;

/// What the list has at an index says how an attempt there ends. The misses and hits tell their index.
#[derive(Drop)]
struct Listed {
    hits: Vec<u64>,
}

impl Job for Listed {
    type Miss = u64;

    type Hit = u64;

    ghost use Rattle.std.specs.Prelude.{ℕ, ◌+◌, slice_index, nat_eq, if◌then◌else◌, vec_len};
    ghost use Rattle.ct_pool.specs.declared.job.Outcome.{Outcome};
    ghost use Rattle.ct_pool.specs.declared.job.Outcome.TheVariants.{Miss, Hit};

    ghost size = { λ job. vec_len job.hits };

    ghost outcome = { λ job i. if nat_eq (slice_index job.hits.items i) 1 then Hit i else Miss i };

    fn attempt(&self, _: Global, index: u64) -> Result<Outcome<u64, u64>, NoMemory> {
        match self.hits[index as usize] {
            HIT => Ok(Outcome::Hit(index)),
            NO_MEMORY => Err(NoMemory),
            _ => Ok(Outcome::Miss(index)),
        }
    }
}

/// The index of the hit, if there is one, and the misses.
fn parts_of(decision: Decision<u64, u64>) -> (Option<(u64, u64)>, Vec<u64>) {
    match decision {
        Decision::Hit { index, hit, misses } => (Some((index, hit)), misses),
        Decision::AllMissed { misses } => (None, misses),
    }
}

#[test]
fn the_least_hit_is_answered_with_all_misses_before_it(rt: HostRuntime) -> Result<(), Fail> {
    let job = Listed {
        hits: vec![in rt.alloc(); 0, 0, HIT, 0, HIT]?,
    };
    for run in 0..200u64 {
        let workers = run % 16 + 1;
        let (hit, misses) = parts_of(first_decided(&rt, rt.alloc(), &job, 5, workers, &NoGate)?);
        assert_eq!(rt; hit, Some((2, 2)), "{workers} workers");
        assert_eq!(rt; misses.as_slice(), [0, 1].as_slice(), "{workers} workers");
    }
    Ok(())
}

#[test]
fn a_hit_at_the_first_index_has_no_misses(rt: HostRuntime) -> Result<(), Fail> {
    let job = Listed {
        hits: vec![in rt.alloc(); HIT]?,
    };
    for workers in 1..17u64 {
        let (hit, misses) = parts_of(first_decided(&rt, rt.alloc(), &job, 1, workers, &NoGate)?);
        assert_eq!(rt; hit, Some((0, 0)), "{workers} workers");
        assert!(rt; misses.is_empty(), "{workers} workers");
    }
    Ok(())
}

#[test]
fn no_index_is_all_missed(rt: HostRuntime) -> Result<(), Fail> {
    let job = Listed {
        hits: Vec::new(rt.alloc()),
    };
    for workers in 1..17u64 {
        let (hit, misses) = parts_of(first_decided(&rt, rt.alloc(), &job, 0, workers, &NoGate)?);
        assert_eq!(rt; hit, None, "{workers} workers");
        assert!(rt; misses.is_empty(), "{workers} workers");
    }
    Ok(())
}

#[test]
fn seven_misses_come_in_order(rt: HostRuntime) -> Result<(), Fail> {
    let job = Listed {
        hits: vec![in rt.alloc(); 0, 0, 0, 0, 0, 0, 0]?,
    };
    for workers in 1..17u64 {
        let (hit, misses) = parts_of(first_decided(&rt, rt.alloc(), &job, 7, workers, &NoGate)?);
        assert_eq!(rt; hit, None, "{workers} workers");
        assert_eq!(rt;
            misses.as_slice(),
            [0, 1, 2, 3, 4, 5, 6].as_slice(),
            "{workers} workers"
        );
    }
    Ok(())
}

#[test]
fn an_attempt_without_memory_leaves_its_index_open(rt: HostRuntime) -> Result<(), Fail> {
    let below_the_hit = Listed {
        hits: vec![in rt.alloc(); 0, NO_MEMORY, HIT, 0, HIT]?,
    };
    let among_misses = Listed {
        hits: vec![in rt.alloc(); 0, 0, 0, NO_MEMORY, 0, 0, 0]?,
    };
    for workers in 1..17u64 {
        let decision = first_decided(&rt, rt.alloc(), &below_the_hit, 5, workers, &NoGate);
        assert!(rt; decision.is_err(), "{workers} workers");
        let decision = first_decided(&rt, rt.alloc(), &among_misses, 7, workers, &NoGate);
        assert!(rt; decision.is_err(), "{workers} workers");
    }
    let past_the_hit = Listed {
        hits: vec![in rt.alloc(); 0, 0, HIT, 0, NO_MEMORY]?,
    };
    let (hit, misses) = parts_of(first_decided(&rt, rt.alloc(), &past_the_hit, 5, 1, &NoGate)?);
    assert_eq!(rt; hit, Some((2, 2)));
    assert_eq!(rt; misses.as_slice(), [0, 1].as_slice());
    Ok(())
}

/// A gate that counts how often each index is entered, and a job of misses, whose attempts find no memory unless
/// their index was entered once.
#[derive(Drop)]
struct Counted {
    entered: Vec<AtomicU64>,
}

impl Gate for Counted {
    fn enter(&self, index: u64) {
        if let Some(entered) = self.entered.get(index as usize) {
            entered.fetch_add(1, Ordering::SeqCst);
        }
    }

    fn made(&self, _: u64) {}
}

impl Job for Counted {
    type Miss = u64;

    type Hit = u64;

    ghost use Rattle.std.specs.Prelude.{ℕ, vec_len};
    ghost use Rattle.ct_pool.specs.declared.job.Outcome.{Outcome};
    ghost use Rattle.ct_pool.specs.declared.job.Outcome.TheVariants.{Miss};

    ghost size = { λ job. vec_len job.entered };

    ghost outcome = { λ _ i. Miss i };

    fn attempt(&self, _: Global, index: u64) -> Result<Outcome<u64, u64>, NoMemory> {
        if self.entered[index as usize].load(Ordering::SeqCst) == 1 {
            Ok(Outcome::Miss(index))
        } else {
            Err(NoMemory)
        }
    }
}

#[test]
fn each_index_is_entered_once_before_its_attempt(rt: HostRuntime) -> Result<(), Fail> {
    for workers in [1, 16] {
        let none = AtomicU64::new;
        let counted = Counted {
            entered: vec![in rt.alloc();
                none(0),
                none(0),
                none(0),
                none(0),
                none(0),
                none(0),
                none(0),
            ]?,
        };
        let (_, misses) = parts_of(first_decided(&rt, rt.alloc(), &counted, 7, workers, &counted)?);
        assert_eq!(rt; misses.len(), 7, "{workers} workers");
        for entered in &counted.entered {
            assert_eq!(rt; entered.load(Ordering::SeqCst), 1, "{workers} workers");
        }
    }
    Ok(())
}

#[test]
fn a_look_sees_a_hit_recorded_before_it(rt: HostRuntime) -> Result<(), Fail> {
    let (claims, mut root, mut passes) = open(rt.alloc(), 3, 2)?;
    let Some(mut second) = passes.pop() else {
        return Ok(());
    };
    let Some(mut first) = passes.pop() else {
        return Ok(());
    };
    assert_eq!(rt; claims.claim(&mut first), Some(0));
    assert_eq!(rt; claims.claim(&mut second), Some(1));
    assert_eq!(rt; claims.look(&mut first), None);
    claims.hit(&mut first);
    assert_eq!(rt; claims.look(&mut second), Some(0));
    let closed = claims.gather(&mut root, vec![in rt.alloc(); first, second]?);
    assert_eq!(rt; (closed.next, closed.least), (2, Some(0)));
    Ok(())
}

// A program that goes through all orders of the steps found 2,124 that end, the longest after nine.
#[test]
fn every_order_of_the_steps_decides_as_one_worker(rt: HostRuntime) -> Result<(), Fail> {
    let tally = explore(rt.alloc(), [0; STEPS], 0)?;
    assert_eq!(rt;
        (tally.complete, tally.unfinished, tally.wrong),
        (2124, 0, 0)
    );
    Ok(())
}

/// Holds index 0 until index 1 has entered, for at most `TURNS` turns.
#[derive(Drop)]
struct Meeting {
    entered: AtomicU64,
    met: AtomicU64,
}

const TURNS: u64 = 1 << 28;

impl Gate for Meeting {
    fn enter(&self, index: u64) {
        if index == 1 {
            self.entered.store(1, Ordering::SeqCst);
        }
        if index == 0 {
            for _ in 0..TURNS {
                if self.entered.load(Ordering::SeqCst) == 1 {
                    self.met.store(1, Ordering::SeqCst);
                    return;
                }
                std::hint::spin_loop();
            }
        }
    }

    fn made(&self, _: u64) {}
}

#[test]
fn two_workers_are_at_work_together(rt: HostRuntime) -> Result<(), Fail> {
    let job = Listed {
        hits: vec![in rt.alloc(); 0, 0, HIT, 0, HIT]?,
    };
    let gate = Meeting {
        entered: AtomicU64::new(0),
        met: AtomicU64::new(0),
    };
    let (hit, misses) = parts_of(first_decided(&rt, rt.alloc(), &job, 5, 2, &gate)?);
    assert_eq!(rt; gate.met.load(Ordering::SeqCst), 1);
    assert_eq!(rt; hit, Some((2, 2)));
    assert_eq!(rt; misses.as_slice(), [0, 1].as_slice());
    Ok(())
}
