//! Runs the pool of workers on indices that each take a number of turns, for `bench/pool.py` to time.
//!
//! Without words it runs one small case with a hit. `jobs COUNT WORKERS TURNS` tries COUNT indices, of which none
//! hits; `claims ROUNDS` tries the most indices of a pool, ROUNDS times, each in no turns, by one worker.
//! The line that it prints has a sum over all misses, so that no work is left out.
#![tactic(auto)]

mod spins;

use crate::spins::Spins;
use ct_io::NoGate;
use ct_pool::{Decision, NoMemory, first_decided};
use std::alloc::Global;
use std::thread::Threads;
use std::{env, io};

const MOST: u64 = 65535;

/// What a decision came to.
#[derive(Clone, Copy)]
struct Summary {
    hit: Option<u64>,
    misses: usize,
    sum: u64,
}

fn main(rt: HostRuntime) -> io::Result<()> {
    let alloc = rt.alloc();
    let mut words = env::args(&rt)?;
    let _ = words.next();
    let Some(mode) = words.next() else {
        let done = decided(&rt, alloc, 6, 4, 1000, 4)?;
        return match done.hit {
            Some(index) => println!(rt;
                "hit at {index} after {} misses, sum {}",
                done.misses, done.sum
            ),
            None => println!(rt; "{} misses, sum {}", done.misses, done.sum),
        };
    };
    match mode.as_str() {
        "jobs" => {
            let count = number(words.next());
            let workers = number(words.next());
            let turns = number(words.next());
            let done = decided(&rt, alloc, count, workers, turns, MOST)?;
            println!(rt; "{} misses, sum {}", done.misses, done.sum)
        }
        "claims" => {
            let rounds = number(words.next());
            let mut sum = 0u64;
            for _ in 0..rounds {
                sum = sum.wrapping_add(decided(&rt, alloc, MOST, 1, 0, MOST)?.sum);
            }
            println!(rt; "{rounds} rounds, sum {sum}")
        }
        _ => println!(rt; "usage: bench_pool [jobs COUNT WORKERS TURNS | claims ROUNDS]"),
    }
}

fn number(word: Option<String>) -> u64 {
    match word {
        Some(text) => text.as_str().parse::<u64>().unwrap_or(0),
        None => 0,
    }
}

/// Tries the indices below the count, as many as a pool takes, by as many workers as it has.
fn decided<R: Threads + Sync>(
    rt: &R,
    alloc: Global,
    count: u64,
    workers: u64,
    turns: u64,
    hit_at: u64,
) -> Result<Summary, NoMemory> {
    let count = count.min(MOST);
    let job = Spins {
        count,
        turns,
        hit_at,
    };
    let decision = first_decided(rt, alloc, &job, count, workers.clamp(1, 16), &NoGate)?;
    Ok(match decision {
        Decision::Hit { index, hit, misses } => Summary {
            hit: Some(index),
            misses: misses.len(),
            sum: sum_of(misses.as_slice()).wrapping_add(hit),
        },
        Decision::AllMissed { misses } => Summary {
            hit: None,
            misses: misses.len(),
            sum: sum_of(misses.as_slice()),
        },
    })
}

fn sum_of(values: &[u64]) -> u64 {
    let mut sum = 0u64;
    for value in values {
        sum = sum.wrapping_add(*value);
    }
    sum
}
