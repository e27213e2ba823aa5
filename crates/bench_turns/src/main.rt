//! Threads take turns at one count until a time is over. The arguments are the number of threads, that of milliseconds, and
//! how they go: `pace` (the clock is seldom read), `wait` (it is read after each turn), or `sleep` (so too, and each turn
//! sleeps for a millisecond). Prints how many turns all threads took, and the most microseconds from one turn's end to the
//! next one's in the same thread, or 0 at `pace`.
#![tactic(auto)]

ghost use Rattle.std.specs.Prelude.{◌≡◌, ◌≢◌, ◌<◌, [], length, All};
ghost use Rattle.qz_turn.specs.Callers.{KeepsRights};

use anyhow::{Context, Result, bail};
use qz_text::NoMemory;
use qz_turn::{Errand, Pass, Told, Turns};
use std::alloc::Global;
use std::str::FromStr;
use std::sync::Wait;
use std::sync::atomic::AtomicU64;
use std::sync::atomic::Ordering::SeqCst;
use std::thread::Threads;
use std::time::{Clock, Duration, Instant};
use std::{env, io, thread};

// How many turns a thread takes between two looks at the clock, at most.
const ROUND: u64 = 128;

#[derive(Drop)]
struct Count {
    turns: u64,
}

impl Told for Count {
    ghost use Rattle.std.specs.Prelude.{[], None};

    type Item = u64;

    type Key = ();

    // The list stays empty: what grows is the other number.
    ghost tells = { λ count. record { list = []; doubt = None; faults = count.turns } };

    ghost fits = { λ _ _. Unit {0} };

    fn len(&self) -> u64 {
        0
    }
}

#[derive(Drop)]
struct Step {
    turns: u64,
}

impl Errand<Count> for Step {
    ghost can = { λ _ _ _. Unit {0} };

    ghost does = { λ _ _ _ _. Unit {0} };

    fn go(&mut self, count: &mut Count) {
        count.turns = count.turns.saturating_add(1);
        self.turns = count.turns;
    }
}

#[derive(Drop)]
struct SleepyStep<'a, R: Clock> {
    rt: &'a R,
    step: Step,
}

impl<'a, R: Clock> Errand<Count> for SleepyStep<'a, R> {
    ghost can = { λ _ _ _. Unit {0} };

    ghost does = { λ _ _ _ _. Unit {0} };

    fn go(&mut self, count: &mut Count) {
        self.step.go(count);
        thread::sleep(self.rt, Duration::from_millis(1));
    }
}

#[derive(Clone, Copy, PartialEq, Eq)]
enum Manner {
    Pace,
    Wait,
    Sleep,
}

impl FromStr for Manner {
    type Err = ();

    fn from_str(word: &str) -> Result<Manner, ()> {
        match word {
            "pace" => Ok(Manner::Pace),
            "wait" => Ok(Manner::Wait),
            "sleep" => Ok(Manner::Sleep),
            _ => Err(()),
        }
    }
}

// What all threads did: their turns, the greatest count that one of them saw, and the longest wait in microseconds.
#[derive(Drop)]
struct Trial {
    manner: Manner,
    end: Instant,
    turns: AtomicU64,
    count: AtomicU64,
    longest: AtomicU64,
}

fn take_one<R: Wait>(rt: &R, turns: &Turns<Count>, pass: &mut Pass<Count>) -> u64
    requires { (pass.old.lock ≡ turns.now.lock) × (pass.old.numbers ≢ []) }
    ensures { KeepsRights pass.old pass.new }
{
    let mut step = Step { turns: 0 };
    turns.turn(rt, pass, &mut step);
    step.turns
}

fn take_sleepy_one<R: Wait + Clock>(rt: &R, turns: &Turns<Count>, pass: &mut Pass<Count>) -> u64
    requires { (pass.old.lock ≡ turns.now.lock) × (pass.old.numbers ≢ []) }
    ensures { KeepsRights pass.old pass.new }
{
    let step = Step { turns: 0 };
    let mut sleepy = SleepyStep { rt, step };
    turns.turn(rt, pass, &mut sleepy);
    sleepy.step.turns
}

fn take_round<R: Wait>(rt: &R, turns: &Turns<Count>, pass: &mut Pass<Count>) -> u64
    requires { (pass.old.lock ≡ turns.now.lock) × (pass.old.numbers ≢ []) }
    ensures { KeepsRights pass.old pass.new }
{
    let mut count = 0;
    for _ in 0..ROUND {
        count = take_one(rt, turns, pass);
    }
    count
}

fn hurry<R: Wait + Clock>(
    rt: &R,
    turns: &Turns<Count>,
    pass: &mut Pass<Count>,
    trial: &Trial,
) -> io::Result<()>
    requires { (pass.old.lock ≡ turns.now.lock) × (pass.old.numbers ≢ []) }
    ensures { KeepsRights pass.old pass.new }
{
    let mut taken = 0u64;
    for _ in 0..u64::MAX {
        if Instant::now(rt)? >= trial.end {
            break;
        }
        trial.count.fetch_max(take_round(rt, turns, pass), SeqCst);
        taken = taken.saturating_add(ROUND);
    }
    trial.turns.fetch_add(taken, SeqCst);
    Ok(())
}

fn watch<R: Wait + Clock>(
    rt: &R,
    turns: &Turns<Count>,
    pass: &mut Pass<Count>,
    trial: &Trial,
) -> io::Result<()>
    requires { (pass.old.lock ≡ turns.now.lock) × (pass.old.numbers ≢ []) }
    ensures { KeepsRights pass.old pass.new }
{
    let mut taken = 0u64;
    let mut longest = Duration::ZERO;
    let mut before = Instant::now(rt)?;
    for _ in 0..u64::MAX {
        if before >= trial.end {
            break;
        }
        let count = match trial.manner {
            Manner::Pace | Manner::Wait => take_one(rt, turns, pass),
            Manner::Sleep => take_sleepy_one(rt, turns, pass),
        };
        trial.count.fetch_max(count, SeqCst);
        taken = taken.saturating_add(1);
        let now = Instant::now(rt)?;
        longest = longest.max(now.saturating_duration_since(before));
        before = now;
    }
    trial.turns.fetch_add(taken, SeqCst);
    let micros = u64::try_from(longest.as_micros()).unwrap_or(u64::MAX);
    trial.longest.fetch_max(micros, SeqCst);
    Ok(())
}

fn run_all<R: Threads + Wait + Clock + Sync>(
    rt: &R,
    turns: &Turns<Count>,
    passes: &mut [Pass<Count>],
    trial: &Trial,
)
    requires some { 0 < length passes.old }
    requires passes { All (λ p. (p.lock ≡ turns.now.lock) × (p.numbers ≢ [])) passes.old }
{
    let threads = passes.len();
    thread::for_each_mut(
        rt,
        passes,
        threads,
        &|_, pass: &mut Pass<Count>|
            requires { (pass.now.lock ≡ turns.now.lock) × (pass.now.numbers ≢ []) }
        {
            // Where the clock can't be read, turns are missing at the end.
            let _ = match trial.manner {
                Manner::Pace => hurry(rt, turns, pass, trial),
                Manner::Wait | Manner::Sleep => watch(rt, turns, pass, trial),
            };
        },
    );
}

fn run<R: Threads + Wait + Clock + Sync>(
    rt: &R,
    alloc: Global,
    threads: u32,
    trial: &Trial,
) -> Result<(), NoMemory>
    requires { 0 < threads }
{
    let count = Count { turns: 0 };
    let (turns, mut passes) = match Turns::new(alloc, count, &(), threads) {
        Ok(made) => made,
        Err((_, short)) => return Err(short),
    };
    run_all(rt, &turns, passes.as_mut_slice(), trial);
    Ok(())
}

fn main(rt: HostRuntime) -> Result<()> {
    let mut words = env::args(&rt)?.skip(1);
    let threads = words.next().context("no threads")?.parse::<u32>()?;
    let millis = words.next().context("no time")?.parse::<u32>()?;
    let manner = words.next().context("no manner")?.parse::<Manner>().ok();
    if threads == 0 {
        bail!("no threads");
    }
    let now = Instant::now(&rt)?;
    let end = now.checked_add(Duration::from_millis(millis as u64));
    let trial = Trial {
        manner: manner.context("no such manner")?,
        end: end.context("time")?,
        turns: AtomicU64::new(0),
        count: AtomicU64::new(0),
        longest: AtomicU64::new(0),
    };
    run(&rt, rt.alloc(), threads, &trial)
        .ok()
        .context("memory")?;
    let taken = trial.turns.load(SeqCst);
    if trial.count.load(SeqCst) != taken {
        bail!("{} counted of {taken}", trial.count.load(SeqCst));
    }
    println!(rt; "{taken} {}", trial.longest.load(SeqCst))?;
    Ok(())
}
