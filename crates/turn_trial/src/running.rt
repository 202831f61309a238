//! A course is run: the passes are split, each caller takes his turns in a thread, the passes are joined, and the turns
//! are closed.

ghost use Rattle.std.specs.Prelude.{◌≡◌, ◌<◌, ◌≤◌, vec_len, IfOk, OnOk};
ghost use Rattle.turn_lock.specs.Passes.{share_of, IsPassOf};
ghost use Rattle.turn_lock.specs.Turned.{id_of, callers_of};
ghost use Rattle.turn_trial.specs.Workers.{AllOf};

use crate::course::{Course, MOST_CALLERS};
use crate::notes::{Mark, Notes};
use crate::worker::Worker;
use std::alloc::{AllocError, Global};
use std::fmt::{Display, Formatter, Write};
use std::sync::Wait;
use std::thread::Threads;
use std::time::Clock;
use std::{fmt, thread};
use turn_lock::{Pass, Turns};

/// What came of a course.
#[derive(Drop)]
pub struct Outcome {
    seed: u64,
    callers: usize,
    turns: u32,
    entries: usize,
    has_fronts: bool,
}

impl Display for Outcome {
    fn fmt<W: Write>(&self, f: &mut Formatter<W>) -> fmt::Result {
        let Outcome {
            seed,
            callers,
            turns,
            entries,
            has_fronts,
        } = self;
        let fronts = if *has_fronts { "fronts" } else { "no fronts" };
        write!(
            f,
            "seed {seed} callers {callers} turns {turns} entries {entries} {fronts}"
        )
    }
}

/// Runs a course. Its callers are no more than a course may have.
pub fn run_course<R: Threads + Wait + Clock + Sync>(
    rt: &R,
    alloc: Global,
    course: &Course,
) -> Result<Outcome, AllocError> {
    let callers = course.places.len();
    if callers == 0 || callers > MOST_CALLERS {
        return Err(AllocError);
    }
    let notes = Notes::with_room(alloc, course.turns as usize * callers)?;
    let Ok((turns, first)) = Turns::new(alloc, notes, callers as u16) else {
        return Err(AllocError);
    };
    let mut workers = split_all(alloc, &turns, course, first)?;
    work_all(rt, &turns, workers.as_mut_slice(), course.turns);
    let (seen, pass) = join_all(alloc, &turns, course, workers)?;
    if pass.share() != callers as u16 {
        return Err(AllocError);
    }
    let notes = turns.close(pass);
    Ok(Outcome {
        seed: course.seed,
        callers,
        turns: course.turns,
        entries: notes.mark().length,
        has_fronts: all_fronts(course, &notes, seen.as_slice()),
    })
}

// Whether each caller has kept as many marks as he was to keep, all of them of fronts of the list.
fn all_fronts(course: &Course, notes: &Notes, seen: &[Vec<Mark>]) -> bool {
    let kept = kept_marks(course);
    for marks in seen {
        if marks.len() != kept || !notes.has_fronts(marks.as_slice()) {
            return false;
        }
    }
    true
}

fn kept_marks(course: &Course) -> usize {
    if course.is_kept {
        course.turns as usize
    } else {
        0
    }
}

// A worker for each caller, with passes that were split as the course says.
fn split_all(
    alloc: Global,
    turns: &Turns<Notes>,
    course: &Course,
    first: Pass<Notes>,
) -> Result<Vec<Worker>, AllocError>
    requires { IsPassOf (id_of turns.now) first }
    ensures { IfOk result (λ workers. AllOf (id_of turns.now) workers.items) }
{
    let mut workers = Vec::new(alloc);
    let mut pass = first;
    while pass.share() > 1 {
        let (next, rest) = split_one(turns, course, pass)?;
        add_worker(alloc, turns, course, &mut workers, next)?;
        pass = rest;
    }
    add_worker(alloc, turns, course, &mut workers, pass)?;
    Ok(workers)
}

// A pass with the share 1, and the rest of what was split.
fn split_one(
    turns: &Turns<Notes>,
    course: &Course,
    mut pass: Pass<Notes>,
) -> Result<(Pass<Notes>, Pass<Notes>), AllocError>
    requires own { IsPassOf (id_of turns.now) pass }
    requires share { 1 < share_of pass }
    ensures next { IfOk result (λ r. IsPassOf (id_of turns.now) r.0) }
    ensures rest { IfOk result (λ r. IsPassOf (id_of turns.now) r.1) }
    ensures less { IfOk result (λ r. share_of r.1 < share_of pass) }
{
    let share = pass.share();
    if course.is_chain {
        match turns.split(&mut pass, share - 1) {
            Ok(rest) => Ok((pass, rest)),
            Err(_) => Err(AllocError),
        }
    } else {
        match turns.split(&mut pass, 1) {
            Ok(next) => Ok((next, pass)),
            Err(_) => Err(AllocError),
        }
    }
}

fn add_worker(
    alloc: Global,
    turns: &Turns<Notes>,
    course: &Course,
    workers: &mut Vec<Worker>,
    pass: Pass<Notes>,
) -> Result<(), AllocError>
    requires pass { IsPassOf (id_of turns.now) pass }
    requires others { AllOf (id_of turns.now) workers.old.items }
    ensures { OnOk result (AllOf (id_of turns.now) workers.new.items) }
{
    let seed = course.seed.wrapping_add(workers.len() as u64);
    let worker = Worker::new(alloc, pass, seed, kept_marks(course), course.is_slow)?;
    match workers.push(worker) {
        Ok(()) => Ok(()),
        Err(_) => Err(AllocError),
    }
}

// Each worker takes his turns, all at once.
fn work_all<R: Threads + Wait + Clock + Sync>(
    rt: &R,
    turns: &Turns<Notes>,
    workers: &mut [Worker],
    count: u32,
)
    requires { AllOf (id_of turns.now) workers.old }
    ensures { AllOf (id_of turns.now) workers.new }
{
    thread::for_each_mut(
        rt,
        workers,
        MOST_CALLERS,
        &|_, worker| worker.work(rt, turns, count),
    );
}

// What each worker has seen, and the pass into which all were joined in the order of the course.
fn join_all(
    alloc: Global,
    turns: &Turns<Notes>,
    course: &Course,
    mut workers: Vec<Worker>,
) -> Result<(Vec<Vec<Mark>>, Pass<Notes>), AllocError>
    requires { AllOf (id_of turns.now) workers.items }
    ensures { IfOk result (λ r. IsPassOf (id_of turns.now) r.1) }
{
    let mut seen = Vec::new(alloc);
    let mut places = course.places.iter();
    let mut pass = take_worker(turns, &mut workers, places.next(), &mut seen)?;
    for place in places {
        let other = take_worker(turns, &mut workers, Some(place), &mut seen)?;
        turns.join(&mut pass, other);
    }
    Ok((seen, pass))
}

// The pass of the worker at this place, counted round. What he has seen goes behind what others have.
fn take_worker(
    turns: &Turns<Notes>,
    workers: &mut Vec<Worker>,
    place: Option<&usize>,
    seen: &mut Vec<Vec<Mark>>,
) -> Result<Pass<Notes>, AllocError>
    requires { AllOf (id_of turns.now) workers.old.items }
    ensures pass { IfOk result (IsPassOf (id_of turns.now)) }
    ensures others { OnOk result (AllOf (id_of turns.now) workers.new.items) }
{
    let Some(place) = place else {
        return Err(AllocError);
    };
    if workers.is_empty() {
        return Err(AllocError);
    }
    let index = *place % workers.len();
    let (marks, pass) = workers.swap_remove(index).into_parts();
    match seen.push(marks) {
        Ok(()) => Ok(pass),
        Err(_) => Err(AllocError),
    }
}
