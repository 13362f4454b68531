//! Threads that each run one task, and what their results say.

ghost use Rattle.std.specs.Prelude.{◌≡◌, ◌∷◌, ◌++◌, [], ◌<◌, ◌≤◌, IfOk, IfSome, OnOk, OnErr, length, vec_len};
ghost use Rattle.std.specs.Prelude.{vec_capacity};
ghost use Rattle.std.specs.Prelude.{map};
ghost use Rattle.std.specs.List.{AllZip, AllByRecursion};
ghost use Rattle.lmtp_threads.specs.CrewTasks.{CrewState};

use std::alloc::{AllocError, Global};
use std::marker::Model;
use std::snapshot::Snapshot;
use std::sync::{Arc, OnceLock, Wait};
use std::thread;
use std::thread::{Promise, PromisedHandle, Threads};

/// What one thread does.
pub trait Task: Drop {
    type Output: Drop;

    // what holds of the task before it runs
    ghost ready: { Self → Type 0 };

    // what its output says of it
    ghost done: { Self → Self.Output → Type 0 };

    fn run<R: Wait>(self, rt: &R) -> Self::Output
        requires { ready self }
        ensures { done self result };
}

/// The promise that a task is done, unless its thread ended before it.
#[derive(Drop)]
pub struct Does<T: Task>(Snapshot<T>);

impl<T: Task> Promise<Option<T::Output>> for Does<T> {
    ghost use Rattle.std.specs.Prelude.{IfSome};

    ghost kept_by = { λ p r. IfSome r (T.done p.0.value) };
}

/// No thread could be made.
#[derive(Clone, Copy)]
pub struct Refused;

/// Threads that have started, each with its task. The memory for their results is there.
#[derive(Drop)]
pub struct Crew<T: Task> {
    handles: Vec<PromisedHandle<Option<T::Output>, Does<T>>>,
    results: Vec<T::Output>,
    // whether all threads have started, for which each waits before its task
    all_started: Arc<OnceLock<bool>>,
}

impl<T: Task> Model for Crew<T> {
    ghost Value = { CrewState T };

    ghost view = { λ c. record {
      tasks = map (λ h. h.promise.0.value) c.handles.items;
      room = vec_capacity c.results;
    } };

    ghost invariant = { λ c. (c.results.items ≡ []) × (vec_len c.handles ≤ vec_capacity c.results)
        × (vec_capacity c.results ≤ vec_capacity c.handles) };
}

impl<T: Task> Crew<T> {
    /// No thread yet, and room for that many.
    pub fn with_capacity(alloc: Global, room: usize) -> Result<Crew<T>, AllocError>
        ensures { IfOk result (λ c. c ≡ record { tasks = []; room = room }) }
    {
        Ok(Crew {
            handles: Vec::with_capacity(alloc, room)?,
            results: Vec::with_capacity(alloc, room)?,
            all_started: Arc::new(alloc, OnceLock::new())?,
        })
    }
}

// Runs the task once all threads of its crew have started. None: one was refused, and the task is dropped.
fn run_with_all<T: Task, R: Wait>(
    rt: &R,
    all_started: &OnceLock<bool>,
    task: T,
) -> Option<T::Output>
    requires { T.ready task }
    ensures { IfSome result (T.done task) }
{
    if *all_started.wait(rt) {
        Some(task.run(rt))
    } else {
        None
    }
}

impl<T: Task + Send + 'static> Crew<T>
where
    T::Output: Send + 'static,
{
    // Starts a thread for the task. The task is dropped where no thread can be made.
    fn start<R: Threads + Wait + Copy + Send + 'static>(
        &mut self,
        rt: R,
        task: T,
    ) -> Result<(), Refused>
        requires room { length self.old.tasks < self.old.room }
        requires ready { T.ready task }
        ensures ok { OnOk result (self.new ≡ record { tasks = self.old.tasks ++ task ∷ []; room = self.old.room }) }
        ensures err { OnErr result (self.new ≡ self.old) }
    {
        let Ok(all_started) = Arc::try_clone(&self.all_started) else {
            return Err(Refused);
        };
        let promise = Does(Snapshot::of(&task));
        let run = move || -> Option<T::Output>
            requires { T.ready task }
            ensures { IfSome result (T.done task) }
        { run_with_all(&rt, &all_started, task) };
        match thread::spawn_with(&rt, promise, run) {
            Ok(handle) => {
                self.handles.push_reserved(handle);
                Ok(())
            }
            Err(_refused) => Err(Refused),
        }
    }

    // Starts a thread for each task, in their order, up to the first that is refused.
    fn start_each<R: Threads + Wait + Copy + Send + 'static>(
        &mut self,
        rt: R,
        tasks: Vec<T>,
    ) -> Result<(), Refused>
        requires none { self.old.tasks ≡ [] }
        requires room { vec_len tasks ≤ self.old.room }
        requires ready { AllByRecursion (λ task. T.ready task) tasks.items }
        ensures { OnOk result (self.new.tasks ≡ tasks.items) }
    {
        for task in tasks {
            self.start(rt, task)?;
        }
        Ok(())
    }

    /// Starts a thread for each task. They run their tasks once all have started; where one is refused none of them does.
    pub fn start_all<R: Threads + Wait + Copy + Send + 'static>(
        &mut self,
        rt: R,
        tasks: Vec<T>,
    ) -> Result<(), Refused>
        requires none { self.old.tasks ≡ [] }
        requires room { vec_len tasks ≤ self.old.room }
        requires ready { AllByRecursion (λ task. T.ready task) tasks.items }
        ensures { OnOk result (self.new.tasks ≡ tasks.items) }
    {
        let started = self.start_each(rt, tasks);
        let _ = self.all_started.set(&rt, started.is_ok());
        started
    }
}

impl<T: Task> Crew<T> {
    /// Waits for each thread. The outputs stand in the order of the tasks. None: a task wasn't run, since not all threads
    /// could be started.
    pub fn join<R: Threads>(self, rt: &R) -> Option<Vec<T::Output>>
        ensures { IfSome result (λ outputs. AllZip (λ task output. T.done task output) self.tasks outputs.items) }
    {
        let Crew {
            handles,
            mut results,
            all_started: _,
        } = self;
        let mut is_whole = true;
        for handle in handles {
            match handle.join(rt) {
                Some(output) => results.push_reserved(output),
                None => is_whole = false,
            }
        }
        if is_whole { Some(results) } else { None }
    }
}
