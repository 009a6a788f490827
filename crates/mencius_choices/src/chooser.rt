//! The choices of a worker.
ghost use Rattle.std.specs.Prelude.{◌≡◌, ◌+◌, ◌<◌, ◌^◌, ◌∷◌, [], MatchOption, MatchResult, IfOk, IfSome, map};
ghost use Rattle.mencius_base.specs.Limits.{most_servers};
ghost use Rattle.mencius_base.specs.Members.{numbers_below};
ghost use Rattle.mencius_base.specs.declared.event.Event.TheVariants.{Submit};
ghost use Rattle.mencius_choices.specs.Order.{after_place};
ghost use Rattle.mencius_choices.specs.Choices.{IsChoice, IsPutOff, after_words, chooser_at, first_chooser, words_of};

use crate::choice::Pick;
use crate::order::{CommandPlace, find_after, find_from_row, own_command};
use crate::table::pick;
use mencius_base::{Command, Event, NoMemory, Plan};
use mencius_cluster::Cluster;
use rand_core::utils::NextWord;
use rand_pcg::Lcg64Xsh32;
use std::alloc::Global;
use std::marker::Model;

/// The state of a worker's choices so far. It borrows nothing, so a thread can return it.
#[derive(Drop)]
pub struct Progress {
    worker: u8,
    generator: Lcg64Xsh32,
    // The place of the worker's next command, if one is left.
    next: Option<CommandPlace>,
}

impl Model for Progress {
    ghost use Rattle.mencius_choices.specs.Choices.{ProgressState};

    ghost Value = { ProgressState };

    ghost view = { λ x. record {
      drawing = record { worker = x.worker; generator = x.generator };
      next = x.next;
    } };
}

/// The choices of one worker. They depend only on the plan, the worker's number and the clusters that it is shown.
///
/// Contracts see the plan, the worker's number with its generator, and the commands that the worker has left, in the
/// order in which they come.
#[derive(Drop)]
pub struct Chooser<'a> {
    plan: &'a Plan,
    progress: Progress,
}

impl<'a> Model for Chooser<'a> {
    ghost use Rattle.mencius_choices.specs.Choices.{ChooserState, chooser_at};

    ghost Value = { ChooserState };

    ghost view = { λ x. chooser_at x.plan.now x.progress };
}

impl<'a> Chooser<'a> {
    /// Returns the choices of a worker of the plan, before the first one. Workers are numbered from 0. The words come
    /// from the generator `Lcg64Xsh32` with the plan's seed and the worker's number. The call does not allocate memory.
    pub fn new(plan: &'a Plan, worker: u8) -> Chooser<'a>
        requires { worker < plan.now.workers }
        ensures { result ≡ first_chooser plan.now worker }
    {
        let progress = Progress {
            worker,
            generator: Lcg64Xsh32::new(plan.seed(), u64::from(worker)),
            next: find_from_row(plan, worker, 0),
        };
        Chooser { plan, progress }
    }

    /// Returns the choices of a worker of the plan, continued from `progress`.
    pub fn of(plan: &'a Plan, progress: Progress) -> Chooser<'a>
        ensures { result ≡ chooser_at plan.now progress }
    {
        Chooser { plan, progress }
    }

    /// Returns the state of the choices so far. [`Chooser::of`] continues from it with the same plan.
    pub fn into_progress(self) -> Progress
        ensures { chooser_at self.entry.plan result ≡ self.entry }
    {
        let Chooser { plan: _, progress } = self;
        progress
    }

    /// Draws three words, and returns the event that they pick on this cluster. If they pick the worker's next command,
    /// the event submits it at the server whose list contains it. A command is chosen only once, even if the cluster
    /// then refuses it.
    ///
    /// Fails with `NoMemory` only if the words pick the next command and there is not enough memory for a copy of it.
    /// The words are drawn in this case too, and the command stays the next one.
    pub fn choose(&mut self, cluster: &Cluster) -> Result<Event, NoMemory>
        ensures { MatchResult result (λ e. IsChoice self.old cluster.now e self.new)
            (λ _. IsPutOff self.old cluster.now self.new) }
    {
        let words = self.draw();
        let next = self.find_command();
        match pick(words, self.plan.loss(), next.is_some(), cluster) {
            Pick::Is(event) => Ok(event),
            Pick::NextCommand => {
                let (place, command) = next.unwrap();
                self.submit(place, command)
            }
        }
    }

    // Returns the event that submits a command, which is the worker's next one. Moves on to the command after it.
    fn submit(&mut self, place: CommandPlace, command: &Command) -> Result<Event, NoMemory>
        requires server { place.server < most_servers }
        requires row { place.row + 1 < 2 ^ 64 }
        requires next { self.old.left
            ≡ (place.server, command.now)
            ∷ after_place self.old.plan self.old.drawing.worker place }
        ensures { let rest = after_place self.old.plan self.old.drawing.worker place in
            MatchResult result
            (λ e. (e ≡ Submit place.server command.now)
            × (self.new ≡ record self.old { left = rest }))
            (λ _. self.new ≡ self.old) }
    {
        let command = command.clone()?;
        self.progress.next = find_after(self.plan, self.progress.worker, place);
        let server = place.server;
        Ok(Event::Submit { server, command })
    }

    // Returns the worker's next command and its place, if one is left.
    fn find_command(&self) -> Option<(CommandPlace, &'a Command)>
        ensures next { MatchOption result (self.now.left ≡ [])
            (λ x. self.now.left
            ≡ (x.0.server, x.1.now) ∷ after_place self.now.plan self.now.drawing.worker x.0) }
        ensures server { IfSome result (λ x. x.0.server < most_servers) }
        ensures row { IfSome result (λ x. x.0.row + 1 < 2 ^ 64) }
    {
        let place = self.progress.next?;
        let command = own_command(self.plan, self.progress.worker, place)?;
        Some((place, command))
    }

    // Draws the next three words and returns them.
    fn draw(&mut self) -> [u32; 3]
        ensures words { result ≡ words_of self.old.drawing.generator }
        ensures drawn { self.new ≡ record self.old { drawing = after_words self.old.drawing } }
    {
        let first = self.progress.generator.next_word();
        let second = self.progress.generator.next_word();
        let third = self.progress.generator.next_word();
        [first, second, third]
    }
}

/// The choosers of all workers of a plan before any turn, in the order of the workers' numbers.
///
/// # Errors
///
/// `NoMemory` if there is no memory for the list.
pub fn first_choosers<'a>(alloc: Global, plan: &'a Plan) -> Result<Vec<Chooser<'a>>, NoMemory>
    ensures { IfOk result (λ x. x.items ≡ map (first_chooser plan.now) (numbers_below plan.now.workers)) }
{
    let mut choosers = Vec::with_capacity(alloc, usize::from(plan.workers()))?;
    for worker in 0..plan.workers() {
        choosers.push_reserved(Chooser::new(plan, worker));
    }
    Ok(choosers)
}
