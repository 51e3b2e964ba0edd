//! The program of a selector, while it is written.
ghost use Rattle.std.specs.Prelude.{◌≡◌, ◌≤◌, ◌<◌, ◌∷◌, [], length, IfOk};
ghost use Rattle.tl_css.specs.Program.{after_step, change, fewer, last_waiting, meet, unite, waiting_after};
ghost use Rattle.tl_css.specs.Selector as s;
ghost use Rattle.tl_css.specs.View.{test};

use crate::selector::{Formula, Link, Reach, Step, Test, Way};
use std::alloc::{AllocError, Global};

/// Steps, and how many selectors wait after them.
#[derive(Drop)]
pub struct Program {
    pub steps: Vec<Step>,
    pub waiting: usize,
    ghost counted: { waiting ≡ length (waiting_after steps.items) },
}

impl Program {
    #[tactic(auto, using(crate::proofs::Waiting::waiting_none))]
    pub fn new(alloc: Global) -> Program
        ensures { waiting_after result.steps.items ≡ [] }
    {
        Program {
            steps: Vec::new(alloc),
            waiting: 0,
        }
    }

    // A step, after which so many wait.
    #[tactic(auto, using(crate::proofs::Waiting::waiting_more))]
    fn step(self, step: Step, waiting: usize) -> Result<Program, AllocError>
        requires { waiting ≡ length (after_step step (waiting_after self.steps.items)) }
        ensures { IfOk result (λ p. waiting_after p.steps.items
            ≡ after_step step (waiting_after self.steps.items)) }
    {
        let Program {
            mut steps,
            waiting: _,
        } = self;
        steps.push(step)?;
        Ok(Program { steps, waiting })
    }

    pub fn ask(self, asked: Test) -> Result<Program, AllocError>
        requires { length (waiting_after self.steps.items) < 60 }
        ensures { IfOk result (λ p. waiting_after p.steps.items
            ≡ s.Is (test asked) ∷ waiting_after self.steps.items) }
    {
        let waiting = self.waiting + 1;
        self.step(Step::Ask(asked), waiting)
    }

    /// The last one and a test, or the test alone where none waits.
    #[tactic(auto, using(crate::proofs::Waiting::meet_len))]
    pub fn keep(self, asked: Test) -> Result<Program, AllocError>
        ensures { IfOk result (λ p. waiting_after p.steps.items
            ≡ meet (s.Is (test asked) ∷ waiting_after self.steps.items)) }
    {
        let waiting = self.waiting.max(1);
        self.step(Step::Keep(asked), waiting)
    }

    #[tactic(auto, using(crate::proofs::Waiting::change_len))]
    pub fn turn(self) -> Result<Program, AllocError>
        ensures { IfOk result (λ p. waiting_after p.steps.items
            ≡ change s.Not (waiting_after self.steps.items)) }
    {
        let waiting = self.waiting;
        self.step(Step::Turn, waiting)
    }

    #[tactic(auto, using(crate::proofs::Waiting::meet_len))]
    pub fn meet(self) -> Result<Program, AllocError>
        ensures { IfOk result (λ p. waiting_after p.steps.items
            ≡ meet (waiting_after self.steps.items)) }
    {
        let waiting = fewer(self.waiting);
        self.step(Step::Meet, waiting)
    }

    #[tactic(auto, using(crate::proofs::Waiting::unite_len))]
    pub fn unite(self) -> Result<Program, AllocError>
        ensures { IfOk result (λ p. waiting_after p.steps.items
            ≡ unite (waiting_after self.steps.items)) }
    {
        let waiting = fewer(self.waiting);
        self.step(Step::Unite, waiting)
    }

    #[tactic(auto, using(crate::proofs::Waiting::change_len))]
    pub fn shift(self, way: Way, link: Link, reach: Reach) -> Result<Program, AllocError>
        ensures { IfOk result (λ p. waiting_after p.steps.items
            ≡ change (s.At way link reach) (waiting_after self.steps.items)) }
    {
        let waiting = self.waiting;
        self.step(Step::Shift(way, link, reach), waiting)
    }

    #[tactic(auto, using(crate::proofs::Waiting::change_len))]
    pub fn count(self, way: Way, link: Link, formula: Formula) -> Result<Program, AllocError>
        ensures { IfOk result (λ p. waiting_after p.steps.items
            ≡ change (s.Nth way link formula) (waiting_after self.steps.items)) }
    {
        let waiting = self.waiting;
        self.step(Step::Count(way, link, formula), waiting)
    }
}

// How many wait where the last two are put together.
fn fewer(waiting: usize) -> usize
    ensures { result ≡ fewer waiting }
{
    if waiting > 1 { waiting - 1 } else { waiting }
}
