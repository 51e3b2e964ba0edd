//! What has been read of a selector text.
ghost use Rattle.std.specs.Prelude.{◌≡◌, ◌≤◌, ◌<◌, ◌∷◌, reverse, map, length, IfOk, MatchResult, Ok};
ghost use Rattle.tl_css.specs.Program.{change, unite, meet, waiting_after};
ghost use Rattle.tl_css.specs.PseudoClass as p;
ghost use Rattle.tl_css.specs.Selector as s;
ghost use Rattle.tl_css.specs.Reading.{combine, meet_if, finish, lead, link_of, unite_if, apply_role, opened, reach_of, relate, seen, start, close, taken, with_before, with_simple};
ghost use Rattle.tl_css.specs.SimpleView.{run_text, simple, test_text, whole};
ghost use Rattle.tl_css.specs.ItemView.{item};
ghost use Rattle.tl_css.specs.StateView as v;
ghost use Rattle.tl_css.specs.StateView.{IsFailure};
ghost use Rattle.tl_css.specs.StateView.{open_list, state};
ghost use Rattle.tl_css.specs.View.{test};

use crate::error::{Cause, Failure, Wrong};
use crate::selector::{Anchor, Link, Reach, Selector, Test, Way};
use crate::text::attribute::{Run, TestText};
use crate::text::item::Item;
use crate::text::program::Program;
use crate::text::pseudo_class::{Simple, Whole};
use crate::text::role::{Before, Combinator, Role};
use crate::text::run::{ident_text, run_text};
use std::alloc::{AllocError, Global};

/// A list of complex selectors that is being read.
#[derive(Drop)]
pub struct Open {
    pub role: Role,
    /// How many bytes are left from its bracket on.
    pub left: usize,
    /// Whether a complex selector of it stands already.
    pub listed: bool,
    /// Whether a simple selector of the present compound stands already.
    pub begun: bool,
    /// In a relative selector, the combinators before each compound.
    pub combinators: Vec<Combinator>,
}

/// What has been read: the selectors that wait to be put together, the list that is being read, and
/// those around it.
#[derive(Drop)]
pub struct State {
    pub program: Program,
    pub open: Open,
    pub outer: Vec<Open>,
}

impl Open {
    fn new(alloc: Global, role: Role, left: usize) -> Open
        ensures { open_list result ≡ opened role left }
    {
        Open {
            role,
            left,
            listed: false,
            begun: false,
            combinators: Vec::new(alloc),
        }
    }
}

// The test that is not decoded yet.
fn decode_test(alloc: Global, own: TestText<'_>) -> Result<Test, AllocError>
    ensures { IfOk result (λ t. test t ≡ test_text own.entry) }
{
    Ok(match own {
        TestText::Any => Test::Any,
        TestText::Name(name) => Test::Name(ident_text(alloc, name)?),
        TestText::Id(id) => Test::Id(run_text(alloc, None, id)?),
        TestText::Class(class) => Test::Class(run_text(alloc, None, class)?),
        TestText::Key(space, key) => Test::Key(space, ident_text(alloc, key)?),
        TestText::Value(space, key, op, Run { quote, text }, case) => Test::Value(
            space,
            ident_text(alloc, key)?,
            op,
            run_text(alloc, quote, text)?,
            case,
        ),
        TestText::Empty => Test::Empty,
    })
}

// No link leads from here, or to here.
fn edge(program: Program, way: Way, link: Link) -> Result<Program, AllocError>
    requires { length (waiting_after program.steps.items) < 60 }
    ensures { IfOk result (λ q. waiting_after q.steps.items ≡ p.edge way link
        ∷ waiting_after program.steps.items) }
{
    program
        .ask(Test::Any)?
        .shift(way, link, Reach::Once)?
        .turn()
}

// The outermost tag that may be an anchor.
fn outermost(program: Program, anchor: Anchor) -> Result<Program, AllocError>
    requires { length (waiting_after program.steps.items) ≤ 58 }
    ensures { IfOk result (λ q. waiting_after q.steps.items ≡ p.outermost anchor
        ∷ waiting_after program.steps.items) }
{
    program
        .ask(Test::May(anchor))?
        .ask(Test::May(anchor))?
        .shift(Way::From, Link::Parent, Reach::Once)?
        .turn()?
        .meet()
}

// The last one, put together with what is begun of its compound.
fn meet_if(program: Program, begun: bool) -> Result<Program, AllocError>
    ensures { IfOk result (λ p. waiting_after p.steps.items
        ≡ meet_if begun (waiting_after program.steps.items)) }
{
    if begun { program.meet() } else { Ok(program) }
}

fn add_test(program: Program, begun: bool, asked: Test) -> Result<Program, AllocError>
    requires { length (waiting_after program.steps.items) ≤ 58 }
    ensures { IfOk result (λ p. waiting_after p.steps.items
        ≡ meet_if begun (s.Is (test asked) ∷ waiting_after program.steps.items)) }
{
    if begun {
        program.keep(asked)
    } else {
        program.ask(asked)
    }
}

// A simple selector without a list, after what is begun of its compound.
fn with_whole(
    alloc: Global,
    program: Program,
    begun: bool,
    own: Whole<'_>,
) -> Result<Program, AllocError>
    requires { length (waiting_after program.steps.items) ≤ 58 }
    ensures { IfOk result (λ p. waiting_after p.steps.items
        ≡ meet_if begun (whole own.entry ∷ waiting_after program.steps.items)) }
{
    match own {
        Whole::Test(text) => add_test(program, begun, decode_test(alloc, text)?),
        Whole::Edge(way, link) => meet_if(edge(program, way, link)?, begun),
        Whole::Only(link) => {
            let first = edge(program, Way::From, link)?;
            meet_if(edge(first, Way::To, link)?.meet()?, begun)
        }
        Whole::Outermost(anchor) => meet_if(outermost(program, anchor)?, begun),
        Whole::Nowhere => meet_if(program.ask(Test::Any)?.turn()?, begun),
        Whole::Nth(way, link, formula) => {
            meet_if(program.ask(Test::Any)?.count(way, link, formula)?, begun)
        }
    }
}

// The last compound of a relative selector, seen from the one before it or from the anchor.
fn relate_last(program: Program, last: Combinator, more: bool) -> Result<Program, AllocError>
    ensures { IfOk result (λ p. waiting_after p.steps.items
        ≡ seen last more (waiting_after program.steps.items)) }
{
    let program = program.shift(Way::To, last.link(), last.reach())?;
    meet_if(program, more)
}

// The compounds of a relative selector.
fn relate(mut program: Program, combinators: &[Combinator]) -> Result<Program, AllocError>
    ensures { IfOk result (λ p. waiting_after p.steps.items
        ≡ relate (reverse combinators.now) (waiting_after program.steps.items)) }
{
    let mut left = combinators;
    'combinators: while let Some((last, before)) = left.split_last() {
        program = relate_last(program, *last, !before.is_empty())?;
        left = before;
    }
    Ok(program)
}

fn unite_if(program: Program, more: bool) -> Result<Program, AllocError>
    ensures { IfOk result (λ p. waiting_after p.steps.items
        ≡ unite_if more (waiting_after program.steps.items)) }
{
    if more { program.unite() } else { Ok(program) }
}

// What a list is made into.
fn apply_role(program: Program, role: Role) -> Result<Program, AllocError>
    ensures { IfOk result (λ p. waiting_after p.steps.items
        ≡ apply_role role (waiting_after program.steps.items)) }
{
    match role {
        Role::Top | Role::Is | Role::Has => Ok(program),
        Role::Not => program.turn(),
        Role::NthOf(way, formula) => program.count(way, Link::Sibling, formula),
    }
}

/// What comes of an item.
#[derive(Drop)]
pub enum Taken {
    Goes(State),
    Done(Selector),
}

/// How many selectors may wait where a simple selector begins.
const MOST_WAITING: usize = 58;

impl State {
    pub fn new(alloc: Global) -> State
        ensures { state result ≡ start }
    {
        State {
            program: Program::new(alloc),
            open: Open::new(alloc, Role::Top, 0),
            outer: Vec::new(alloc),
        }
    }

    fn combine(self, combinator: Combinator) -> Result<State, AllocError>
        ensures { IfOk result (λ st. state st ≡ combine combinator (state self)) }
    {
        let State {
            program,
            mut open,
            outer,
        } = self;
        if open.role.is_relative() {
            open.combinators.push(combinator)?;
            open.begun = false;
            return Ok(State {
                program,
                open,
                outer,
            });
        }
        let program = program.shift(Way::From, combinator.link(), combinator.reach())?;
        Ok(State {
            program,
            open,
            outer,
        })
    }

    fn with_before(self, before: Before) -> Result<State, AllocError>
        ensures { IfOk result (λ st. state st ≡ with_before before (state self)) }
    {
        match before {
            Before::After(combinator) => self.combine(combinator),
            Before::Begin(combinator) if self.open.role.is_relative() => self.combine(combinator),
            _ => Ok(self),
        }
    }

    fn with_simple(self, alloc: Global, own: Simple<'_>) -> Result<State, AllocError>
        requires { length (waiting_after self.program.steps.items) ≤ 58 }
        ensures { IfOk result (λ st. state st ≡ with_simple (simple own.entry) (state self)) }
    {
        let State {
            program,
            mut open,
            mut outer,
        } = self;
        match own {
            Simple::Whole(own) => {
                let program = with_whole(alloc, program, open.begun, own)?;
                open.begun = true;
                Ok(State {
                    program,
                    open,
                    outer,
                })
            }
            Simple::Opens(role, left) => {
                outer.push(open)?;
                Ok(State {
                    program,
                    open: Open::new(alloc, role, left),
                    outer,
                })
            }
        }
    }

    // The end of a complex selector.
    fn finish(self, alloc: Global) -> Result<State, AllocError>
        ensures { IfOk result (λ st. state st ≡ finish (state self)) }
    {
        let State {
            program,
            open,
            outer,
        } = self;
        let program = relate(program, open.combinators.as_slice())?;
        let program = unite_if(program, open.listed)?;
        let open = Open {
            role: open.role,
            left: open.left,
            listed: true,
            begun: false,
            combinators: Vec::new(alloc),
        };
        Ok(State {
            program,
            open,
            outer,
        })
    }

    // The end of a list whose last complex selector is ended.
    fn close(self) -> Result<Taken, AllocError>
        ensures { IfOk result (λ t. v.taken t
            ≡ close (state self) (reverse (map open_list self.outer.items))) }
    {
        let State {
            program,
            open,
            mut outer,
        } = self;
        let Some(mut around) = outer.pop() else {
            let Program { steps, waiting: _ } = program;
            return Ok(Taken::Done(Selector::new(steps)));
        };
        let program = meet_if(apply_role(program, open.role)?, around.begun)?;
        around.begun = true;
        Ok(Taken::Goes(State {
            program,
            open: around,
            outer,
        }))
    }

    /// What comes of an item.
    pub fn take(self, alloc: Global, next: Item<'_>) -> Result<Taken, Failure>
        ensures { MatchResult result
            (λ t. taken (item next.entry) (state self) ≡ Ok (v.taken t))
            (λ failure. IsFailure failure (taken (item next.entry) (state self))) }
    {
        match next {
            Item::End => Ok(self.finish(alloc)?.close()?),
            Item::Comma => Ok(Taken::Goes(self.finish(alloc)?)),
            Item::Part(before, left, own) => {
                if self.program.waiting > MOST_WAITING {
                    let cause = Cause::TooDeep;
                    return Err(Failure::Text(Wrong { left, cause }));
                }
                Ok(Taken::Goes(self.with_before(before)?.with_simple(alloc, own)?))
            }
        }
    }
}
