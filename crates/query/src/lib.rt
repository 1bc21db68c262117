// One question, whatever is lent: the refusals 1 to 11, then the answer.
#![tactic(auto)]

ghost use Rattle.floor.specs.Lent.{on};
ghost use Rattle.floor.specs.Codes.{number};
ghost use Rattle.plan.specs.Lent.{lists_of};
ghost use Rattle.plan.specs.Plan.{Fits};
ghost use Rattle.answering.specs.Lent.{asked, asked_of};
ghost use Rattle.query.specs.Query.{QueryOutcome};
ghost use Rattle.query.specs.Refusing.{CodeOnly};

use floor::{Cell, Floor, Refusal};
use plan::Plan;
use telling::Answer;

mod refusing;

// The answer that gives a refusal's number.
fn refused(refusal: Refusal) -> Answer
    ensures { CodeOnly (number refusal) result }
{
    Answer {
        code: refusal as u32,
        straight: 0,
        diagonal: 0,
        cells: 0,
        effort: 0,
    }
}

// What follows the checks of floor and plan, for callers that have made them: the refusals 9 to 11, then the answer. What is
// read, what is asked and what is written stay six arguments: the lists that are written are lent on one by one.
pub fn ask(
    floor: &Floor,
    plan: &Plan,
    start: Cell,
    goal: Cell,
    route: &mut [u16],
    work: &mut [u32],
) -> Answer
    requires { on Fits floor.now.grid (lists_of plan.now) }
    ensures { QueryOutcome (asked floor.now.grid (lists_of plan.now) start goal route.old work.old) result route.new work.new }
{
    match refusing::check_ends(floor, start, goal, plan.corners.len(), work.len()) {
        Ok(()) => answering::answer(floor, plan, start, goal, route, work),
        Err(refusal) => refused(refusal),
    }
}

// Answers one question, whatever is lent: the refusals of floor and plan first. It takes words, w and h, which are not a floor yet.
pub fn query(
    words: &[u64],
    w: usize,
    h: usize,
    plan: &Plan,
    start: Cell,
    goal: Cell,
    route: &mut [u16],
    work: &mut [u32],
) -> Answer
    ensures { QueryOutcome (asked_of w h words.now (lists_of plan.now) start goal route.old work.old) result route.new work.new }
{
    match refusing::check_plan(words, w, h, plan) {
        Ok(floor) => ask(&floor, plan, start, goal, route, work),
        Err(refusal) => refused(refusal),
    }
}
