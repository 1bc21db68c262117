// The replies to the lines of the text that floorwalk takes. One line's reply is made here: the trip that it asks is answered, and the answer
// written as a line. `filling` puts replies together to a piece of the output.
#![tactic(auto)]

ghost use Rattle.std.specs.Prelude.{false, [], ◌∷◌, ◌≡◌, ◌+◌, ◌<◌, ◌≤◌, length};
ghost use Rattle.writing.specs.Answers.{Put};
ghost use Rattle.plan.specs.Lent.{lists_of};
ghost use Rattle.opening.specs.Grounds.{surveyed_on, Walkable};
ghost use Rattle.replying.specs.Replies.{reply_line, Printable, PutLine, Begins, Room, RefusedAt, RepliedTo};

use floor::Floor;
use plan::Plan;
use telling::Answer;

mod filling;

pub use filling::fill;

const NEWLINE: u8 = b'\n';

// The text that is taken of the input, and whether the input goes on after it.
#[derive(Clone, Copy)]
pub struct Input<'a> {
    pub text: &'a [u8],
    pub more: bool,
}

// Where a line of the text begins, its number, how many bytes of output there are so far, and whether they are the last. That
// is beside the counts, since the bytes are written after the last line too.
#[derive(Clone, Copy)]
pub struct Spot {
    pub at: usize,
    pub line: usize,
    pub used: usize,
    pub last: bool,
}

// Ends a line. It goes by the list and a place in it, since the cursor of `writing` is that crate's own.
fn put_newline(out: &mut [u8], at: usize) -> usize
    requires { at < length out.old }
    ensures { Put out.old out.new at result (10 ∷ []) }
{
    out[at] = NEWLINE;
    at + 1
}

// The line of an answer, with the route where there is one.
fn put_reply(out: &mut [u8], a: Answer, route: &[u16]) -> usize
    requires { Printable a route.now × (98432 ≤ length out.old) }
    ensures { PutLine 98432 out.old out.new 0 result (reply_line a route.now) }
{
    let end = writing::put_answer(
        out,
        u64::from(a.code),
        u64::from(a.straight),
        u64::from(a.diagonal),
        u64::from(a.cells),
        u64::from(a.effort),
        lengths::figure(a.straight, a.diagonal),
    );
    if a.code == 0 {
        let cells = a.cells as usize;
        let last = writing::put_route(out, end, &route[..cells]);
        return put_newline(out, last);
    }
    put_newline(out, end)
}

// Refuses the line at a spot: nothing follows.
fn refuse(spot: Spot, out: &mut [u8]) -> Spot
    requires { spot.used + 64 ≤ length out.old }
    ensures { RefusedAt spot out.old out.new result }
{
    let n = writing::put_input_refused(&mut out[spot.used..], spot.line as u64);
    Spot {
        used: spot.used + n,
        last: true,
        ..spot
    }
}

// Reads the line at a spot of the text and answers it. The floor was surveyed, so its plan is not compared again.
fn reply_to(
    text: &[u8],
    spot: Spot,
    floor: &Floor,
    plan: &Plan,
    route: &mut [u16],
    work: &mut [u32],
    out: &mut [u8],
) -> Spot
    requires walkable { Walkable (surveyed_on floor.now.grid (lists_of plan.now)) }
    requires begins { Begins text.now spot × Room route.old work.old out.old spot.used }
    ensures { RepliedTo (surveyed_on floor.now.grid (lists_of plan.now)) text.now spot out.old out.new result }
{
    let Some(trip) = reading::read_four(text, spot.at) else {
        return refuse(spot, out);
    };
    let a = query::ask(floor, plan, trip.start, trip.goal, route, work);
    let n = put_reply(&mut out[spot.used..], a, route);
    Spot {
        at: trip.next,
        line: spot.line + 1,
        used: spot.used + n,
        last: false,
    }
}
