// A piece of the output: the replies to as many lines as surely have room.
ghost use Rattle.std.specs.Prelude.{false, ◌≡◌, ◌+◌, ◌≤◌, length};
ghost use Rattle.floor.specs.Refusals.{Tells};
ghost use Rattle.plan.specs.Lent.{lists_of};
ghost use Rattle.opening.specs.Grounds.{surveyed_on, Walkable};
ghost use Rattle.replying.specs.Replies.{Begins};
ghost use Rattle.replying.specs.Pieces.{LineLeft, PieceRoom, FinishedTo, PieceMade};

use super::{Input, Spot, refuse, reply_to};
use floor::Floor;
use plan::Plan;

// Where a piece is full: of 131,072 bytes it leaves room for a reply, at most 98,432, and for a refusal after it, at most 64.
const FULL: usize = 32576;

// Whether a line is left at a spot and the piece has room for its reply.
fn has_line(text: &[u8], spot: Spot) -> bool
    ensures { Tells (LineLeft text.now spot) result }
{
    !spot.last && spot.used <= FULL && spot.at < text.len()
}

// Ends the output where the text ends. A line that the input goes on with there is past the bytes that are taken, and does not fit.
fn finish(input: &Input, spot: Spot, out: &mut [u8]) -> Spot
    requires { spot.last ≡ false → spot.used + 64 ≤ length out.old }
    ensures { FinishedTo input.now.text.now input.now.more spot out.old out.new result }
{
    if spot.last || spot.at < input.text.len() {
        return spot;
    }
    if input.more {
        return refuse(spot, out);
    }
    Spot { last: true, ..spot }
}

// Answers lines until the text ends, a line does not fit or the piece is full. The three lists that are written stay apart: a struct of
// them would have to be taken apart for each call, since the query and the writers take one list each.
pub fn fill(
    input: &Input,
    from: Spot,
    floor: &Floor,
    plan: &Plan,
    route: &mut [u16],
    work: &mut [u32],
    out: &mut [u8],
) -> Spot
    requires walkable { Walkable (surveyed_on floor.now.grid (lists_of plan.now)) }
    requires begins { Begins input.now.text.now from × PieceRoom route.old work.old out.old from.used }
    ensures { PieceMade (surveyed_on floor.now.grid (lists_of plan.now)) input.now.text.now input.now.more from out.old out.new result }
{
    let mut spot = from;
    // How many lines a piece takes is known only by writing them.
    while has_line(input.text, spot) {
        spot = reply_to(input.text, spot, floor, plan, route, work, out);
    }
    finish(input, spot, out)
}
