// floorwalk: reads a floor and trips from standard input, surveys the floor and answers trip by trip.
//
// Reading and writing are here. What is written is made by the crates `opening` and `replying`, on slices, where promises can speak of it.
#![tactic(auto)]

ghost use Rattle.std.specs.Prelude.{false, ◌≡◌, ◌+◌, ◌<◌, ◌≤◌, length, IfOk};
ghost use Rattle.survey.specs.Survey.{lists};
ghost use Rattle.plan.specs.Lent.{lists_of};
ghost use Rattle.opening.specs.Grounds.{surveyed_on, Walkable};
ghost use Rattle.replying.specs.Replies.{Begins, spot_of};
ghost use Rattle.opening.specs.Openings.{Kept};
ghost use Rattle.replying.specs.Pieces.{PieceRoom};

use floor::{Floor, Grid};
use opening::{Site, open_site};
use plan::Plan;
use replying::{Input, Spot, fill};
use std::io;
use std::io::{Read, Stdin, Stdout, Write};

// Writes the output so far; the spot has none then.
fn flush(to: &mut Stdout, out: &[u8], spot: Spot) -> io::Result<Spot>
    requires { spot.used ≤ length out.now }
    ensures { IfOk result (λ s. s ≡ spot_of spot.at spot.line 0 spot.last) }
{
    let used = spot.used;
    to.write_all(&out[..used])?;
    Ok(Spot { used: 0, ..spot })
}

// Writes the output so far and the replies to the lines from a spot on, piece by piece.
fn write_pieces(
    to: &mut Stdout,
    input: &Input,
    first: Spot,
    floor: &Floor,
    plan: &Plan,
    route: &mut [u16],
    work: &mut [u32],
    out: &mut [u8],
) -> io::Result<()>
    requires walkable { Walkable (surveyed_on floor.now.grid (lists_of plan.now)) }
    requires begins { Begins input.now.text.now first × PieceRoom route.old work.old out.old first.used }
{
    let mut spot = first;
    // How many lines a piece takes, and so how many pieces there are, is known only by writing them.
    while !spot.last {
        spot = fill(input, spot, floor, plan, route, work, out);
        spot = flush(to, out, spot)?;
    }
    Ok(())
}

// Where the trips of a surveyed floor begin: the sizes and the map are h + 1 lines.
fn first_spot(site: Site) -> Spot
    requires { site.h ≤ 255 }
    ensures { result ≡ spot_of site.next (site.h + 2) site.used false }
{
    Spot {
        at: site.next,
        line: site.h + 2,
        used: site.used,
        last: false,
    }
}

// Writes the replies of a surveyed floor, whose line stands in the output already. The lists come one by one, as the survey has them, and whole, and are cut
// to floor and plan here.
// A route has at most 16,384 cells, and a plan of 2,048 turning points takes 6 * 2,050 work entries.
fn write_replies(
    to: &mut Stdout,
    input: &Input,
    site: Site,
    words: &[u64],
    clear: &[u8],
    corners: &[u16],
    starts: &[u16],
    arcs: &[u16],
    out: &mut [u8],
) -> io::Result<()>
    requires { Kept input.now.text.now site words.now (lists clear.now corners.now starts.now arcs.now) out.old }
{
    let mut route = [0u16; 16384];
    let mut work = [0u32; 12300];
    let Site { w, h, .. } = site;
    let n = h * floor::row_words(w);
    let floor = Floor {
        grid: Grid {
            words: &words[..n],
            w,
            h,
        },
    };
    let plan = Plan {
        clear: &clear[..4 * (w * h)],
        corners: &corners[..site.corners],
        starts: &starts[..site.corners + 1],
        neighbours: &arcs[..site.arcs],
    };
    write_pieces(
        to,
        input,
        first_spot(site),
        &floor,
        &plan,
        &mut route,
        &mut work,
        out,
    )
}

// Answers a whole text, after which the input goes on or ends. The lists have the largest sizes that a plan may need.
fn walk(to: &mut Stdout, input: &Input) -> io::Result<()> {
    let mut words = [0u64; 512];
    let mut clear = [0u8; 65536];
    let mut corners = [0u16; 2048];
    let mut starts = [0u16; 2049];
    let mut arcs = [0u16; 32768];
    let mut out = [0u8; 131072];
    match open_site(
        input.text,
        &mut words,
        &mut clear,
        &mut corners,
        &mut starts,
        &mut arcs,
        &mut out,
    ) {
        Err(refused) => to.write_all(&out[..refused.used]),
        Ok(site) => write_replies(
            to, input, site, &words, &clear, &corners, &starts, &arcs, &mut out,
        ),
    }
}

// Reads until the list is full or the input ends, and tells how many bytes were read.
fn read_full(from: &mut Stdin, list: &mut [u8]) -> io::Result<usize>
    ensures { IfOk result (λ n. n ≤ length list.new) }
{
    let mut done = 0;
    // A read may give fewer bytes than there is room for, and `read_to_end` takes heap.
    while done < list.len() {
        let n = from.read(&mut list[done..])?;
        if n == 0 {
            break;
        }
        done += n;
    }
    Ok(done)
}

// Whether the input goes on after n bytes, of which 65,536 are taken at most.
fn goes_on(from: &mut Stdin, n: usize) -> io::Result<bool>
    ensures { IfOk result (λ more. n < 65536 → more ≡ false) }
{
    if n < 65536 {
        return Ok(false);
    }
    let mut one = [0u8; 1];
    let read = read_full(from, &mut one)?;
    Ok(read != 0)
}

fn main(rt: HostRuntime) -> io::Result<()> {
    let mut from = rt.stdin();
    let mut to = rt.stdout();
    let mut text = [0u8; 65536];
    let n = read_full(&mut from, &mut text)?;
    let more = goes_on(&mut from, n)?;
    walk(
        &mut to,
        &Input {
            text: &text[..n],
            more,
        },
    )
}
