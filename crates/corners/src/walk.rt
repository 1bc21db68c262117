// The cells of a floor in chunks, one after another.
ghost use Rattle.std.specs.Prelude.{◌≡◌, ◌+◌, ◌-◌, ◌*◌, ◌≤◌};
ghost use Rattle.std.specs.Iterator.{at_most};
ghost use Rattle.corners.specs.Walk.{ChunkGiven, OnItsWay, from_first};

use floor::Floor;

// The chunks of w columns and h rows from a cell on, each by its first cell and by how many it has.
#[derive(Drop)]
pub struct ChunkWalk {
    w: usize,
    h: usize,
    cell: usize,
}

// All chunks of a floor.
pub fn all_chunks(floor: &Floor) -> ChunkWalk
    ensures same { result ≡ from_first floor.now.grid.w floor.now.grid.h }
    ensures ready { OnItsWay result }
{
    ChunkWalk {
        w: floor.grid.w,
        h: floor.grid.h,
        cell: 0,
    }
}

impl Iterator for ChunkWalk {
    type Item = (usize, usize);

    ghost can_next = { OnItsWay };

    ghost next_gives = { ChunkGiven };

    ghost remaining = { λ s. at_most (s.w * s.h - s.cell) };

    fn next(&mut self) -> Option<(usize, usize)> {
        let cell = self.cell;
        if cell == self.w * self.h {
            return None;
        }
        let count = super::span(self.w, self.h, cell);
        self.cell += count;
        Some((cell, count))
    }
}
