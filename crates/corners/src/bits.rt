// The bits of a mask that are 1, one after another.
ghost use Rattle.std.specs.Prelude.{◌≡◌, ◌+◌, ◌-◌, ◌≤◌};
ghost use Rattle.std.specs.Iterator.{at_most};
ghost use Rattle.corners.specs.Bits.{Given, begun};

// Those bits of a mask from bit `from` on, and below bit `end`, that are 1.
#[derive(Drop)]
pub struct SetBits {
    mask: u64,
    from: usize,
    end: usize,
}

// Those of a mask's first n bits that are 1, ascending.
pub fn bits(mask: u64, n: usize) -> SetBits
    ensures { result ≡ begun mask n }
{
    SetBits {
        mask,
        from: 0,
        end: n,
    }
}

impl Iterator for SetBits {
    type Item = usize;

    ghost can_next = { λ s. s.end ≤ 64 };

    ghost next_gives = { Given };

    ghost remaining = { λ s. at_most (s.end - s.from) };

    fn next(&mut self) -> Option<usize> {
        if self.end <= self.from {
            return None;
        }
        let i = self.from + (self.mask >> self.from).trailing_zeros() as usize;
        if self.end <= i {
            return None;
        }
        self.from = i + 1;
        Some(i)
    }
}
