// The lines that floorwalk writes. Each public function puts bytes into a list, `put_route` from a place on and the others from its beginning,
// and says where they end. The list has room.
#![tactic(auto)]

ghost use Rattle.std.specs.Prelude.{[], ◌∷◌, ◌+◌, ◌<◌, ◌≤◌, length};
ghost use Rattle.writing.specs.Numbers.{decimal};
ghost use Rattle.writing.specs.Answers.{Put, named, spaced, number_line, floor_line, survey_refused, input_refused, answer_numbers, route_cells};
ghost use Rattle.writing.specs.Growing.{Grown};

// A line that is being written: the list that it is put into, and where its next byte goes.
#[derive(Drop)]
struct Line<'a> {
    out: &'a mut [u8],
    used: usize,
}

impl Line<'_> {
    // A digit.
    fn digit(&mut self, digit: u64)
        requires { (digit < 10) × (self.old.used < length self.old.out.now) }
        ensures { Grown self.old self.new ((48 + digit) ∷ []) }
    {
        let at = self.used;
        self.out[at] = b'0' + digit as u8;
        self.used = at + 1;
    }

    // A number in decimal: the digits before the last, and the last. It is written by hand: std's writer over a slice says nothing of the bytes
    // that it writes, and a crate for four lines is no plainer.
    fn number(&mut self, number: u64)
        requires { self.old.used + length (decimal number) ≤ length self.old.out.now }
        ensures { Grown self.old self.new (decimal number) }
    {
        if number < 10 {
            return self.digit(number);
        }
        self.number(number / 10);
        self.digit(number % 10);
    }

    // A text as it is.
    fn text(&mut self, text: &[u8])
        requires { self.old.used + length text.now ≤ length self.old.out.now }
        ensures { Grown self.old self.new text.now }
    {
        let at = self.used;
        let end = at + text.len();
        self.out[at..end].copy_from_slice(text);
        self.used = end;
    }

    // A text and a number.
    fn named(&mut self, name: &[u8], number: u64)
        requires { self.old.used + length (named name.now number) ≤ length self.old.out.now }
        ensures { Grown self.old self.new (named name.now number) }
    {
        self.text(name);
        self.number(number);
    }

    // A space and a number.
    fn spaced(&mut self, number: u64)
        requires { self.old.used + length (spaced number) ≤ length self.old.out.now }
        ensures { Grown self.old self.new (spaced number) }
    {
        self.named(b" ", number);
    }
}

// A line of a text and a number.
fn put_line(out: &mut [u8], name: &[u8], number: u64) -> usize
    requires { length (number_line name.now number) ≤ length out.old }
    ensures { Put out.old out.new 0 result (number_line name.now number) }
{
    let mut line = Line { out, used: 0 };
    line.named(name, number);
    line.text(b"\n");
    line.used
}

// `floor W H free F corners K arcs M`, and a newline.
pub fn put_floor(out: &mut [u8], w: u64, h: u64, free: u64, k: u64, m: u64) -> usize
    requires { length (floor_line w h free k m) ≤ length out.old }
    ensures { Put out.old out.new 0 result (floor_line w h free k m) }
{
    let mut line = Line { out, used: 0 };
    line.named(b"floor ", w);
    line.spaced(h);
    line.named(b" free ", free);
    line.named(b" corners ", k);
    line.named(b" arcs ", m);
    line.text(b"\n");
    line.used
}

// `survey refused C`, and a newline.
pub fn put_survey_refused(out: &mut [u8], code: u64) -> usize
    requires { length (survey_refused code) ≤ length out.old }
    ensures { Put out.old out.new 0 result (survey_refused code) }
{
    put_line(out, b"survey refused ", code)
}

// `input refused at line N`, and a newline.
pub fn put_input_refused(out: &mut [u8], line: u64) -> usize
    requires { length (input_refused line) ≤ length out.old }
    ensures { Put out.old out.new 0 result (input_refused line) }
{
    put_line(out, b"input refused at line ", line)
}

// The six numbers of an answer, one space apart: six calls in the order of the line, which a loop over an array would not shorten.
pub fn put_answer(
    out: &mut [u8],
    code: u64,
    a: u64,
    b: u64,
    cells: u64,
    effort: u64,
    figure: u64,
) -> usize
    requires { length (answer_numbers code a b cells effort figure) ≤ length out.old }
    ensures { Put out.old out.new 0 result (answer_numbers code a b cells effort figure) }
{
    let mut line = Line { out, used: 0 };
    line.number(code);
    line.spaced(a);
    line.spaced(b);
    line.spaced(cells);
    line.spaced(effort);
    line.spaced(figure);
    line.used
}

// A colon and the cells of a route, from a place on: what is promised is of the whole list, and keeps what stands before.
pub fn put_route(out: &mut [u8], from: usize, route: &[u16]) -> usize
    requires { from + length (route_cells route.now) ≤ length out.old }
    ensures { Put out.old out.new from result (route_cells route.now) }
{
    let mut line = Line { out, used: from };
    line.text(b" :");
    for cell in route {
        line.spaced(u64::from(*cell));
    }
    line.used
}
