// The refusals of document 01's table ("Numbers given back"), by their numbers there, 1 to 11. The table goes on to 13: there 12 and 13 are
// answers, which `telling` tells by their numbers.

#[derive(Clone, Copy, PartialEq, Eq)]
pub enum Refusal {
    Size = 1,
    Words = 2,
    Unused = 3,
    Clearances = 4,
    Corners = 5,
    Starts = 6,
    Neighbours = 7,
    Plan = 8,
    Start = 9,
    Goal = 10,
    Work = 11,
}
