// What stands before the trips in the text that floorwalk takes: the sizes, the map and its survey.
//
// The lists of a plan are lent one by one: they become a plan only by the survey, which takes each as a slice of its own.
#![tactic(auto)]

ghost use Rattle.survey.specs.Survey.{lists};
ghost use Rattle.opening.specs.Openings.{SizesAt, Lent, Surveyable, FloorOpened, OpenedTo};

use floor::Refusal;

// A surveyed floor: its sizes, how many turning points and arcs its plan has, where the text goes on, and how many bytes of output there are.
#[derive(Clone, Copy)]
pub struct Site {
    pub w: usize,
    pub h: usize,
    pub corners: usize,
    pub arcs: usize,
    pub next: usize,
    pub used: usize,
}

// A refusal that has been written in place of a floor's line: how many bytes of output there are.
#[derive(Clone, Copy)]
pub struct Refused {
    pub used: usize,
}

// Surveys a floor, after whose map the text goes on at `next`, and writes its line.
fn survey_floor(
    words: &[u64],
    w: usize,
    h: usize,
    next: usize,
    clear: &mut [u8],
    corners: &mut [u16],
    starts: &mut [u16],
    arcs: &mut [u16],
    out: &mut [u8],
) -> Result<Site, Refused>
    requires { Surveyable w h words.now (lists clear.old corners.old starts.old arcs.old) out.old }
    ensures { FloorOpened w h next words.now (lists clear.old corners.old starts.old arcs.old)
        (lists clear.new corners.new starts.new arcs.new) out.old out.new result }
{
    let s = survey::survey(words, w, h, clear, corners, starts, arcs);
    // `survey` answers by number, as C programs get it.
    if s.code != 0 {
        let used = writing::put_survey_refused(out, u64::from(s.code));
        return Err(Refused { used });
    }
    let k = u64::from(s.corners);
    let m = u64::from(s.arcs);
    let used = writing::put_floor(out, w as u64, h as u64, u64::from(s.free), k, m);
    Ok(Site {
        w,
        h,
        corners: s.corners as usize,
        arcs: s.arcs as usize,
        next,
        used,
    })
}

// Reads the map of sizes that are not refused, and surveys it.
fn open_map(
    text: &[u8],
    from: usize,
    w: usize,
    h: usize,
    words: &mut [u64],
    clear: &mut [u8],
    corners: &mut [u16],
    starts: &mut [u16],
    arcs: &mut [u16],
    out: &mut [u8],
) -> Result<Site, Refused>
    requires { SizesAt text.now w h from × Lent words.old (lists clear.old corners.old starts.old arcs.old) out.old }
    ensures { OpenedTo text.now words.new (lists clear.new corners.new starts.new arcs.new) out.old out.new result }
{
    match reading::read_rows(text, from, w, h, words) {
        // The sizes are line 1, so row y is line y + 2.
        Err(bad) => Err(Refused {
            used: writing::put_input_refused(out, (bad.row + 2) as u64),
        }),
        Ok(next) => {
            let n = h * floor::row_words(w);
            survey_floor(&words[..n], w, h, next, clear, corners, starts, arcs, out)
        }
    }
}

// Reads the sizes, then the map, and surveys it.
pub fn open_site(
    text: &[u8],
    words: &mut [u64],
    clear: &mut [u8],
    corners: &mut [u16],
    starts: &mut [u16],
    arcs: &mut [u16],
    out: &mut [u8],
) -> Result<Site, Refused>
    requires { Lent words.old (lists clear.old corners.old starts.old arcs.old) out.old }
    ensures { OpenedTo text.now words.new (lists clear.new corners.new starts.new arcs.new) out.old out.new result }
{
    let Some(sizes) = reading::read_two(text, 0) else {
        let used = writing::put_input_refused(out, 1);
        return Err(Refused { used });
    };
    let w = sizes.first;
    let h = sizes.second;
    // No row is read of a floor whose sizes the survey refuses.
    if floor::size_refused(w, h) {
        let used = writing::put_survey_refused(out, Refusal::Size as u64);
        return Err(Refused { used });
    }
    open_map(
        text, sizes.next, w, h, words, clear, corners, starts, arcs, out,
    )
}
