// Choosing the rows that go: the expired ones, least recently used first, the earlier row on a tie, only until there is room.
ghost use Rattle.std.specs.Prelude.{◌≡◌, ◌≤◌, ◌<◌, length, IfSome};
ghost use Rattle.image_spec.specs.Layout.{most_rows, LayoutOk};
ghost use Rattle.image_spec.specs.Choose.{end_in, end_of, used_at, size_at, body_at, mark_at, marks_from, may_go, lesser as lesserOf, least_from};
ghost use Rattle.image_spec.specs.Choose.{fits_after, chosen, ask_at};
ghost use Rattle.removal.specs.Code.{choice_in};

use descriptor::{Fields, ReadError, read_descriptor};
use image_rows::place;
use image_spec::Mark;
use image_spec::layout::{BODY_WIDTH, LENGTH_PLACE, Layout, OFFSET_PLACE};
use octets::{number_at, part_at};
use time::Seconds;

// What was chosen so that there is room: how many rows and bytes go.
#[derive(Clone, Copy)]
pub(crate) struct Choice {
    pub removed: u64,
    pub freed: usize,
}

// When row i was last used.
#[tactic(auto, using(crate::proofs::ChooseCode::used_is))]
fn used_at(layout: Layout, d: &[u8], i: usize) -> u64
    requires { LayoutOk layout × (i < most_rows layout) }
    ensures { result ≡ used_at layout d.now i }
{
    number_at(
        d,
        place(layout, i) + layout.moment_place,
        layout.row_size - layout.moment_place,
    )
}

// How long the body of row i is.
#[tactic(auto, using(crate::proofs::ChooseCode::size_is))]
fn size_at(layout: Layout, d: &[u8], i: usize) -> usize
    requires { LayoutOk layout × (i < most_rows layout) }
    ensures value { result ≡ size_at layout d.now i }
    ensures upper_bound { result < 4294967296 }
{
    number_at(d, place(layout, i) + LENGTH_PLACE, BODY_WIDTH) as usize
}

// When what was read ends; 0 where nothing was.
fn end_in(reading: Result<Fields, ReadError>) -> Seconds
    ensures { result.0 ≡ end_in reading }
{
    match reading {
        Ok(fields) => fields.not_after,
        Err(_) => Seconds(0),
    }
}

// When the body of row i ends.
#[tactic(auto, using(crate::proofs::ChooseCode::end_is))]
fn end_at(layout: Layout, d: &[u8], i: usize) -> Seconds
    requires { LayoutOk layout × (i < most_rows layout) }
    ensures { result.0 ≡ end_of (body_at layout d.now i) }
{
    let at = number_at(d, place(layout, i) + OFFSET_PLACE, BODY_WIDTH) as usize;
    let n = size_at(layout, d, i);
    end_in(read_descriptor(part_at(d, at, n)))
}

// The mark of row i before any row goes.
#[tactic(auto, using(crate::proofs::ChooseCode::mark_current, crate::proofs::ChooseCode::mark_expired))]
fn mark_at(layout: Layout, d: &[u8], i: usize, clock: Seconds) -> Mark
    requires { LayoutOk layout × (i < most_rows layout) }
    ensures { result ≡ mark_at layout d.now clock.0 i }
{
    if clock.is_before(end_at(layout, d, i)) {
        Mark::Current
    } else {
        Mark::Expired
    }
}

// Marks all rows, of which there are as many as marks.
pub(crate) fn mark_all(layout: Layout, d: &[u8], marks: &mut [Mark], clock: Seconds)
    requires { LayoutOk layout × (length marks.old ≤ most_rows layout) }
    ensures { marks.new ≡ marks_from layout d.now clock.0 (length marks.old) 0 }
{
    for i in 0..marks.len() {
        marks[i] = mark_at(layout, d, i, clock);
    }
}

// The row that goes first, of the one found so far and, if its mark says that it may go, row i.
#[tactic(auto, using(crate::proofs::ChooseCode::lesser_not, crate::proofs::ChooseCode::lesser_new, crate::proofs::ChooseCode::lesser_old, crate::proofs::ChooseCode::lesser_first))]
fn lesser(
    layout: Layout,
    d: &[u8],
    mark: Mark,
    i: usize,
    best: Option<(usize, u64)>,
) -> Option<(usize, u64)>
    requires { LayoutOk layout × (i < most_rows layout) }
    ensures { result ≡ lesserOf (may_go mark) i (used_at layout d.now i) best }
{
    let Mark::Expired = mark else {
        return best;
    };
    let used = used_at(layout, d, i);
    match best {
        Some((j, v)) if v <= used => Some((j, v)),
        _ => Some((i, used)),
    }
}

// The row that goes next.
fn least(layout: Layout, d: &[u8], marks: &[Mark]) -> Option<(usize, u64)>
    requires { LayoutOk layout × (length marks.now ≤ most_rows layout) }
    ensures { result ≡ least_from (used_at layout d.now) marks.now 0 None }
{
    let mut best = None;
    for i in 0..marks.len() {
        best = lesser(layout, d, marks[i], i, best);
    }
    best
}

// Whether a row and the new body have room after so many rows and bytes were removed.
fn fits(layout: Layout, rows: u64, short: usize, removed: u64, freed: usize) -> bool
    requires { LayoutOk layout × (removed ≤ most_rows layout) }
    ensures { result ≡ fits_after layout rows short removed freed }
{
    (rows < layout.most_rows + removed) & (short <= freed)
}

// Marks the rows that go, until `short` bytes are freed and there is a row to spare; none where no row is left that may go before that.
pub(crate) fn choose(layout: Layout, d: &[u8], marks: &mut [Mark], short: usize) -> Option<Choice>
    requires { LayoutOk layout × (length marks.old ≤ most_rows layout) }
    ensures value { result ≡ choice_in (chosen layout (ask_at layout d.now (length marks.old) short) (length marks.old) marks.old 0 0) }
    ensures marks_after { marks.new ≡ (chosen layout (ask_at layout d.now (length marks.old) short) (length marks.old) marks.old 0 0).marks }
    ensures removed_in_bounds { IfSome result (λ c. c.removed ≤ length marks.old) }
{
    let n = marks.len() as u64;
    let mut freed: usize = 0;
    for removed in 0..n {
        if fits(layout, n, short, removed, freed) {
            return Some(Choice { removed, freed });
        }
        let (j, _) = least(layout, d, marks)?;
        marks[j] = Mark::Gone;
        freed += layout.row_size + size_at(layout, d, j);
    }
    if fits(layout, n, short, n, freed) {
        Some(Choice { removed: n, freed })
    } else {
        None
    }
}
