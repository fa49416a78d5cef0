//! A stage made at every pixel: from one plane of a memory into the next.

ghost use Rattle.std.specs.Prelude.{◌≡◌, ℕ, ◌+◌, ◌<◌, ◌≤◌, length};
ghost use Rattle.filters.specs.Laws.{SoftMorphologyLaws};
ghost use Rattle.filters.specs.Restaging.{corner_weights, pass_weights, pass_made, restaged};
ghost use Rattle.planes.specs.Sizes.{area, start};

use planes::frame::Frame;
use recipes::recipe::Stage;
use selectors::Selector;
use stages::pass::Pass;
use stages::window::Window;
use tones::Tone;

// The selector's two facts stand in each contract, as in `stages::window`; so does the room, since
// the memory is lent anew to each call.

/// Makes plane j + 1 of a memory from plane j, row by row from the top, each row from the left. The
/// selector has the window of the last pixel. What a stage makes keeps the laws of soft morphology.
pub fn stage_plane<T: Tone, S: Selector>(
    selector: &mut S,
    stage: &Stage,
    frame: Frame,
    memory: &mut [T::Row],
    j: usize,
)
    requires order { S.ordered selector.old }
    requires codes { T.kind.count ≤ S.range selector.old }
    requires few { j < 9 }
    requires room { start frame.size j + area frame.size + area frame.size ≤ length memory.old }
    ensures memory { memory.new ≡ restaged T.kind frame.size stage.now j memory.old }
    ensures weights { (c : ℕ) → S.weight selector.new c
        ≡ corner_weights T.kind frame.size stage.now (start frame.size j) memory.old c }
    ensures range_kept { S.range selector.new ≡ S.range selector.old }
    ensures in_order { S.ordered selector.new }
    ensures laws { SoftMorphologyLaws T.kind }
{
    let window = Window::of(stage);
    let from = frame.start(j);
    let into = from + frame.area();
    let pass = Pass::new(&window, frame, from, into);
    stage_rows::<T, S>(selector, &pass, memory);
}

/// Makes every row of the plane that a pass writes.
#[tactic(auto, using(crate::proofs::Lines::rows_none))]
fn stage_rows<T: Tone, S: Selector>(selector: &mut S, pass: &Pass, memory: &mut [T::Row])
    requires order { S.ordered selector.old }
    requires codes { T.kind.count ≤ S.range selector.old }
    requires room { pass.now.into + area pass.now.frame.size ≤ length memory.old }
    ensures memory { memory.new ≡ pass_made T.kind pass.now memory.old }
    ensures weights { (c : ℕ) → S.weight selector.new c
        ≡ pass_weights T.kind pass.now memory.old c }
    ensures range_kept { S.range selector.new ≡ S.range selector.old }
    ensures in_order { S.ordered selector.new }
{
    let size = pass.frame.size;
    for y in 0..size.height {
        pass.stage_row::<T, S>(selector, memory, y, 0, size.width);
    }
}
