//! Laying a patch over the raw card.

ghost use Rattle.std.specs.Prelude.{◌≡◌, ℕ, ◌+◌, ◌-◌, ◌*◌, ◌<◌, ◌≤◌, map, length};
ghost use Rattle.areas.specs.Rects.{Fits};
ghost use Rattle.calls.specs.Outcomes.{laid};
ghost use Rattle.planes.specs.Sizes.{area};

use areas::rect::Rect;
use planes::frame::Frame;
use tones::Tone;

/// Writes tones over places of the memory, each as the row of the tone that it counts as.
fn lay_row<T: Tone>(places: &mut [T::Row], tones: &[T::Row])
    requires { length tones.now ≡ length places.old }
    ensures { places.new ≡ map (λ r. T.kind.row (T.kind.counted r)) tones.now }
{
    places.copy_from_slice(tones);
    for place in places.iter_mut() {
        *place = T::of_row(*place).row();
    }
}

/// Lays the tones of a patch over a rectangle of plane 0, row by row.
pub(crate) fn lay<T: Tone>(memory: &mut [T::Row], frame: Frame, rect: Rect, tones: &[T::Row])
    requires rect { Fits frame.size rect }
    requires count { length tones.now ≡ (rect.right - rect.left) * (rect.bottom - rect.top) }
    requires room { area frame.size ≤ length memory.old }
    ensures { let width = rect.right - rect.left in
        let height = rect.bottom - rect.top in
        memory.new ≡ laid T.kind frame.size rect.left rect.top width tones.now memory.old height }
{
    let width = rect.right - rect.left;
    for (row, y) in tones.chunks(width).zip(rect.top..rect.bottom) {
        let at = frame.cell(rect.left, y);
        lay_row::<T>(&mut memory[at..at + row.len()], row);
    }
}
