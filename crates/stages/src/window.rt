//! The window of a stage: its element, prepared once for all pixels, and what the stage makes of a
//! pixel through it.

ghost use Rattle.std.specs.Prelude.{◌≡◌, ℕ, ◌+◌, ◌^◌, ◌<◌, ◌≤◌, true, map, length, take};
ghost use Rattle.recipes.specs.Placed.{placed, order_of};
ghost use Rattle.stages.specs.Sites.{added_at, cleaned_at, window_at};
ghost use Rattle.stages.specs.Stages.{rank_of};
ghost use Rattle.stages.specs.Taps.{IsFlat, IsInner, IsNear, TakesOneMore, tap_of};

use crate::site::Site;
use crate::taps::Tap;
use recipes::element::Element;
use recipes::recipe::{Operation, Stage};
use selectors::Selector;
use tones::Tone;

/// A stage with the taps of its places, the first `count` of the array. A fixed array, since an
/// element has at most 49 places and nothing here allocates.
#[derive(Clone, Copy)]
pub struct Window {
    /// The stage that it is the window of.
    pub stage: Stage,
    taps: [Tap; 49],
    count: usize,
    flat: bool,
    ghost long: { length taps ≡ 49 },
    ghost within: { count ≤ 49 },
    ghost level: { flat ≡ true → IsFlat stage.element },
    ghost prepared: { take count taps ≡ map (tap_of stage) (placed stage.element) },
}

// That the selector is in order and that the kind's codes are in its range stand in each contract:
// a ghost field takes no fact that may have two proofs, as `ordered` may, and a struct over the
// lent selector with a model leaves its caller knowing nothing of the selector once it is let go.
impl Window {
    /// The window of a stage.
    pub fn of(stage: &Stage) -> Window
        ensures { result.stage ≡ stage.now }
    {
        Window {
            stage: *stage,
            taps: taps_of(stage),
            count: stage.element.places().len(),
            flat: is_flat(&stage.element),
        }
    }

    /// Fills the selector with the window of a pixel.
    pub fn fill<T: Tone, S: Selector>(&self, selector: &mut S, site: &Site<T>)
        requires order { S.ordered selector.old }
        requires codes { T.kind.count ≤ S.range selector.old }
        ensures weights { (c : ℕ) → S.weight selector.new c ≡ window_at site.now self.now.stage c }
        ensures range_kept { S.range selector.new ≡ S.range selector.old }
        ensures in_order { S.ordered selector.new }
    {
        selector.empty();
        if self.is_flat() && site.is_inner() {
            self.put_taps_near(selector, site);
        } else {
            self.put_taps(selector, site);
        }
    }

    /// What the stage makes of a pixel. The selector holds the pixel's window afterwards.
    pub fn pixel<T: Tone, S: Selector>(&self, selector: &mut S, site: &Site<T>) -> T
        requires order { S.ordered selector.old }
        requires codes { T.kind.count ≤ S.range selector.old }
        ensures answer { result ≡ cleaned_at site.now self.now.stage }
        ensures weights { (c : ℕ) → S.weight selector.new c ≡ window_at site.now self.now.stage c }
        ensures range_kept { S.range selector.new ≡ S.range selector.old }
        ensures in_order { S.ordered selector.new }
    {
        self.fill(selector, site);
        let rank = self.rank(selector.total());
        T::of_code(selector.select(rank).unwrap())
    }

    /// The taps of the stage's places.
    pub(crate) fn taps(&self) -> &[Tap]
        ensures taps { result.now ≡ map (tap_of self.now.stage) (placed self.now.stage.element) }
    {
        &self.taps[..self.count]
    }

    /// That no place has an amount.
    pub(crate) fn is_flat(&self) -> bool
        ensures { result ≡ true → IsFlat self.now.stage.element }
    {
        self.flat
    }

    /// The rank that the stage takes of a window of a total weight: an erosion takes the rank k, a
    /// dilation the rank total - k + 1.
    pub(crate) fn rank(&self, total: u32) -> u32
        requires { total < 2 ^ 31 }
        ensures { let stage = self.now.stage in
            result ≡ rank_of stage.operation (order_of stage.element) total }
    {
        let order = self.stage.element.order_index();
        match self.stage.operation {
            Operation::Erosion => order,
            Operation::Dilation => total.saturating_sub(order) + 1,
        }
    }

    /// Puts what each tap reads.
    fn put_taps<T: Tone, S: Selector>(&self, selector: &mut S, site: &Site<T>)
        requires order { S.ordered selector.old }
        requires codes { T.kind.count ≤ S.range selector.old }
        requires none { (c : ℕ) → S.weight selector.old c ≡ 0 }
        ensures weights { (c : ℕ) → S.weight selector.new c ≡ window_at site.now self.now.stage c }
        ensures range_kept { S.range selector.new ≡ S.range selector.old }
        ensures in_order { S.ordered selector.new }
    {
        for tap in self.taps() {
            put_tap(selector, tap, site);
        }
    }

    /// Puts what each tap reads, where all fall on the card and lower nothing: most pixels of most
    /// stages, without the tests.
    fn put_taps_near<T: Tone, S: Selector>(&self, selector: &mut S, site: &Site<T>)
        requires order { S.ordered selector.old }
        requires codes { T.kind.count ≤ S.range selector.old }
        requires none { (c : ℕ) → S.weight selector.old c ≡ 0 }
        requires flat { IsFlat self.now.stage.element }
        requires inner { IsInner site.now.frame.size site.now.x site.now.y }
        ensures weights { (c : ℕ) → S.weight selector.new c ≡ window_at site.now self.now.stage c }
        ensures range_kept { S.range selector.new ≡ S.range selector.old }
        ensures in_order { S.ordered selector.new }
    {
        for tap in self.taps() {
            put_near(selector, tap, site);
        }
    }
}

/// Puts what a tap reads, if that lies on the card.
fn put_tap<T: Tone, S: Selector>(selector: &mut S, tap: &Tap, site: &Site<T>)
    requires order { S.ordered selector.old }
    requires codes { T.kind.count ≤ S.range selector.old }
    requires more { TakesOneMore (S.weight selector.old) (S.range selector.old) }
    requires fit { (0 < tap.now.weight) × (tap.now.weight ≤ 49) }
    ensures weights { (c : ℕ) → S.weight selector.new c
        ≡ S.weight selector.old c + added_at site.now tap.now c }
    ensures range_kept { S.range selector.new ≡ S.range selector.old }
    ensures in_order { S.ordered selector.new }
{
    if let Some(code) = site.code_at(tap) {
        selector.put(code, tap.weight).unwrap();
    }
}

/// Puts what a tap reads which falls on the card and lowers nothing.
fn put_near<T: Tone, S: Selector>(selector: &mut S, tap: &Tap, site: &Site<T>)
    requires order { S.ordered selector.old }
    requires codes { T.kind.count ≤ S.range selector.old }
    requires more { TakesOneMore (S.weight selector.old) (S.range selector.old) }
    requires fit { (0 < tap.now.weight) × (tap.now.weight ≤ 49) }
    requires near { IsNear site.now.frame.size site.now.x site.now.y tap.now }
    ensures weights { (c : ℕ) → S.weight selector.new c
        ≡ S.weight selector.old c + added_at site.now tap.now c }
    ensures range_kept { S.range selector.new ≡ S.range selector.old }
    ensures in_order { S.ordered selector.new }
{
    selector.put(site.code_near(tap), tap.weight).unwrap();
}

/// That no place of an element has an amount.
fn is_flat(element: &Element) -> bool
    ensures { result ≡ true → IsFlat element.now }
{
    element.places().iter().all(|place| place.amount == 0)
}

/// The taps of a stage's places, first in an array.
fn taps_of(stage: &Stage) -> [Tap; 49]
    ensures long { length result ≡ 49 }
    ensures taps { let places = placed stage.now.element in
        take (length places) result ≡ map (tap_of stage.now) places }
{
    let mut taps = [Tap {
        dx: 0,
        dy: 0,
        weight: 1,
        amount: 0,
    }; 49];
    // By index: a proof knows nothing of what is written through a `zip` of `iter_mut`.
    for (i, place) in stage.element.places().iter().enumerate() {
        taps[i] = Tap::of(stage, place);
    }
    taps
}
