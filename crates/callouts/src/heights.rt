// The heights, and what a value is to each.
ghost use Rattle.std.specs.Prelude.{◌≡◌, ◌<◌, ◌≤◌, ◌&&◌, slice_index_or};
ghost use Rattle.view_spec.specs.Callouts.{heights, is_above, is_at_most};
ghost use Rattle.callouts.specs.State.{rearmed};

/// How many heights are called.
pub const COUNT: usize = 12;

// In feet, the least first.
const HEIGHTS: [u32; COUNT] = [10, 20, 30, 40, 50, 100, 200, 300, 400, 500, 1000, 2500];

// By more than so many feet the value has to be above a height before that is called.
const MARGIN: u32 = 10;

/// A height by its place.
#[tactic(auto, unfolding(view_spec::specs::Callouts::heights))]
pub fn height(place: usize) -> u32
    requires { place < COUNT }
    ensures height { result ≡ slice_index_or heights place 0 }
    ensures greatest { result ≤ 2500 }
{
    HEIGHTS[place]
}

/// Whether a height is called in a moment with this value or none, by whether it was armed before.
pub fn is_crossed(height: u32, armed: bool, value: Option<i64>) -> bool
    ensures { result ≡ (is_at_most height value && armed) }
{
    armed && is_at_most(value, height)
}

/// Whether a height is armed after a moment with this value or none, by whether it was before.
pub fn rearmed(height: u32, armed: bool, value: Option<i64>) -> bool
    requires { height ≤ 2500 }
    ensures { result ≡ rearmed value height armed }
{
    is_above(value, height + MARGIN) || armed && !is_at_most(value, height)
}

// There is a value, and it is above this height.
fn is_above(value: Option<i64>, height: u32) -> bool
    ensures { result ≡ is_above height value }
{
    value.is_some_and(|value| value > i64::from(height))
}

// There is a value, and it is at most this height.
fn is_at_most(value: Option<i64>, height: u32) -> bool
    ensures { result ≡ is_at_most height value }
{
    value.is_some_and(|value| value <= i64::from(height))
}
