// The draws.
ghost use Rattle.std.specs.Prelude.{◌≡◌};
ghost use Rattle.record_maker.specs.Draws as spec;

// The draw that follows a draw.
#[tactic(auto, unfolding(crate::specs::Draws::draw_after))]
pub(crate) fn draw_after(mut s: u64) -> u64
    ensures { result ≡ spec.draw_after s }
{
    s ^= s << 13;
    s ^= s >> 7;
    s ^= s << 17;
    s
}

// What stands before the first draw.
#[tactic(auto, unfolding(crate::specs::Draws::start_of))]
pub(crate) fn start_of(seed: u64) -> u64
    ensures { result ≡ spec.start_of seed }
{
    if seed == 0 { 1 } else { seed }
}
