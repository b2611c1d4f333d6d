// What a replay writes, as a view: a block at each Tick that changes the picture, and the line that ends the output.
ghost use Rattle.std.specs.Prelude.{◌≡◌, ◌+◌, ◌<◌, ◌^◌, []};
ghost use Rattle.ecam_spec.specs.Output as output;
ghost use Rattle.ecam_spec.specs.Replay.{is_tick, tick_count, history_blocks};
ghost use Rattle.record_views.proofs.Blocks.{blocks_begin, blocks_go_on};

use crate::block::{Block, end_line, renew, writes_nothing};
use book_model::Book;
use ecam_io::{Failed, Sink, put_all};
use ecam_spec::Event;
use fwc_pair::{Pair, View};

// The changes of a replay. It counts the Ticks, and has room for the block of one. That stands here, since a call pays
// for its locals where it begins, and most events write nothing.
#[derive(Drop)]
pub(crate) struct Changes {
    ticks: u64,
    block: Block,
}

impl Changes {
    #[tactic(auto, unfolding(ecam_spec::specs::Replay::tick_count))]
    pub(crate) fn new() -> Changes
        ensures { result.ticks ≡ tick_count [] }
    {
        Changes {
            ticks: 0,
            block: Block::new(),
        }
    }

    // The number of a Tick that comes now.
    fn number(&mut self) -> u64
        requires { self.old.ticks < 2 ^ 32 }
        ensures number { result ≡ self.old.ticks }
        ensures counted { self.new.ticks ≡ self.old.ticks + 1 }
    {
        let number = self.ticks;
        self.ticks += 1;
        number
    }
}

// Whether an event ends a moment.
fn is_tick(event: &Event) -> bool
    ensures { result ≡ is_tick event.now }
{
    matches!(event, Event::Tick)
}

impl View for Changes {
    ghost Settings = { Unit {0} };

    ghost settings = { λ _. tt };

    ghost fits = { λ _ _. Unit {0} };

    ghost text = { λ _ b h. history_blocks b h };

    ghost closing = { λ _ _ h. output.end_line (tick_count h) };

    ghost stands = { λ view b h. view.ticks ≡ tick_count h };

    ghost begins_empty = { λ _ b. blocks_begin b };

    ghost goes_on = { λ _ b h e. blocks_go_on b h e };

    fn event<O: Sink>(
        &mut self,
        _book: &Book,
        pair: &Pair,
        event: &Event,
        _fresh: bool,
        out: &mut O,
    ) -> Result<(), Failed> {
        if !is_tick(event) {
            return Ok(());
        }
        let tick = self.number();
        let changed = pair.changed();
        if writes_nothing(changed, pair.still()) {
            return Ok(());
        }
        renew(&mut self.block, tick, pair.picture(), changed);
        put_all(out, self.block.as_slice())
    }

    fn close<O: Sink>(&mut self, _book: &Book, ticks: u64, out: &mut O) -> Result<(), Failed> {
        put_all(out, end_line(ticks).as_slice())
    }
}
