// A view that writes nothing.
ghost use Rattle.std.specs.Prelude.{[], refl};

use book_model::Book;
use ecam_io::{Failed, Sink};
use ecam_spec::Event;
use fwc_pair::{Pair, View};

// A record is read to its end, and nothing is written of it.
#[derive(Drop)]
pub(crate) struct Silent;

impl View for Silent {
    ghost Settings = { Unit {0} };

    ghost settings = { λ _. tt };

    ghost fits = { λ _ _. Unit {0} };

    ghost text = { λ _ _ _. [] };

    ghost closing = { λ _ _ _. [] };

    ghost stands = { λ _ _ _. Unit {0} };

    ghost begins_empty = { λ _ _. refl };

    ghost goes_on = { λ _ _ _ _. record { more = []; joined = refl } };

    fn event<O: Sink>(
        &mut self,
        _book: &Book,
        _pair: &Pair,
        _event: &Event,
        _fresh: bool,
        _out: &mut O,
    ) -> Result<(), Failed> {
        Ok(())
    }

    fn close<O: Sink>(&mut self, _book: &Book, _ticks: u64, _out: &mut O) -> Result<(), Failed> {
        Ok(())
    }
}
