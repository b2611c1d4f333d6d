// Where the sources of a book's parameters stand: three places for each parameter, since it has no more sources.
ghost use Rattle.std.specs.Prelude.{◌≡◌, map, option_map};
ghost use Rattle.book_model.specs.View.{source_of, parameter_of};
ghost use Rattle.book_model.specs.SourcePlaces.{source_at};

use crate::draft::{Param, WordSource};

/// The source at a place: those of parameter p stand at the places from 3p on, in order.
pub fn source_at(params: &[Param], place: usize) -> Option<WordSource>
    ensures { option_map source_of result ≡ source_at (map parameter_of params.now) place }
{
    let param = params.get(place / 3)?;
    param.sources.get(place % 3).copied()
}
