// Why a command isn't done: each error has the causes that its commands end with, and no others.
ghost use Rattle.std.specs.Prelude.{◌≡◌};
ghost use Rattle.replay_core.specs.Outcomes.{refusal_of, book_ending, record_ending, number_ending, limits_ending};
ghost use Rattle.replay_core.specs.declared.error.BookError.TheVariants as book;
ghost use Rattle.replay_core.specs.declared.error.RecordError.TheVariants as of_record;
ghost use Rattle.replay_core.specs.declared.error.NumberError.TheVariants as number;
ghost use Rattle.replay_core.specs.declared.error.LimitsError.TheVariants as limits;
ghost use Rattle.record_views.specs.declared.show.RunError.TheVariants as runs;

use crate::advise::Unprepared;
use crate::load::Unready;
use crate::outcome::Outcome;
use ecam_io::Failed;
use record_views::RunError;

// Of a command that reads a book alone.
#[derive(Clone, Copy, Debug, PartialEq, Eq)]
pub(crate) enum BookError {
    // No book stands ready.
    Unready(Unready),
    // Writing failed.
    Write,
}

// Of one that reads a record by a book.
#[derive(Clone, Copy, Debug, PartialEq, Eq)]
pub(crate) enum RecordError {
    // No book stands ready, or there was too little memory to replay by it.
    Unready(Unready),
    // The record was opened, and the command didn't come to its end.
    Run(RunError),
}

// Of one that goes by a number parameter besides.
#[derive(Clone, Copy, Debug, PartialEq, Eq)]
pub(crate) enum NumberError {
    // No book stands ready.
    Unready(Unready),
    // It has no number parameter of that name.
    NoSuch,
    // The record was opened, and the command didn't come to its end.
    Run(RunError),
}

// Of one that goes by a file of limits besides.
#[derive(Clone, Copy, Debug, PartialEq, Eq)]
pub(crate) enum LimitsError {
    // No book or no limits stand ready.
    Unprepared(Unprepared),
    // The record was opened, and the command didn't come to its end.
    Run(RunError),
}

impl From<Unready> for BookError {
    ghost from_gives = { λ unready e. e ≡ book.Unready unready };

    fn from(unready: Unready) -> Self {
        BookError::Unready(unready)
    }
}

impl From<Failed> for BookError {
    ghost from_gives = { λ _ e. e ≡ book.Write };

    fn from(_: Failed) -> Self {
        BookError::Write
    }
}

impl From<Unready> for RecordError {
    ghost from_gives = { λ unready e. e ≡ of_record.Unready unready };

    fn from(unready: Unready) -> Self {
        RecordError::Unready(unready)
    }
}

impl From<RunError> for RecordError {
    ghost from_gives = { λ error e. e ≡ of_record.Run error };

    fn from(error: RunError) -> Self {
        RecordError::Run(error)
    }
}

impl From<Failed> for RecordError {
    ghost from_gives = { λ _ e. e ≡ of_record.Run runs.Write };

    fn from(_: Failed) -> Self {
        RecordError::Run(RunError::Write)
    }
}

impl From<Unready> for NumberError {
    ghost from_gives = { λ unready e. e ≡ number.Unready unready };

    fn from(unready: Unready) -> Self {
        NumberError::Unready(unready)
    }
}

impl From<RunError> for NumberError {
    ghost from_gives = { λ error e. e ≡ number.Run error };

    fn from(error: RunError) -> Self {
        NumberError::Run(error)
    }
}

impl From<Unprepared> for LimitsError {
    ghost from_gives = { λ unprepared e. e ≡ limits.Unprepared unprepared };

    fn from(unprepared: Unprepared) -> Self {
        LimitsError::Unprepared(unprepared)
    }
}

impl From<RunError> for LimitsError {
    ghost from_gives = { λ error e. e ≡ limits.Run error };

    fn from(error: RunError) -> Self {
        LimitsError::Run(error)
    }
}

impl From<RunError> for Outcome {
    ghost from_gives = { λ error o. o ≡ refusal_of error };

    fn from(error: RunError) -> Self {
        match error {
            RunError::Read => Outcome::ReadFault,
            RunError::Write => Outcome::WriteFault,
            RunError::Record(fault) => Outcome::RecordRefused(fault),
        }
    }
}

impl From<Result<(), BookError>> for Outcome {
    ghost from_gives = { λ ended o. o ≡ book_ending ended };

    fn from(ended: Result<(), BookError>) -> Self {
        match ended {
            Ok(()) => Outcome::Done,
            Err(BookError::Unready(unready)) => unready.outcome(),
            Err(BookError::Write) => Outcome::WriteFault,
        }
    }
}

impl From<Result<(), RecordError>> for Outcome {
    ghost from_gives = { λ ended o. o ≡ record_ending ended };

    fn from(ended: Result<(), RecordError>) -> Self {
        match ended {
            Ok(()) => Outcome::Done,
            Err(RecordError::Unready(unready)) => unready.outcome(),
            Err(RecordError::Run(error)) => Outcome::from(error),
        }
    }
}

impl From<Result<(), NumberError>> for Outcome {
    ghost from_gives = { λ ended o. o ≡ number_ending ended };

    fn from(ended: Result<(), NumberError>) -> Self {
        match ended {
            Ok(()) => Outcome::Done,
            Err(NumberError::Unready(unready)) => unready.outcome(),
            Err(NumberError::NoSuch) => Outcome::NoSuch,
            Err(NumberError::Run(error)) => Outcome::from(error),
        }
    }
}

impl From<Result<(), LimitsError>> for Outcome {
    ghost from_gives = { λ ended o. o ≡ limits_ending ended };

    fn from(ended: Result<(), LimitsError>) -> Self {
        match ended {
            Ok(()) => Outcome::Done,
            Err(LimitsError::Unprepared(Unprepared::Book(unready))) => unready.outcome(),
            Err(LimitsError::Unprepared(Unprepared::Limits(unready))) => unready.outcome(),
            Err(LimitsError::Run(error)) => Outcome::from(error),
        }
    }
}
