// What a lane keeps of its book before anything happened, but for the conditions.
ghost use Rattle.std.specs.Prelude.{◌≡◌, ℕ, length, None, replicate, IfOk};
ghost use Rattle.ecam_spec.specs.BookTerms.{lines_of};
ghost use Rattle.ecam_spec.specs.Past.{Signal};
ghost use Rattle.ecam_spec.specs.Crew.{Cockpit};
ghost use Rattle.ecam_spec.specs.Lamps as lamps;
ghost use Rattle.book_model.specs.Sealed.{the_book};
ghost use Rattle.alert_truth.specs.TruthsState.{TruthsFit, TruthsStand};
ghost use Rattle.crew_marks.specs.MarksState.{MarksFit, MarksStand};
ghost use Rattle.attention.specs.State.{AttentionFits, AttentionStands};

use alert_truth::Truths;
use attention::Attention;
use book_model::Book;
use crew_marks::Marks;
use std::alloc::{AllocError, Global};

/// The values of the parameters, of which none has one, and the flags of the procedure lines and of the memos, of which none
/// is set. An error is want of memory.
pub fn lists_of(
    alloc: Global,
    book: &Book,
) -> Result<(Vec<Option<i64>>, Vec<bool>, Vec<bool>), AllocError>
    ensures values { IfOk result (λ r. r.0.items
        ≡ replicate (length (the_book book.now).parameters) None) }
    ensures lines { IfOk result (λ r. length r.1.items
        ≡ length (lines_of (the_book book.now).alerts)) }
    ensures memos { IfOk result (λ r. length r.2.items ≡ length (the_book book.now).memos) }
{
    let values = vec![in alloc; None; book.params().len()]?;
    let lines = vec![in alloc; false; book.line_count()]?;
    let memos = vec![in alloc; false; book.memos().len()]?;
    Ok((values, lines, memos))
}

// The crew's marks, and the lights with the sound.
fn crew_of(alloc: Global, book: &Book) -> Result<(Marks, Attention), AllocError>
    ensures marks_fit { IfOk result (λ r. MarksFit (the_book book.now) r.0) }
    ensures marks_stand { IfOk result (λ r. (c : Cockpit)
        → MarksStand (the_book book.now) c 0 r.0) }
    ensures marks_moments { IfOk result (λ r. r.0.moments ≡ 0) }
    ensures attention_fits { IfOk result (λ r. AttentionFits (the_book book.now) r.1) }
    ensures attention_stands { IfOk result (λ r. (a : lamps.Attention)
        → AttentionStands (the_book book.now) a 0 r.1) }
    ensures attention_moments { IfOk result (λ r. r.1.moments ≡ 0) }
{
    let marks = Marks::new(alloc, book)?;
    let attention = Attention::new(alloc, book)?;
    Ok((marks, attention))
}

/// The crew's marks, the lights with the sound, and what is told of the alerts. An error is want of memory.
pub fn parts_of(alloc: Global, book: &Book) -> Result<(Marks, Attention, Truths), AllocError>
    ensures marks_fit { IfOk result (λ r. MarksFit (the_book book.now) r.0) }
    ensures marks_stand { IfOk result (λ r. (c : Cockpit)
        → MarksStand (the_book book.now) c 0 r.0) }
    ensures marks_moments { IfOk result (λ r. r.0.moments ≡ 0) }
    ensures attention_fits { IfOk result (λ r. AttentionFits (the_book book.now) r.1) }
    ensures attention_stands { IfOk result (λ r. (a : lamps.Attention)
        → AttentionStands (the_book book.now) a 0 r.1) }
    ensures attention_moments { IfOk result (λ r. r.1.moments ≡ 0) }
    ensures truths_fit { IfOk result (λ r. TruthsFit (the_book book.now) r.2) }
    ensures truths_stand { IfOk result (λ r. (conditions : ℕ → Signal) (phases : ℕ → ℕ)
        → TruthsStand (the_book book.now) conditions phases 0 r.2) }
    ensures truths_moments { IfOk result (λ r. r.2.moments ≡ 0) }
{
    let (marks, attention) = crew_of(alloc, book)?;
    let truths = Truths::new(alloc, book)?;
    Ok((marks, attention, truths))
}
