// What a moment has to show.
ghost use Rattle.std.specs.Prelude.{◌≡◌, false, not};

use crate::step::Stepped;
use alert_truth::Truths;
use attention::Attention;
use crew_marks::Marks;
use ecam_kinds::Phase;
use system_display::Selector;
use wakes::Marked;

/// What turned in a moment: what isn't set is as in the moment before.
#[derive(Clone, Copy, Debug)]
pub struct Turned {
    /// The moment is the first.
    pub first: bool,
    /// The flight phase.
    pub phase: bool,
    /// The value of some parameter that the book asks for.
    pub values: bool,
    /// Whether some procedure line stands whose alert the moment before showed.
    pub lines: bool,
    /// Whether some memo holds.
    pub memos: bool,
    /// The crew's mark of some alert.
    pub marks: bool,
    /// NORMAL.
    pub normal: bool,
}

impl Turned {
    /// What turned from what was to what the conditions of the moment made of it.
    pub fn of(
        ticked: bool,
        was: Phase,
        stepped: Stepped,
        values: bool,
        marks: bool,
        was_normal: bool,
        normal: bool,
    ) -> Turned
        ensures first { result.first ≡ not ticked }
        ensures phase { result.phase ≡ false → stepped.phase ≡ was }
        ensures values { result.values ≡ values }
        ensures lines { result.lines ≡ stepped.lines }
        ensures memos { result.memos ≡ stepped.memos }
        ensures marks { result.marks ≡ marks }
        ensures normal { result.normal ≡ false → normal ≡ was_normal }
    {
        Turned {
            first: !ticked,
            phase: stepped.phase != was,
            values,
            lines: stepped.lines,
            memos: stepped.memos,
            marks,
            normal: normal != was_normal,
        }
    }
}

/// All that a moment shows. It lends its lists, and copies nothing.
#[derive(Clone, Copy)]
pub struct Scene<'a> {
    /// Whether some alert of the book has status lines.
    pub has_status_lines: bool,
    pub phase: Phase,
    /// Of each parameter that the book asks for its value; what stands at the others says nothing.
    pub values: &'a [Option<i64>],
    /// Per procedure line whether it stands.
    pub lines: &'a [bool],
    /// Per memo whether it holds.
    pub memos: &'a [bool],
    /// Among the parameters that the book asks for, those that may have another value than in the moment before.
    pub turned: &'a Marked,
    pub truths: &'a Truths,
    pub marks: &'a Marks,
    pub attention: &'a Attention,
    pub selector: &'a Selector,
}
