// The panel's two rows, and the lines of those that a Tick changes.
ghost use Rattle.std.specs.Prelude.{◌≡◌, ◌≤◌, ◌+◌, ◌++◌, ◌∷◌, [], length, codes, decimal};
ghost use Rattle.ecam_spec.specs.declared.limits.TheConstants.{NAME};
ghost use Rattle.view_spec.specs.Advisories as spec;
ghost use Rattle.ecam_spec.specs.Output as output;
ghost use Rattle.advisories.specs.Panel.{rows_of};

use arrayvec::ArrayVec;
use itoa::Buffer;

/// The text of a row. A name of 24 bytes, a blank and a number of at most 40 digits take fewer bytes.
pub(crate) type RowText = ArrayVec<u8, 72>;

/// Two lines of rows and that of a Tick take fewer bytes.
pub(crate) type Block = ArrayVec<u8, 256>;

/// The rows AD and PG. One without text is blank.
#[derive(Drop)]
pub(crate) struct Panel {
    pub(crate) advisory: RowText,
    pub(crate) page: RowText,
}

impl Panel {
    /// Both rows are blank.
    pub(crate) fn blank() -> Panel
        ensures { rows_of result ≡ spec.blank_rows }
    {
        Panel {
            advisory: RowText::new(),
            page: RowText::new(),
        }
    }
}

// Appends bytes for which there is room.
fn write(text: &mut RowText, bytes: &[u8])
    requires { length text.old.items + length bytes.now ≤ 72 }
    ensures { text.new.items ≡ text.old.items ++ bytes.now }
{
    let _ = text.try_extend_from_slice(bytes);
}

/// A name as the text of a row.
pub(crate) fn name_text(name: &[u8]) -> RowText
    requires { length name.now ≤ NAME }
    ensures { result.items ≡ name.now }
{
    let mut text = RowText::new();
    write(&mut text, name);
    text
}

/// A name and a number.
pub(crate) fn counted_name(name: &[u8], count: usize) -> RowText
    requires { length name.now ≤ NAME }
    ensures { result.items ≡ name.now ++ 32 ∷ decimal count }
{
    let mut text = name_text(name);
    let mut buffer = Buffer::new();
    write(&mut text, b" ");
    write(&mut text, buffer.format(count).as_bytes());
    text
}

// Appends bytes for which there is room.
fn put(block: &mut Block, bytes: &[u8])
    requires { length block.old.items + length bytes.now ≤ 256 }
    ensures { block.new.items ≡ block.old.items ++ bytes.now }
{
    let _ = block.try_extend_from_slice(bytes);
}

// What stands for the text of a row: a dash for a blank one.
fn text_or_dash(text: &[u8]) -> &[u8]
    ensures text { result.now ≡ spec.text_or_dash text.now }
    ensures short { length result.now ≤ length text.now + 1 }
{
    if text.is_empty() { b"-" } else { text }
}

// Appends the line of a row, if the row changed.
fn put_row(block: &mut Block, name: &[u8], old: &[u8], new: &[u8])
    requires { length block.old.items + length name.now + length new.now + 3 ≤ 256 }
    ensures line { block.new.items ≡ block.old.items ++ spec.row_line name.now old.now new.now }
    ensures short { length block.new.items
        ≤ length block.old.items + length name.now + length new.now + 3 }
{
    if old == new {
        return;
    }
    put(block, name);
    put(block, b" ");
    put(block, text_or_dash(new));
    put(block, b"\n");
}

// The lines of the rows that changed.
fn row_lines(old: &Panel, new: &Panel) -> Block
    ensures lines { result.items ≡ spec.row_lines (rows_of old.now) (rows_of new.now) }
    ensures short { length result.items ≤ 154 }
{
    let mut block = Block::new();
    put_row(&mut block, b"AD", &old.advisory, &new.advisory);
    put_row(&mut block, b"PG", &old.page, &new.page);
    block
}

/// What is written at a Tick, by its number: nothing where no row changed.
pub(crate) fn block(tick: u64, old: &Panel, new: &Panel) -> Block
    ensures { result.items ≡ spec.block tick (rows_of old.now) (rows_of new.now) }
{
    let lines = row_lines(old, new);
    if lines.is_empty() {
        return lines;
    }
    let mut block = Block::new();
    let mut buffer = Buffer::new();
    put(&mut block, b"@");
    put(&mut block, buffer.format(tick).as_bytes());
    put(&mut block, b"\n");
    put(&mut block, &lines);
    block
}

/// The line that ends the output after so many Ticks.
#[tactic(auto, unfolding(ecam_spec::specs::Output::end_line))]
pub(crate) fn end_line(ticks: u64) -> Block
    ensures { result.items ≡ output.end_line ticks }
{
    let mut line = Block::new();
    let mut buffer = Buffer::new();
    put(&mut line, b"END ");
    put(&mut line, buffer.format(ticks).as_bytes());
    put(&mut line, b"\n");
    line
}
