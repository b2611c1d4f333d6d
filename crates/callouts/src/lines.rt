// The lines that are written.
ghost use Rattle.std.specs.Prelude.{◌≡◌, ◌≤◌, ◌+◌, ◌++◌, Some, length};
ghost use Rattle.ecam_spec.specs.Output as output;
ghost use Rattle.view_spec.specs.Callouts.{call_line};

use arrayvec::ArrayVec;
use itoa::Buffer;

// Two numbers of at most 40 digits, and the words between them, take fewer bytes.
pub type Line = ArrayVec<u8, 96>;

// Appends bytes for which there is room.
fn put(line: &mut Line, bytes: &[u8])
    requires { length line.old.items + length bytes.now ≤ 96 }
    ensures { line.new.items ≡ line.old.items ++ bytes.now }
{
    let _ = line.try_extend_from_slice(bytes);
}

/// The line of a Tick, by its number, at which this height is called.
pub fn call_line(tick: u64, height: u32) -> Line
    ensures { result.items ≡ call_line tick (Some height) }
{
    let mut line = Line::new();
    let mut buffer = Buffer::new();
    put(&mut line, b"@");
    put(&mut line, buffer.format(tick).as_bytes());
    put(&mut line, b" CALL ");
    put(&mut line, buffer.format(height).as_bytes());
    put(&mut line, b"\n");
    line
}

/// The line that ends the output after so many Ticks.
#[tactic(auto, unfolding(ecam_spec::specs::Output::end_line))]
pub fn end_line(ticks: u64) -> Line
    ensures { result.items ≡ output.end_line ticks }
{
    let mut line = Line::new();
    let mut buffer = Buffer::new();
    put(&mut line, b"END ");
    put(&mut line, buffer.format(ticks).as_bytes());
    put(&mut line, b"\n");
    line
}
