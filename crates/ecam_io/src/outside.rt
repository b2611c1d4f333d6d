// The three traits, and the call that writes all.
ghost use Rattle.std.specs.Prelude.{◌≡◌, ℕ, ◌<◌, ◌≤◌, Bool, true, List, [], ◌∷◌, take, length, ⊤, Option, None, IfOk, OnOk, OnErr, is_ok, Some};
ghost use Rattle.std.specs.Io.KnownBytes.{Consumes, IsAtEnd};
ghost use Rattle.ecam_io.specs.Outside.{raised, Rose, FileHas, MayRefuse, IsClosed, ReadCall, read_call, Appended, IsKept, AppendedPrefix};

/// A read, an open or a write failed.
#[derive(Clone, Copy, Debug, PartialEq, Eq)]
pub struct Failed;

/// What bytes are read from. A call that answers `Ok` counts no fault.
pub trait Source {
    /// The bytes that are left, where the source tells them.
    ghost left: { Self → Option (List ℕ) };

    /// The files of a shelf that tells them, each its name and what it holds; `None` for what is no shelf.
    ghost files: { Self → Option (List (List ℕ × List ℕ)) } = { λ _. None };

    /// Whether a file is open; true for what is no shelf.
    ghost is_open: { Self → Bool } = { λ _. true };

    /// How many calls of `open` there were, ending at 2^64 - 1; 0 for what is no shelf.
    ghost opens: { Self → ℕ } = { λ _. 0 };

    /// The state is one that these calls of `read`, from the first on, leave; any, for what keeps no account of them.
    ghost reads: { Self → List ReadCall → Type 0 } = { λ _ _. ⊤ };

    /// How many faults there were.
    ghost faults: { Self → ℕ };

    /// Moves the next bytes into the front of `into`, and answers how many. 0 is the end of the input.
    /// After `Failed` nothing was taken.
    fn read(&mut self, into: &mut [u8]) -> Result<usize, Failed>
        requires { 0 < length into.old }
        ensures bound { IfOk result (λ n. n ≤ length into.old) }
        ensures moved { IfOk result (λ n. Consumes (left self.old) (left self.new)
            (take n into.new)) }
        ensures end { IfOk result (λ n. n ≡ 0 → IsAtEnd (left self.new)) }
        ensures kept { OnErr result (left self.new ≡ left self.old) }
        ensures is_open { is_open self.new ≡ is_open self.old }
        ensures files { files self.new ≡ files self.old }
        ensures opens { opens self.new ≡ opens self.old }
        ensures reads { Appended reads self.old self.new (read_call (length into.old) result ∷ []) }
        ensures faults { faults self.old ≤ faults self.new }
        ensures quiet { OnOk result (faults self.new ≡ faults self.old) }
        ensures cause { OnErr result (Rose (faults self.old) (faults self.new)) };
}

/// A source whose bytes are those of the file that was opened last.
pub trait Shelf: Source {
    /// Opens the first file of that name from its beginning. After `Failed` nothing is open.
    fn open(&mut self, name: &str) -> Result<(), Failed>
        ensures found { OnOk result (FileHas (Self.files self.old) name.now
            (λ bytes. Self.left self.new ≡ Some bytes)) }
        ensures closed { OnErr result (IsClosed (Self.files self.old) (Self.left self.new)) }
        ensures is_open { Self.is_open self.new ≡ is_ok result }
        ensures files { Self.files self.new ≡ Self.files self.old }
        ensures opens { Self.opens self.new ≡ raised (Self.opens self.old) }
        ensures reads { IsKept Self.reads self.old self.new }
        ensures faults { Self.faults self.old ≤ Self.faults self.new }
        ensures quiet { OnOk result (Self.faults self.new ≡ Self.faults self.old) }
        ensures cause { OnErr result (MayRefuse (Self.files self.old) name.now
            (Self.faults self.old) (Self.faults self.new)) };
}

/// What bytes are written to. A call that answers `Ok` counts no fault.
pub trait Sink {
    /// The sink's state is one that writing these bytes, from the first on, leaves.
    ghost agrees: { Self → List ℕ → Type 0 };

    /// How many faults there were.
    ghost faults: { Self → ℕ };

    /// Appends the first of the bytes, at least one, and answers how many. After `Failed` nothing was appended.
    fn write(&mut self, bytes: &[u8]) -> Result<usize, Failed>
        requires { 0 < length bytes.now }
        ensures some { IfOk result (λ n. 0 < n) }
        ensures bound { IfOk result (λ n. n ≤ length bytes.now) }
        ensures appended { IfOk result (λ n. Appended agrees self.old self.new (take n bytes.now)) }
        ensures kept { OnErr result (IsKept agrees self.old self.new) }
        ensures faults { faults self.old ≤ faults self.new }
        ensures quiet { OnOk result (faults self.new ≡ faults self.old) }
        ensures cause { OnErr result (Rose (faults self.old) (faults self.new)) };
}

/// Appends all the bytes, in as many writes as the sink takes, and counts no fault. After `Failed` a prefix of them was
/// appended.
pub fn put_all<O: Sink>(out: &mut O, bytes: &[u8]) -> Result<(), Failed>
    ensures all { OnOk result (Appended O.agrees out.old out.new bytes.now) }
    ensures prefix { OnErr result (AppendedPrefix O.agrees out.old out.new bytes.now) }
    ensures none { bytes.now ≡ [] → is_ok result ≡ true }
    ensures faults { O.faults out.old ≤ O.faults out.new }
    ensures quiet { OnOk result (O.faults out.new ≡ O.faults out.old) }
    ensures cause { OnErr result (Rose (O.faults out.old) (O.faults out.new)) }
{
    let mut done = 0;
    while done < bytes.len() {
        done += out.write(&bytes[done..])?;
    }
    Ok(())
}
