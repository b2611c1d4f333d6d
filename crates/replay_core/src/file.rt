// Reads a file whole, as far as it may go.
ghost use Rattle.std.specs.Prelude.{◌≡◌, ◌≢◌, ◌≤◌, ◌<◌, ◌+◌, length, IfOk, Some, Err};
ghost use Rattle.ecam_io.specs.Outside.{raised, Rose, FileHas};
ghost use Rattle.ecam_spec.specs.Book.{Text};
ghost use Rattle.replay_core.specs.Calls.{shelf_call};
ghost use Rattle.replay_core.specs.Loading.{IsFront, IsUnread, TookAtMost, Taken};
ghost use Rattle.replay_core.specs.declared.file.FileError.{FileError};
ghost use Rattle.replay_core.specs.declared.file.FileError.TheVariants.{Failed as Unreadable, Memory};

use ecam_io::{Failed, Shelf, Source};
use std::alloc::{AllocError, Global};

const PIECE: usize = 4096;

// Why a file wasn't read.
#[derive(Clone, Copy, Debug, PartialEq, Eq)]
pub(crate) enum FileError {
    Failed,
    Memory,
}

impl From<Failed> for FileError {
    ghost from_gives = { λ _ e. e ≡ Unreadable };

    fn from(_: Failed) -> Self {
        FileError::Failed
    }
}

impl From<AllocError> for FileError {
    ghost from_gives = { λ _ e. e ≡ Memory };

    fn from(_: AllocError) -> Self {
        FileError::Memory
    }
}

// The first bytes of a file, and no more than `most`.
pub(crate) fn read_file<F: Shelf>(
    alloc: Global,
    files: &mut F,
    name: &str,
    most: usize,
) -> Result<Vec<u8>, FileError>
    ensures front { IfOk result (λ v. FileHas (F.files files.old) name.now
        (λ bytes. IsFront most bytes v.items (F.left files.new))) }
    ensures failed { result ≡ Err Unreadable
        → IsUnread most (shelf_call F.Source files.old files.new) name.now }
    ensures took { result ≢ Err Unreadable
        → Taken most (F.files files.old) name.now (F.left files.new) }
    ensures quiet { result ≢ Err Unreadable → F.faults files.new ≡ F.faults files.old }
    ensures files { F.files files.new ≡ F.files files.old }
    ensures opens { F.opens files.new ≡ raised (F.opens files.old) }
    ensures faults { F.faults files.old ≤ F.faults files.new }
{
    files.open(name)?;
    read_up_to(alloc, files, most)
}

// The first bytes that a source has left.
fn read_up_to<S: Source>(alloc: Global, source: &mut S, most: usize) -> Result<Vec<u8>, FileError>
    ensures front { IfOk result (λ v. (bytes : Text) → S.left source.old ≡ Some bytes
        → IsFront most bytes v.items (S.left source.new)) }
    ensures failed { result ≡ Err Unreadable → Rose (S.faults source.old) (S.faults source.new) }
    ensures took { (bytes : Text) → S.left source.old ≡ Some bytes
        → TookAtMost most bytes (S.left source.new) }
    ensures quiet { result ≢ Err Unreadable → S.faults source.new ≡ S.faults source.old }
    ensures is_open { S.is_open source.new ≡ S.is_open source.old }
    ensures files { S.files source.new ≡ S.files source.old }
    ensures opens { S.opens source.new ≡ S.opens source.old }
    ensures faults { S.faults source.old ≤ S.faults source.new }
{
    let mut bytes = Vec::new(alloc);
    let mut piece = [0; PIECE];
    while bytes.len() < most {
        let room = PIECE.min(most - bytes.len());
        let count = source.read(&mut piece[..room])?;
        if count == 0 {
            return Ok(bytes);
        }
        bytes.extend_from_slice(&piece[..count])?;
    }
    Ok(bytes)
}
