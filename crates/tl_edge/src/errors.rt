ghost use Rattle.std.specs.Prelude.{◌≡◌};
ghost use Rattle.tl_edge.specs.declared.outside.FilesError.TheVariants as files;
ghost use Rattle.tl_edge.specs.declared.outside.SinkError.TheVariants as sink;

use crate::{FilesError, SinkError};
use std::alloc::AllocError;
use tl_base::NoMemory;

impl From<NoMemory> for FilesError {
    ghost from_gives = { λ _ error. error ≡ files.NoMemory };

    fn from(_error: NoMemory) -> FilesError {
        FilesError::NoMemory
    }
}

impl From<AllocError> for FilesError {
    ghost from_gives = { λ _ error. error ≡ files.NoMemory };

    fn from(_error: AllocError) -> FilesError {
        FilesError::NoMemory
    }
}

impl From<NoMemory> for SinkError {
    ghost from_gives = { λ _ error. error ≡ sink.NoMemory };

    fn from(_error: NoMemory) -> SinkError {
        SinkError::NoMemory
    }
}
