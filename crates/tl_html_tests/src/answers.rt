//! Whether a call answered what its row says.
use std::alloc::AllocError;

/// Whether it wrote these bytes.
pub fn is_written(written: Result<Vec<u8>, AllocError>, wanted: &[u8]) -> bool {
    match written {
        Ok(written) => written.as_slice() == wanted,
        Err(_) => false,
    }
}

/// Whether it found these bytes, or that there are none.
pub fn is_found(found: Result<Option<Vec<u8>>, AllocError>, wanted: Option<&[u8]>) -> bool {
    match found {
        Err(_) => false,
        Ok(None) => wanted.is_none(),
        Ok(Some(found)) => match wanted {
            None => false,
            Some(wanted) => found.as_slice() == wanted,
        },
    }
}

/// Whether it answered these bytes, or this error.
pub fn is_answer<E: PartialEq + Copy>(found: Result<Vec<u8>, E>, wanted: Result<&[u8], E>) -> bool {
    match found {
        Ok(found) => match wanted {
            Ok(wanted) => found.as_slice() == wanted,
            Err(_) => false,
        },
        Err(error) => match wanted {
            Ok(_) => false,
            Err(wanted) => error == wanted,
        },
    }
}
