//! The arguments that the program was started with.

use std::alloc::{AllocError, Global};
use std::env::{Env, FillError};

// The size of the first buffer for an argument, in bytes.
const FIRST_ROOM: usize = 256;

/// Returns the arguments after the program's name, each as its bytes. It does not read the name.
///
/// # Errors
///
/// Fails with `AllocError` if memory runs out.
pub fn arguments_of<R: Env>(rt: &R, alloc: Global) -> Result<Vec<Vec<u8>>, AllocError> {
    let mut arguments = Vec::new(alloc);
    for place in 1..usize::MAX {
        match argument_at(rt, alloc, place)? {
            Some(argument) => arguments.push(argument)?,
            None => break,
        }
    }
    Ok(arguments)
}

// Returns the argument at this place, if it exists. The buffer doubles until the argument fits.
fn argument_at<R: Env>(rt: &R, alloc: Global, place: usize) -> Result<Option<Vec<u8>>, AllocError> {
    let mut room = FIRST_ROOM;
    for _ in 0..usize::BITS {
        let mut bytes = Vec::new(alloc);
        bytes.resize(room, 0u8)?;
        match rt.arg(place, bytes.as_mut_slice()) {
            Ok(length) => {
                bytes.truncate(length);
                return Ok(Some(bytes));
            }
            Err(FillError::NotPresent) => return Ok(None),
            Err(FillError::TooLong) => room = room.saturating_add(room),
        }
    }
    Err(AllocError)
}
