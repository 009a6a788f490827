//! The `Answer` that a host gets after a call.

ghost use Rattle.std.specs.Prelude.{[], false, MatchResult};
ghost use Rattle.mencius_exports.specs.Calls.{IsPut, Tells, memory_status};

use crate::call::Called;
use mencius_base::NoMemory;
use std::alloc::Global;

/// The result of a call of the program, without its texts.
#[repr(C)]
pub struct Answer {
    /// The exit status, 0 to 5.
    pub status: u64,
    /// The number of bytes for standard output.
    pub printed: u64,
    /// The number of bytes for standard error.
    pub said: u64,
    /// 1 if the input was read, or if a judge wants more bytes, and 0 otherwise.
    pub asked: u64,
}

/// Reports a call, or that memory ran out for it. Puts each text of the call into its buffer if the whole text fits.
pub(crate) fn tell(
    alloc: Global,
    call: Result<Called, NoMemory>,
    printed: &mut [u8],
    said: &mut [u8],
    answer: &mut Answer,
)
    ensures { MatchResult call (λ x. Tells answer.new x.status x.printed.items x.said.items x.is_asked
        printed.old printed.new said.old said.new)
        (λ _. Tells answer.new memory_status [] [] false printed.old printed.new said.old said.new) }
{
    match call {
        Ok(called) => tell_texts(&called, printed, said, answer),
        Err(_) => tell_texts(&Called::without_memory(alloc), printed, said, answer),
    }
}

/// Reports a call, and puts each text of the call into its buffer if the whole text fits.
pub(crate) fn tell_texts(called: &Called, printed: &mut [u8], said: &mut [u8], answer: &mut Answer)
    ensures { Tells answer.new called.now.status called.now.printed.items called.now.said.items
        called.now.is_asked printed.old printed.new said.old said.new }
{
    put(called.printed.as_slice(), printed);
    put(called.said.as_slice(), said);
    answer.status = u64::from(called.status);
    answer.printed = called.printed.len() as u64;
    answer.said = called.said.len() as u64;
    answer.asked = u64::from(called.is_asked);
}

// Puts a text at the front of a buffer if the whole text fits. The rest of the buffer stays unchanged.
fn put(text: &[u8], room: &mut [u8])
    ensures { IsPut text.now room.old room.new }
{
    if text.len() <= room.len() {
        room[..text.len()].copy_from_slice(text);
    }
}
