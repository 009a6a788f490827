//! The program `mencius`. It reads its command line and does the requested task with standard input and standard
//! output. Its exit status says how the call ended.
#![tactic(auto)]

use mencius_app::{Ending, Failure, Std, arguments_of, end, perform};
use std::alloc::Global;
use std::process::ExitCode;

// The greatest length of a scenario, in bytes.
const MOST_BYTES: usize = 16_777_216;

fn main(rt: HostRuntime) -> ExitCode {
    let alloc = rt.alloc();
    keep_freed_pages(alloc);
    let mut source = Std::new(rt.stdin());
    let mut sink = Std::new(rt.stdout());
    let mut errors = Std::new(rt.stderr());
    let ending = match arguments_of(&rt, alloc) {
        Ok(arguments) => {
            let arguments = arguments.as_slice();
            perform(&rt, alloc, arguments, &mut source, &mut sink, &mut errors)
        }
        Err(refused) => Ending::Failed(Failure::from(refused)),
    };
    ExitCode::from(end(ending, &mut errors))
}

// Lets the heap keep the pages of large blocks that are freed. The heap of the C library returns such pages to the
// system until the program has freed a block as large as this one. A cluster would then put its data on new pages,
// which cost more than all other work on the data. Nothing ever touches the block itself. If the allocation fails, only
// this saving is lost, because nothing needs the block. The allocation is in the program itself, because the settings
// of a heap that is shared with other programs are not ours to change.
fn keep_freed_pages(alloc: Global) {
    let _block = Vec::<u8>::with_capacity(alloc, MOST_BYTES);
}
