//! The pointer to a judge, as a host keeps it.

ghost use Rattle.std.specs.Prelude.{◌≡◌, ◌≢◌, Option, Some, None};
ghost use Rattle.std.specs.Coded.{coded_option};
ghost use Rattle.mencius_exports.specs.Holdings.{held_owns};
ghost use Rattle.mencius_exports.specs.declared.log_judge.LogJudge.{LogJudge};
ghost use Rattle.mencius_exports.specs.contracts.log_judge.LogJudge.{the_row};

use crate::log_judge::LogJudge;
use crate::loose::Loose;
use std::alloc::Global;
use std::marker::Model;
use std::ptr::null_mut;

/// The pointer to a judge, or null. It owns the judge. To drop it loses the judge.
#[repr(C)]
#[derive(Drop)]
pub struct Held {
    at: *mut u8,
    ghost value: { Option LogJudge } by { coded_option the_row.coded },
}

impl Model for Held {
    ghost also_owns = { λ h. held_owns the_row h.at h.value };
}

impl Held {
    /// Makes a null pointer.
    pub(crate) fn empty() -> Held
        ensures { result.value ≡ None }
    {
        Held { at: null_mut() }
    }

    /// Keeps the pointer of a box. The allocator takes no memory, so any other one can free the box.
    pub(crate) fn of(loose: Loose<LogJudge, Global>) -> Held
        ensures { result.value ≡ Some loose.value }
    {
        let Loose { at, alloc: _ } = loose;
        Held { at: at as *mut u8 }
    }

    /// Makes the box again.
    pub(crate) fn into_loose(self, alloc: Global) -> Loose<LogJudge, Global>
        requires { self.value ≢ None }
        ensures { self.value ≡ Some result.value }
    {
        let Held { at } = self;
        Loose {
            at: at as *mut LogJudge,
            alloc,
        }
    }
}

// The judge has no part that counts owners or is locked, so it may go to another thread.
unsafe impl Send for Held {}
